// The order taken of a schema's parts: arcs, preconditions and parameters are found once, then parts are placed one by
// one.
ghost use Rattle.std.specs.Prelude.{◌≤◌, ◌≡◌, length, Some};
ghost use Rattle.arcs.specs.declared.Order.{Order};
ghost use Rattle.task.specs.Task.{Schema};
ghost use Rattle.arcs.specs.Order.{order_of};
ghost use Rattle.task.specs.Limits.{most_parts};
ghost use Rattle.arcs.specs.Stretches.{AreParameters, IsPairStretch, IsStretch, stretch_in, pair_stretch_in};
ghost use Rattle.arcs.specs.Stretches.{order_told};

use crate::before::arcs_of;
use crate::choice::choose;
use crate::parts::gather;
use crate::{Order, Ordered};
use task::Part;
use task::limits::MOST_PARTS;
use words::sets::{below, held, union, without};

// The order taken of the parts of the schema whose atoms are atoms `from` to `to - 1` of the table, and whose pairs are
// pairs `pair` to `end - 1`.
pub fn order_of(table: &[u16], from: usize, to: usize, pair: usize, end: usize) -> Ordered
    requires stretch { IsStretch table.now from to }
    requires pair_stretch { IsPairStretch table.now pair end }
    ensures result_value { (s : Schema) → s.pairs ≡ pair_stretch_in table.now pair end →
        s.atoms ≡ stretch_in table.now from to → order_told result.order ≡ order_of s }
    ensures count_le_most_parts { (o : Order) → result.order ≡ Some o →
        (o.count ≤ most_parts) × (length o.parts ≡ most_parts) }
    ensures are_parameters { AreParameters (stretch_in table.now from to) result.named }
{
    let before = arcs_of(table, from, to, pair, end);
    let mut preconditions = [0; MOST_PARTS];
    let mut tested = [0; MOST_PARTS];
    let mut named = [0; MOST_PARTS];
    let count = gather(table, from, to, &mut preconditions, &mut tested, &mut named);
    let mut parts = [Part(0); MOST_PARTS];
    let mut unplaced = below(count);
    let mut bound = 0;
    for placed in 0..count {
        let Some(part) = choose(&before, &preconditions, &tested, bound, unplaced, count) else {
            return Ordered { named, order: None };
        };
        let p = usize::from(part.0);
        parts[placed] = part;
        unplaced = without(unplaced, p);
        bound = union(bound, held(named[p]));
    }
    Ordered {
        named,
        order: Some(Order { parts, count }),
    }
}
