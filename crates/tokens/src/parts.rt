// The parts of each schema: where its atoms and its pairs begin, the order taken of its parts, and the parameters of
// each part.
ghost use Rattle.std.specs.Prelude.{ℕ, ◌+◌, ◌≤◌, ◌<◌, ◌≡◌, true, length};
ghost use Rattle.std.specs.Prelude.{None};
ghost use Rattle.words.specs.Lists.{first, up_to};
ghost use Rattle.task.specs.Table.{task_of, is_table};
ghost use Rattle.tokens.specs.Split.{is_none, order_at};
ghost use Rattle.tokens.specs.Acceptance.{part_at, OrderKept};
ghost use Rattle.task.specs.Limits.{most_parts, most_schema_atoms};
ghost use Rattle.tokens.specs.Kept.{PartsKept};

use crate::kept::{Kept, keep_begin, keep_count, keep_part};
use arcs::Order;
use arcs::ends::schema_ends;
use arcs::orders::order_of;
use task::limits::{MOST_PARTS, SCHEMAS};
use words::runs::word;

// Keeps the order found of the parts of the atoms from `from` on, and the parameters of the part at each position.
fn keep_order(from: usize, order: &Order, named: &[u16; MOST_PARTS], kept: &mut Kept)
    requires count_bound { from + order.now.count ≤ most_schema_atoms }
    requires count_le_most_parts { (order.now.count ≤ most_parts) × (length order.now.parts ≡ most_parts) }
    requires by_index { (j : ℕ) → j < order.now.count → part_at order.now.parts j < most_parts }
    ensures { OrderKept from order.now.count order.now.parts named.now kept.old kept.new }
{
    for j in 0..order.count {
        let part = order.parts[j];
        keep_part(kept, from + j, part, named[usize::from(part.0)]);
    }
}

// Keeps each schema's parts, up to the first schema for whose parts no order complies: that schema, if there is one.
pub fn keep_parts(table: &[u16], kept: &mut Kept) -> Option<u64>
    requires { is_table table.now ≡ true }
    ensures result_value { result ≡
        first (λ s. is_none (order_at (task_of table.now) s))
        (up_to (length (task_of table.now).schemas)) }
    ensures parts_kept { result ≡ None →
        PartsKept (task_of table.now) (length (task_of table.now).schemas) kept.new }
{
    let schemas = word(table, SCHEMAS);
    let mut from = 0;
    let mut pair = 0;
    let mut first = 0;
    keep_begin(kept, 0, 0, 0, 0);
    for s in 0..schemas {
        let ends = schema_ends(table, s, from, pair);
        let found = order_of(table, from, ends.atoms, pair, ends.pairs);
        let Some(order) = found.order else {
            return Some(s as u64);
        };
        keep_count(kept, s, order.count);
        keep_order(from, &order, &found.named, kept);
        from = ends.atoms;
        pair = ends.pairs;
        first += order.count;
        keep_begin(kept, s + 1, from, first, pair);
    }
    None
}
