// What is known of each part of a stretch of atoms, gathered in one pass.
ghost use Rattle.std.specs.Prelude.{◌≤◌, ◌≡◌, replicate};
ghost use Rattle.task.specs.Limits.{most_parts};
ghost use Rattle.task.specs.Task.{part_count};
ghost use Rattle.arcs.specs.Stretches.{AreParameters, AreTests, IsStretch, stretch_in};

use crate::atoms::{is_precondition, parameters_of, part_of};
use crate::{ParameterSets, PartCounts};
use words::sets::word_union;

// Gathers how many preconditions each part has, the parameters that these name, and all that the part has. The arrays
// are lent all 0. Hands back the number of parts, one more than the highest.
pub fn gather(
    table: &[u16],
    from: usize,
    to: usize,
    preconditions: &mut PartCounts,
    tested: &mut ParameterSets,
    named: &mut ParameterSets,
) -> usize
    requires stretch { IsStretch table.now from to }
    requires preconditions_value { preconditions.old ≡ replicate most_parts 0 }
    requires tested_value { tested.old ≡ replicate most_parts 0 }
    requires named_value { named.old ≡ replicate most_parts 0 }
    ensures value { result ≡ part_count (stretch_in table.now from to) }
    ensures upper_bound { result ≤ most_parts }
    ensures are_tests { AreTests (stretch_in table.now from to) preconditions.new
        tested.new }
    ensures are_parameters { AreParameters (stretch_in table.now from to) named.new }
{
    let mut count = 0;
    for i in from..to {
        let part = usize::from(part_of(table, i).0);
        let parameters = parameters_of(table, i);
        named[part] = word_union(named[part], parameters);
        if is_precondition(table, i) {
            preconditions[part] += 1;
            tested[part] = word_union(tested[part], parameters);
        }
        count = count.max(part + 1);
    }
    count
}
