// The pairs of a schema: "two parameters .., the lower first", none "too high", the pairs "strictly ascending".
ghost use Rattle.std.specs.Prelude.{◌≡◌, ◌-◌, ◌<◌, ◌≤◌};
ghost use Rattle.words.specs.Lists.{all};
ghost use Rattle.task.specs.Layout.{head_in};
ghost use Rattle.task.specs.Task.{pair_fits, pair_less, pairs_ascend};
ghost use Rattle.task.specs.Table.{pair_in};
ghost use Rattle.task.specs.WordTests.{pairs_in, pairs_fit, Roomy};

use crate::layout::{higher, lower};

// Whether pair i names the lower parameter first, and none that a schema with so many parameters hasn't.
#[tactic(auto, unfolding(crate::specs::Task::pair_fits))]
fn pair_fits(table: &[u16], i: usize, params: usize) -> bool
    requires roomy { Roomy table.now }
    requires i_bound { i < (head_in table.now).pairs }
    ensures { result ≡ pair_fits params (pair_in table.now i) }
{
    let above = higher(table, i);
    lower(table, i) < above && above < params
}

// Whether pair i comes before pair j, by the lower parameter and then by the higher.
fn pair_less(table: &[u16], i: usize, j: usize) -> bool
    requires roomy { Roomy table.now }
    requires i_bound { (i < (head_in table.now).pairs) × (j < (head_in table.now).pairs) }
    ensures { result ≡ pair_less (pair_in table.now i) (pair_in table.now j) }
{
    (lower(table, i), higher(table, i)) < (lower(table, j), higher(table, j))
}

// Whether each pair from one index to another fits a schema with so many parameters.
fn each_pair_fits(table: &[u16], params: usize, first: usize, end: usize) -> bool
    requires roomy { Roomy table.now }
    requires end_bound { end ≤ (head_in table.now).pairs }
    ensures { result ≡ all (pair_fits params) (pairs_in table.now first (end - first)) }
{
    (first..end).all(|i| pair_fits(table, i, params))
}

// "strictly ascending", of the pairs from one index to another.
fn pairs_ascend(table: &[u16], first: usize, end: usize) -> bool
    requires roomy { Roomy table.now }
    requires first_le_end { (first ≤ end) × (end ≤ (head_in table.now).pairs) }
    ensures { result ≡ pairs_ascend (pairs_in table.now first (end - first)) }
{
    (first + 1..end).all(|i| pair_less(table, i - 1, i))
}

// Whether the pairs from one index to another are those of a schema with so many parameters.
#[tactic(auto, unfolding(crate::specs::WordTests::pairs_fit))]
pub(crate) fn pairs_fit(table: &[u16], params: usize, first: usize, end: usize) -> bool
    requires roomy { Roomy table.now }
    requires first_le_end { (first ≤ end) × (end ≤ (head_in table.now).pairs) }
    ensures { result ≡ pairs_fit params (pairs_in table.now first (end - first)) }
{
    each_pair_fits(table, params, first, end) && pairs_ascend(table, first, end)
}
