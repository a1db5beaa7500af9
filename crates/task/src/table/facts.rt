// The ground atoms of a table: "schema and part of roles 3 and 4, are 0", and they "ascend strictly".
ghost use Rattle.std.specs.Prelude.{◌≡◌, ◌-◌, ◌<◌, ◌≤◌};
ghost use Rattle.words.specs.Lists.{all, up_from};
ghost use Rattle.task.specs.Layout.{atom_total};
ghost use Rattle.task.specs.Task.{ascending};
ghost use Rattle.task.specs.WordTests.{fact_words_fit, facts_words_fit, facts_in, Roomy, KnownIn};

use super::atoms::{atom_fits, fact_less};
use crate::layout::{part, role, schema_number};
use crate::limits::OBJECTS;
use words::runs::word;

// Whether atom i is a ground atom of a role: "schema and part of roles 3 and 4, are 0".
#[tactic(auto, unfolding(crate::specs::WordTests::fact_words_fit))]
fn fact_fits(table: &[u16], wanted: usize, i: usize) -> bool
    requires roomy { Roomy table.now }
    requires i_bound { i < atom_total table.now }
    ensures { result ≡ fact_words_fit table.now wanted i }
{
    schema_number(table, i) == 0
        && role(table, i) == wanted
        && part(table, i) == 0
        && atom_fits(table, i, word(table, OBJECTS))
}

// Whether each atom from one index to another is a ground atom of a role.
fn each_fact_fits(table: &[u16], wanted: usize, first: usize, end: usize) -> bool
    requires roomy { Roomy table.now }
    requires end_bound { end ≤ atom_total table.now }
    ensures { result ≡ all (fact_words_fit table.now wanted) (up_from first (end - first)) }
{
    (first..end).all(|i| fact_fits(table, wanted, i))
}

// "ascend strictly", of the ground atoms from one index to another.
fn facts_ascend(table: &[u16], first: usize, end: usize) -> bool
    requires roomy { Roomy table.now }
    requires first_le_end { (first ≤ end) × (end ≤ atom_total table.now) }
    requires known_in { KnownIn table.now first end }
    ensures { result ≡ ascending (facts_in table.now first (end - first)) }
{
    (first + 1..end).all(|i| fact_less(table, i - 1, i))
}

// Whether the atoms from one index to another are ground atoms of a role, strictly ascending.
#[tactic(auto, unfolding(crate::specs::WordTests::facts_words_fit))]
pub(crate) fn facts_fit(table: &[u16], wanted: usize, first: usize, end: usize) -> bool
    requires roomy { Roomy table.now }
    requires first_le_end { (first ≤ end) × (end ≤ atom_total table.now) }
    ensures { result ≡ facts_words_fit table.now wanted first (end - first) }
{
    each_fact_fits(table, wanted, first, end) && facts_ascend(table, first, end)
}
