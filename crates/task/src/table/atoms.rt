// An atom of a table: whether its arguments fit, and two atoms compared.
ghost use Rattle.std.specs.Prelude.{◌≡◌, ◌+◌, ◌<◌};
ghost use Rattle.task.specs.Layout.{head_in, atom_total};
ghost use Rattle.task.specs.Task.{same_atom, fact_less};
ghost use Rattle.task.specs.Table.{atom_in, fact_in};
ghost use Rattle.task.specs.WordTests.{arg_words_fit, Roomy};

use crate::layout::{arguments, arity, predicate};
use crate::limits;
use words::runs::{all_below, less_words, same_words, word, zeros};

// Whether atom i has a known predicate, arguments below a bound, and unused words 0.
pub(crate) fn atom_fits(table: &[u16], i: usize, bound: usize) -> bool
    requires roomy { Roomy table.now }
    requires i_bound { i < atom_total table.now }
    ensures { result ≡ arg_words_fit table.now bound i }
{
    let p = predicate(table, i);
    if word(table, limits::PREDICATES) <= p {
        return false;
    }
    let from = arguments(table, i);
    let to = from + arity(table, p);
    all_below(table, from, to, bound) && zeros(table, to, from + limits::MOST_ARITY)
}

// Whether two atoms of one role have one predicate and the same arguments; the first's predicate is known.
pub(crate) fn same_atom(table: &[u16], i: usize, j: usize) -> bool
    requires roomy { Roomy table.now }
    requires i_bound { (i < atom_total table.now) × (j < atom_total table.now) }
    requires i_bound_2 { (atom_in table.now i).pred < (head_in table.now).predicates }
    requires i_value { (atom_in table.now i).role ≡ (atom_in table.now j).role }
    ensures { result ≡ same_atom (atom_in table.now i) (atom_in table.now j) }
{
    let p = predicate(table, i);
    if p != predicate(table, j) {
        return false;
    }
    same_words(
        table,
        arguments(table, i),
        arguments(table, j),
        arity(table, p),
    )
}

// Whether one ground atom comes before another, "by predicate and then arguments"; the first's predicate is known.
pub(crate) fn fact_less(table: &[u16], i: usize, j: usize) -> bool
    requires roomy { Roomy table.now }
    requires i_bound { (i < atom_total table.now) × (j < atom_total table.now) }
    requires i_bound_2 { (atom_in table.now i).pred < (head_in table.now).predicates }
    ensures { result ≡ fact_less (fact_in table.now i) (fact_in table.now j) }
{
    let p = predicate(table, i);
    let q = predicate(table, j);
    if p != q {
        return p < q;
    }
    less_words(
        table,
        arguments(table, i),
        arguments(table, j),
        arity(table, p),
    )
}
