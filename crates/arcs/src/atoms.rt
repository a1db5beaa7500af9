// What is asked of a table's schema atoms: whether two give an arc, and an atom's role, part and arguments.
ghost use Rattle.std.specs.Prelude.{ℕ, ◌≤◌, ◌<◌, ◌≡◌, List, length, get_or, eqb};
ghost use Rattle.words.specs.Sets.{member};
ghost use Rattle.task.specs.Limits.{most_parts, most_arity, most_parameters};
ghost use Rattle.task.specs.Task.{Pair, precondition, schema_roles, names};
ghost use Rattle.task.specs.Table.{atom_in};
ghost use Rattle.arcs.specs.Order.{hold_pair, gives_arc};
ghost use Rattle.arcs.specs.Stretches.{AreAfter, ArePartners, IsSchemaAtom, Pairing};

use crate::PartnerSets;
use task::layout::{arguments, arity, part_at, predicate, role, role_at, row_of};
use task::limits::PRECONDITION;
use task::{Parameter, Part};
use words::runs::word_at;
use words::sets::{has, with};

// "at some argument position they hold a declared pair": whether two atoms of one predicate do, by the partners of each
// parameter.
pub fn hold_pair(table: &[u16], i: usize, j: usize, partners: &PartnerSets) -> bool
    requires schema_atom { IsSchemaAtom table.now i }
    requires schema_atom_2 { IsSchemaAtom table.now j }
    requires i_value { (atom_in table.now i).pred ≡ (atom_in table.now j).pred }
    ensures { (pairs : List Pair) → ArePartners pairs partners.now →
        result ≡ hold_pair pairs (atom_in table.now i).args (atom_in table.now j).args }
{
    let n = argument_count(table, i);
    (0..n).any(|k| {
        let x = usize::from(argument(table, i, k).0);
        let y = usize::from(argument(table, j, k).0);
        has(partners[y], x)
    })
}

// "Two atoms of one schema with the same predicate give an arc", here by the roles that come after the first's, and "no
// arc if .. they hold a declared pair". Where no parameters are `paired` no argument is read.
pub fn gives_arc(
    table: &[u16],
    i: usize,
    j: usize,
    after: u64,
    paired: bool,
    partners: &PartnerSets,
) -> bool
    requires schema_atom { IsSchemaAtom table.now i }
    requires schema_atom_2 { IsSchemaAtom table.now j }
    requires are_after { AreAfter (atom_in table.now i).role after }
    ensures { (pairs : List Pair) → Pairing pairs paired partners.now →
        result ≡ gives_arc pairs (atom_in table.now i) (atom_in table.now j) }
{
    if predicate(table, i) != predicate(table, j) {
        return false;
    }
    if !has_role(table, j, after) {
        return false;
    }
    if paired {
        return !hold_pair(table, i, j, partners);
    }
    true
}

// "preconditions first, then adds, then deletes": an atom's role is one of the three.
pub fn role_of(table: &[u16], i: usize) -> usize
    requires { IsSchemaAtom table.now i }
    ensures value { result ≡ (atom_in table.now i).role }
    ensures upper_bound { result < schema_roles }
{
    role(table, i)
}

// Whether atom i has one of these roles.
pub fn has_role(table: &[u16], i: usize, roles: u64) -> bool
    requires { IsSchemaAtom table.now i }
    ensures { result ≡ member roles (atom_in table.now i).role }
{
    has(roles, role_of(table, i))
}

// "It has 1 to 16 parts"
pub fn part_of(table: &[u16], i: usize) -> Part
    requires { IsSchemaAtom table.now i }
    ensures result_value { result.0 ≡ (atom_in table.now i).part }
    ensures result_lt_most_parts { result.0 < most_parts }
{
    Part(part_at(table, row_of(table, i)))
}

// Whether atom i is a precondition.
pub fn is_precondition(table: &[u16], i: usize) -> bool
    requires { IsSchemaAtom table.now i }
    ensures { result ≡ eqb (atom_in table.now i).role precondition }
{
    role_at(table, row_of(table, i)) == PRECONDITION
}

// An atom has as many arguments as its predicate's arity.
pub fn argument_count(table: &[u16], i: usize) -> usize
    requires { IsSchemaAtom table.now i }
    ensures value { result ≡ length (atom_in table.now i).args }
    ensures upper_bound { result ≤ most_arity }
{
    arity(table, predicate(table, i))
}

// Argument k of atom i.
pub fn argument(table: &[u16], i: usize, k: usize) -> Parameter
    requires schema_atom { IsSchemaAtom table.now i }
    requires k_in_bounds { k < length (atom_in table.now i).args }
    ensures result_value { result.0 ≡ get_or (atom_in table.now i).args k 0 }
    ensures result_lt_most_parameters { result.0 < most_parameters }
{
    Parameter(word_at(table, arguments(table, i) + k))
}

// The parameters that atom i names.
pub fn parameters_of(table: &[u16], i: usize) -> u16
    requires { IsSchemaAtom table.now i }
    ensures { (x : ℕ) → member result x ≡ names x (atom_in table.now i) }
{
    let n = argument_count(table, i);
    let mut named = 0;
    for k in 0..n {
        named = with(named, usize::from(argument(table, i, k).0));
    }
    named as u16
}
