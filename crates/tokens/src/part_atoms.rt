// The atoms of one part's schema, role by role: the part's old atoms renumbered, then procnone or a do, then pars.
ghost use Rattle.std.specs.Prelude.{◌+◌, ◌-◌, ◌*◌, ◌≤◌, ◌<◌, ◌≡◌, [], map, length, eqb};
ghost use Rattle.words.specs.Lists.{padded};
ghost use Rattle.task.specs.Table.{atom_in, atom_words};
ghost use Rattle.task.specs.Task.{precondition};
ghost use Rattle.arcs.specs.Stretches.{IsSchemaAtom};
ghost use Rattle.tokens.specs.Split.{token};
ghost use Rattle.words.specs.Putting.{Puts};
ghost use Rattle.tokens.specs.Writing.{new_number, renumbered, par_in, old_words, par_words, role_words, part_words};
ghost use Rattle.tokens.specs.Writing.{par_bound, RoleBegins};
ghost use Rattle.task.specs.Limits.{atom_size, most_arity, most_parameters};
ghost use Rattle.words.specs.Sets.{word_bits};

use crate::pars::Pars;
use arcs::atoms::{argument, argument_count, part_of};
use task::layout::{predicate_at, role_at, row_of};
use task::limits::{ADDITION, DELETION, MOST_ARITY, PRECONDITION};
use task::{Parameter, Part};
use words::putting::{fill, four};
use words::sets;

// The part that is written: the atoms of its schema, `from` to `to - 1`, its number among the parts, the set of its
// parameters, the parameters of its schema, its number among the schemas of the split, and the predicate of par 0.
#[derive(Clone, Copy)]
pub struct PartPlace {
    pub from: usize,
    pub to: usize,
    pub part: Part,
    pub own: u64,
    pub params: usize,
    pub number: u16,
    pub par: u16,
}

// The tokens of a part: which it requires and which it hands on, the pars of its parameters, and whether it is the only
// part of its schema.
#[derive(Clone, Copy, Debug, PartialEq, Eq)]
pub struct PartTokens {
    pub lone: bool,
    pub required: u16,
    pub handed: u16,
    pub pars: Pars,
}

// Those of one role: a bare token and the pars of the parameters in a set.
#[derive(Clone, Copy, Debug, PartialEq, Eq)]
struct RoleTokens {
    bare: u16,
    which: u64,
}

// How far a role is put: the place behind its atoms, and the schema's first old atom of a later role.
#[derive(Clone, Copy, Debug, PartialEq, Eq)]
struct Reached {
    next: usize,
    atom: usize,
}

// A parameter's number among those of the part.
pub(crate) fn renumbered_in(own: u64, x: Parameter) -> Parameter
    requires { x.0 < word_bits }
    ensures { result.0 ≡ new_number own x.0 }
{
    let before = sets::common(own, sets::below(usize::from(x.0)));
    Parameter(sets::size(before) as u16)
}

// The four words of an old atom's arguments, renumbered.
fn arguments(table: &[u16], i: usize, own: u64, out: &mut [u16], at: usize) -> usize
    requires schema_atom { IsSchemaAtom table.now i }
    requires most_arity_in_bounds { at + most_arity ≤ length out.old }
    ensures puts { Puts out.old at
        (padded most_arity (map (new_number own) (atom_in table.now i).args)) out.new result }
    ensures value { result ≡ at + most_arity }
{
    let count = argument_count(table, i);
    for k in 0..count {
        out[at + k] = renumbered_in(own, argument(table, i, k)).0;
    }
    fill(out, at + count, MOST_ARITY - count, 0)
}

// An old atom, renumbered.
pub fn old_atom(
    table: &[u16],
    i: usize,
    own: u64,
    number: u16,
    role: u16,
    out: &mut [u16],
    at: usize,
) -> usize
    requires schema_atom { IsSchemaAtom table.now i }
    requires atom_size_in_bounds { at + atom_size ≤ length out.old }
    ensures puts { Puts out.old at (atom_words number (renumbered own role (atom_in table.now i)))
        out.new result }
    ensures value { result ≡ at + atom_size }
{
    let predicate = predicate_at(table, row_of(table, i));
    let next = four(out, at, number, role, predicate, 0);
    arguments(table, i, own, out, next)
}

// Whether an atom is in a role.
fn is_of_role(table: &[u16], i: usize, role: u16) -> bool
    requires { IsSchemaAtom table.now i }
    ensures { result ≡ eqb role (atom_in table.now i).role }
{
    role == role_at(table, row_of(table, i))
}

// The old atoms of one role, in file order. Roles ascend, so those of the role stand in a row, from atom `first` on.
fn old_atoms(
    table: &[u16],
    here: PartPlace,
    role: u16,
    first: usize,
    out: &mut [u16],
    at: usize,
) -> Reached
    requires role_begins { RoleBegins table.now here role first }
    requires from_in_bounds { at + atom_size * (here.to - here.from) ≤ length out.old }
    ensures puts { Puts out.old at (old_words table.now here role)
        out.new result.next }
    ensures next_bound { result.next ≤ at + atom_size * (here.to - here.from) }
    ensures role_begins_2 { RoleBegins table.now here (role + 1) result.atom }
{
    let mut next = at;
    for i in first..here.to {
        if !is_of_role(table, i, role) {
            return Reached { next, atom: i };
        }
        if part_of(table, i).0 == here.part.0 {
            next = old_atom(table, i, here.own, here.number, role, out, next);
        }
    }
    Reached {
        next,
        atom: here.to,
    }
}

// A bare token: procnone or a do.
pub fn bare_token(number: u16, role: u16, predicate: u16, out: &mut [u16], at: usize) -> usize
    requires { at + atom_size ≤ length out.old }
    ensures puts { Puts out.old at (atom_words number (token role predicate [])) out.new result }
    ensures value { result ≡ at + atom_size }
{
    let next = four(out, at, number, role, predicate, 0);
    four(out, next, 0, 0, 0, 0)
}

// The par of a parameter.
pub fn par_atom(here: PartPlace, role: u16, x: Parameter, out: &mut [u16], at: usize) -> usize
    requires x_lt_word_bits { x.0 < word_bits }
    requires par_lt_par_bound { here.par < par_bound }
    requires atom_size_in_bounds { at + atom_size ≤ length out.old }
    ensures puts { Puts out.old at (atom_words here.number (par_in here.own here.par role x.0))
        out.new result }
    ensures value { result ≡ at + atom_size }
{
    let next = four(out, at, here.number, role, here.par + x.0, 0);
    let renumbered = renumbered_in(here.own, x);
    four(out, next, renumbered.0, 0, 0, 0)
}

// The pars of the parameters in a set, ascending.
fn par_atoms(here: PartPlace, role: u16, which: u64, out: &mut [u16], at: usize) -> usize
    requires params_le_most_parameters { here.params ≤ most_parameters }
    requires par_lt_par_bound { here.par < par_bound }
    requires params_in_bounds { at + atom_size * here.params ≤ length out.old }
    ensures puts { Puts out.old at (par_words here role which) out.new result }
    ensures upper_bound { result ≤ at + atom_size * here.params }
{
    if which == 0 {
        return at;
    }
    let mut next = at;
    for x in 0..here.params {
        if sets::has(which, x) {
            next = par_atom(here, role, Parameter(x as u16), out, next);
        }
    }
    next
}

// All atoms of one role, of which the old ones begin at atom `first`: behind these its tokens, if it has any.
fn role_atoms(
    table: &[u16],
    here: PartPlace,
    role: u16,
    first: usize,
    tokens: Option<RoleTokens>,
    out: &mut [u16],
    at: usize,
) -> Reached
    requires role_begins { RoleBegins table.now here role first }
    requires params_le_most_parameters { here.params ≤ most_parameters }
    requires par_lt_par_bound { here.par < par_bound }
    requires params_in_bounds { at + atom_size * (here.to - here.from + 1 + here.params) ≤ length out.old }
    ensures puts { Puts out.old at (role_words table.now here role tokens)
        out.new result.next }
    ensures next_bound { result.next ≤ at + atom_size * (here.to - here.from + 1 + here.params) }
    ensures role_begins_2 { RoleBegins table.now here (role + 1) result.atom }
{
    let old = old_atoms(table, here, role, first, out, at);
    let Some(tokens) = tokens else {
        return old;
    };
    let behind = bare_token(here.number, role, tokens.bare, out, old.next);
    let next = par_atoms(here, role, tokens.which, out, behind);
    Reached {
        next,
        atom: old.atom,
    }
}

// All atoms of the part's schema. The only part of a schema has tokens among its preconditions alone.
pub fn part_atoms(
    table: &[u16],
    here: PartPlace,
    tokens: PartTokens,
    out: &mut [u16],
    at: usize,
) -> usize
    requires role_begins { RoleBegins table.now here precondition here.from }
    requires params_le_most_parameters { here.params ≤ most_parameters }
    requires par_lt_par_bound { here.par < par_bound }
    requires params_in_bounds { at + 3 * (atom_size * (here.to - here.from + 1 + here.params)) ≤ length out.old }
    ensures { Puts out.old at (part_words table.now here tokens) out.new result }
{
    let pars = tokens.pars;
    let several = !tokens.lone;
    let required = Some(RoleTokens {
        bare: tokens.required,
        which: pars.later,
    });
    let added = several.then_some(RoleTokens {
        bare: tokens.handed,
        which: pars.first,
    });
    let deleted = several.then_some(RoleTokens {
        bare: tokens.required,
        which: pars.last,
    });
    let pre = role_atoms(table, here, PRECONDITION, here.from, required, out, at);
    let add = role_atoms(table, here, ADDITION, pre.atom, added, out, pre.next);
    let del = role_atoms(table, here, DELETION, add.atom, deleted, out, add.next);
    del.next
}
