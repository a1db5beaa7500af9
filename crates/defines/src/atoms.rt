// The atoms of a table, each in its bracket behind a space. They are put in the table's order, run after run of one
// schema and role: each run begins where the one before it ended, and no end is looked for ahead.
ghost use Rattle.std.specs.Prelude.{◌≡◌, true, ℕ, ◌+◌, ◌≤◌, ◌<◌, length};
ghost use Rattle.words.specs.Putting.{Puts};
ghost use Rattle.task.specs.Layout.{atom_total};
ghost use Rattle.task.specs.Task.{deletion};
ghost use Rattle.task.specs.Table.{is_table};
ghost use Rattle.text.specs.TableLines.{AtomInside};
ghost use Rattle.defines.specs.ByWords.{formula_at, item_at, item_in, items_in, RoleRun};

use crate::names::{OBJECT, PARAMETER, put_words, words_size};
use crate::reached::Reached;
use task::layout::{arity_of, predicate_at, role_at, row_of};
use task::limits::{ARGUMENTS, DELETION, GOAL_ATOMS, INITIAL_ATOMS, SCHEMA_ATOMS};
use text::put::{number_size, put_byte, put_bytes, put_number};
use words::runs::{wide, word};

// The atom whose words begin at `base`.
fn put_atom(text: &mut [u8], at: usize, mark: &[u8], table: &[u16], base: usize) -> usize
    requires atom_inside { AtomInside table.now base }
    requires base_in_bounds { at + length (formula_at mark.now table.now base) ≤ length text.old }
    ensures { Puts text.old at (formula_at mark.now table.now base)
        text.new result }
{
    let predicate = predicate_at(table, base);
    let arity = arity_of(table, wide(predicate));
    let at_number = put_bytes(text, at, b" (p");
    let at_arguments = put_number(text, at_number, predicate);
    let at_end = put_words(text, at_arguments, mark, table, base + ARGUMENTS, arity);
    put_byte(text, at_end, b')')
}

// A delete stands in a `not`.
fn put_delete(text: &mut [u8], at: usize, table: &[u16], base: usize) -> usize
    requires atom_inside { AtomInside table.now base }
    requires base_in_bounds { at + length (item_at deletion table.now base) ≤ length text.old }
    ensures { Puts text.old at (item_at deletion table.now base) text.new result }
{
    let at_atom = put_bytes(text, at, b" (not");
    let at_end = put_atom(text, at_atom, &PARAMETER, table, base);
    put_byte(text, at_end, b')')
}

// An atom by its role: those of a schema are over parameters, the others over objects.
fn put_item(text: &mut [u8], at: usize, table: &[u16], base: usize, role: u16) -> usize
    requires atom_inside { AtomInside table.now base }
    requires base_in_bounds { at + length (item_at role table.now base) ≤ length text.old }
    ensures { Puts text.old at (item_at role table.now base) text.new result }
{
    if role < DELETION {
        return put_atom(text, at, &PARAMETER, table, base);
    }
    if role == DELETION {
        return put_delete(text, at, table, base);
    }
    put_atom(text, at, &OBJECT, table, base)
}

// How many atoms a table has.
fn atom_count(table: &[u16]) -> usize
    requires { is_table table.now ≡ true }
    ensures { result ≡ atom_total table.now }
{
    word(table, SCHEMA_ATOMS) + word(table, INITIAL_ATOMS) + word(table, GOAL_ATOMS)
}

// The atoms of a schema and a role, from the first of them on.
pub fn put_run(
    text: &mut [u8],
    at: usize,
    table: &[u16],
    schema: usize,
    role: u16,
    from: usize,
) -> Reached
    requires table_value { is_table table.now ≡ true }
    requires by_index { (to : ℕ) × RoleRun table.now schema role from to ×
        (at + length (items_in table.now from to) ≤ length text.old) }
    ensures { (to : ℕ) → RoleRun table.now schema role from to → (result.to ≡ to) ×
        Puts text.old at (items_in table.now from to) text.new result.at }
{
    let count = atom_count(table);
    let mut next = at;
    for atom in from..count {
        let row = row_of(table, atom);
        if word(table, row) != schema || role_at(table, row) != role {
            return Reached { at: next, to: atom };
        }
        next = put_item(text, next, table, row, role);
    }
    Reached {
        at: next,
        to: count,
    }
}

// The bytes that an atom takes, and that one takes by its role.
fn atom_size(mark: &[u8], table: &[u16], base: usize) -> usize
    requires atom_inside { AtomInside table.now base }
    requires mark_len_bound { length mark.now ≤ 3 }
    ensures { result ≡ length (formula_at mark.now table.now base) }
{
    let predicate = predicate_at(table, base);
    let arity = arity_of(table, wide(predicate));
    b" (p".len()
        + number_size(predicate)
        + mark.len() * arity
        + words_size(table, base + ARGUMENTS, arity)
        + 1
}

fn item_size(table: &[u16], i: usize) -> usize
    requires table_value { is_table table.now ≡ true }
    requires i_bound { i < atom_total table.now }
    ensures { result ≡ length (item_in table.now i) }
{
    let row = row_of(table, i);
    let role = role_at(table, row);
    if DELETION < role {
        return atom_size(&OBJECT, table, row);
    }
    let atom = atom_size(&PARAMETER, table, row);
    if role < DELETION {
        return atom;
    }
    b" (not".len() + atom + 1
}

// The bytes that all atoms take.
pub fn items_size(table: &[u16]) -> usize
    requires { is_table table.now ≡ true }
    ensures { result ≡ length (items_in table.now 0 (atom_total table.now)) }
{
    let count = atom_count(table);
    (0..count).map(|i| item_size(table, i)).sum()
}
