// The pairs of a table, each a precondition `(not (= ..))` behind a space, and what any pair requires of a planner.
// They are put in the table's order, schema by schema, as the atoms are.
ghost use Rattle.std.specs.Prelude.{◌≡◌, true, suc, ◌+◌, ◌≤◌, ◌<◌, length};
ghost use Rattle.words.specs.Putting.{Puts};
ghost use Rattle.task.specs.Layout.{head_in};
ghost use Rattle.task.specs.Table.{task_of, is_table};
ghost use Rattle.task.specs.Turns.{first_pair};
ghost use Rattle.defines.specs.ByWords.{apart_in, pairs_in, needs_in};

use crate::names::{PARAMETER, put_words, words_size};
use crate::reached::Reached;
use task::layout::{pair_number, pair_of};
use task::limits::{LOWER, PAIR_SIZE, PAIRS};
use text::put::put_bytes;
use words::runs::word;

// How many parameters a pair has.
const PARAMETERS: usize = PAIR_SIZE - LOWER;

const NEEDS: [u8; 58] = *b" (:requirements :strips :equality :negative-preconditions)";

// "with any pair `(:requirements ..)` before the predicates".
pub fn put_needs(text: &mut [u8], at: usize, table: &[u16]) -> usize
    requires table_value { is_table table.now ≡ true }
    requires table_in_bounds { at + length (needs_in (head_in table.now).pairs) ≤ length text.old }
    ensures { Puts text.old at (needs_in (head_in table.now).pairs)
        text.new result }
{
    if word(table, PAIRS) == 0 {
        return at;
    }
    put_bytes(text, at, &NEEDS)
}

pub fn needs_size(table: &[u16]) -> usize
    requires { is_table table.now ≡ true }
    ensures { result ≡ length (needs_in (head_in table.now).pairs) }
{
    if word(table, PAIRS) == 0 {
        return 0;
    }
    NEEDS.len()
}

// Pair i.
fn put_pair(text: &mut [u8], at: usize, table: &[u16], i: usize) -> usize
    requires table_value { is_table table.now ≡ true }
    requires i_bound { i < (head_in table.now).pairs }
    requires i_in_bounds { at + length (apart_in table.now i) ≤ length text.old }
    ensures { Puts text.old at (apart_in table.now i) text.new result }
{
    let row = pair_of(table, i);
    let at_first = put_bytes(text, at, b" (not (=");
    let at_end = put_words(text, at_first, &PARAMETER, table, row + LOWER, PARAMETERS);
    put_bytes(text, at_end, b"))")
}

// The pairs of a schema, from the first of them on.
pub fn put_pairs(text: &mut [u8], at: usize, table: &[u16], schema: usize, from: usize) -> Reached
    requires table_value { is_table table.now ≡ true }
    requires schema_bound { schema < (head_in table.now).schemas }
    requires from_value { from ≡ first_pair (task_of table.now) schema }
    requires schema_in_bounds { at + length (pairs_in table.now from (first_pair (task_of table.now) (suc schema))) ≤
        length text.old }
    ensures pair_value { result.to ≡ first_pair (task_of table.now) (suc schema) }
    ensures fact { let w = table.now in
        Puts text.old at (pairs_in w from (first_pair (task_of w) (suc schema))) text.new result.at }
{
    let count = word(table, PAIRS);
    let mut next = at;
    for pair in from..count {
        if pair_number(table, pair) != schema {
            return Reached { at: next, to: pair };
        }
        next = put_pair(text, next, table, pair);
    }
    Reached {
        at: next,
        to: count,
    }
}

// The bytes that a pair takes.
fn pair_size(table: &[u16], i: usize) -> usize
    requires table_value { is_table table.now ≡ true }
    requires i_bound { i < (head_in table.now).pairs }
    ensures { result ≡ length (apart_in table.now i) }
{
    let row = pair_of(table, i);
    b" (not (=".len()
        + PARAMETER.len() * PARAMETERS
        + words_size(table, row + LOWER, PARAMETERS)
        + b"))".len()
}

pub fn pairs_size(table: &[u16]) -> usize
    requires { is_table table.now ≡ true }
    ensures { result ≡ length (pairs_in table.now 0 (head_in table.now).pairs) }
{
    let count = word(table, PAIRS);
    (0..count).map(|i| pair_size(table, i)).sum()
}
