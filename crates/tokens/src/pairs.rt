// The pairs of parameters that must differ: which part carries each, and refusal 20, "when no part has both parameters
// of a pair".
ghost use Rattle.std.specs.Prelude.{◌+◌, ◌-◌, ◌≤◌, ◌<◌, ◌≡◌, true, not, length};
ghost use Rattle.words.specs.Lists.{any, filter, first, up_to};
ghost use Rattle.words.specs.Putting.{Puts};
ghost use Rattle.words.specs.Words.{word_bound};
ghost use Rattle.task.specs.Layout.{head_in};
ghost use Rattle.task.specs.Limits.{pair_size};
ghost use Rattle.task.specs.Run.{schema_at};
ghost use Rattle.task.specs.Table.{task_of, is_table, pair_in, pair_words, pairs_from};
ghost use Rattle.arcs.specs.Stretches.{IsPairStretch, pair_stretch_in};
ghost use Rattle.tokens.specs.Split.{has_both, pairs_kept, parts, split_task};
ghost use Rattle.tokens.specs.Kept.{kept_first, kept_count, PartsKept, SchemaKept};
ghost use Rattle.tokens.specs.Acceptance.{part_schemas, AcceptedParts};
ghost use Rattle.tokens.specs.Writing.{carries, renumbered_pair, carried_words};

use crate::kept::{Kept, count_of, first_of, own_at, pair_end_of, pair_of};
use crate::part_atoms::renumbered_in;
use task::Parameter;
use task::layout::{higher, lower};
use task::limits::{PAIR_SIZE, SCHEMAS};
use words::runs::word;
use words::sets::has;

// Whether a part with these parameters has both of pair i.
pub fn carries_pair(table: &[u16], own: u64, i: usize) -> bool
    requires table_value { is_table table.now ≡ true }
    requires i_bound { i < (head_in table.now).pairs }
    ensures { result ≡ carries own (pair_in table.now i) }
{
    has(own, lower(table, i)) && has(own, higher(table, i))
}

// Whether some part of schema s has both parameters of pair i, which is one of the schema's.
fn some_part_carries(table: &[u16], kept: &Kept, s: usize, i: usize) -> bool
    requires schema_kept { SchemaKept table.now s kept.now }
    requires i_bound { i < (head_in table.now).pairs }
    ensures { let w = table.now in
        let t = schema_at (task_of w) s in
        result ≡ any (has_both t (pair_in w i)) (up_to (parts t)) }
{
    (0..count_of(kept, s)).any(|j| carries_pair(table, own_at(kept, s, j), i))
}

// Whether each pair of schema s has a part that has both its parameters.
fn pairs_kept(table: &[u16], kept: &Kept, s: usize) -> bool
    requires { SchemaKept table.now s kept.now }
    ensures { result ≡ pairs_kept (schema_at (task_of table.now) s) }
{
    (pair_of(kept, s)..pair_end_of(kept, s)).all(|i| some_part_carries(table, kept, s, i))
}

// The lowest schema with a pair that no part has both parameters of, if there is one.
pub fn first_parted(table: &[u16], kept: &Kept) -> Option<u64>
    requires table_value { is_table table.now ≡ true }
    requires parts_kept { PartsKept (task_of table.now) (length (task_of table.now).schemas) kept.now }
    ensures { result ≡
        first (λ s. not (pairs_kept (schema_at (task_of table.now) s)))
        (up_to (length (task_of table.now).schemas)) }
{
    let schemas = word(table, SCHEMAS);
    (0..schemas)
        .find(|s| !pairs_kept(table, kept, *s))
        .map(|s| s as u64)
}

// How many of the pairs `from` to `to - 1` a part with these parameters carries.
pub fn carried(table: &[u16], own: u64, from: usize, to: usize) -> usize
    requires { IsPairStretch table.now from to }
    ensures value { result ≡ length (filter (carries own) (pair_stretch_in table.now from to)) }
    ensures upper_bound { result ≤ to - from }
{
    (from..to).filter(|i| carries_pair(table, own, *i)).count()
}

// Pair i, renumbered for a part with these parameters, under the part's number in the split.
pub fn put_pair(table: &[u16], own: u64, number: u16, i: usize, out: &mut [u16], at: usize) -> usize
    requires table_value { is_table table.now ≡ true }
    requires i_bound { i < (head_in table.now).pairs }
    requires pair_size_in_bounds { at + pair_size ≤ length out.old }
    ensures { Puts out.old at (pair_words number (renumbered_pair own (pair_in table.now i)))
        out.new result }
{
    let low = renumbered_in(own, Parameter(lower(table, i) as u16));
    let high = renumbered_in(own, Parameter(higher(table, i) as u16));
    out[at] = number;
    out[at + 1] = low.0;
    out[at + 2] = high.0;
    at + PAIR_SIZE
}

// "A part that has both parameters carries the line, renumbered": puts those of the pairs `from` to `to - 1` that a
// part with these parameters carries, under the part's number in the split.
fn put_carried(
    table: &[u16],
    own: u64,
    number: u16,
    from: usize,
    to: usize,
    out: &mut [u16],
    at: usize,
) -> usize
    requires pair_stretch { IsPairStretch table.now from to }
    requires to_in_bounds { at + length (carried_words table.now number own from to) ≤ length out.old }
    ensures { Puts out.old at (carried_words table.now number own from to)
        out.new result }
{
    let mut next = at;
    for i in from..to {
        if carries_pair(table, own, i) {
            next = put_pair(table, own, number, i, out, next);
        }
    }
    next
}

// The pairs of all parts of schema s; where it has none, as most have, no part is asked.
fn schema_pairs(table: &[u16], kept: &Kept, s: usize, out: &mut [u16], at: usize) -> usize
    requires schema_kept { SchemaKept table.now s kept.now }
    requires s_bound { kept_first kept.now s + kept_count kept.now s < word_bound }
    requires s_in_bounds { at + length (pairs_from (kept_first kept.now s) (part_schemas (task_of table.now) s)) ≤
        length out.old }
    ensures { Puts out.old at
        (pairs_from (kept_first kept.now s) (part_schemas (task_of table.now) s))
        out.new result }
{
    let from = pair_of(kept, s);
    let to = pair_end_of(kept, s);
    let first = first_of(kept, s);
    if from == to {
        return at;
    }
    let mut next = at;
    for j in 0..count_of(kept, s) {
        let own = own_at(kept, s, j);
        next = put_carried(table, own, (first + j) as u16, from, to, out, next);
    }
    next
}

// The pairs of all schemas of the split.
pub fn all_pairs(table: &[u16], kept: &Kept, out: &mut [u16], at: usize) -> usize
    requires accepted_parts { AcceptedParts table.now kept.now }
    requires table_in_bounds { at + length (pairs_from 0 (split_task (task_of table.now)).schemas) ≤ length out.old }
    ensures { Puts out.old at (pairs_from 0 (split_task (task_of table.now)).schemas)
        out.new result }
{
    let mut next = at;
    for s in 0..word(table, SCHEMAS) {
        next = schema_pairs(table, kept, s, out, next);
    }
    next
}
