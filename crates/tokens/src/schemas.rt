// The schemas of the split, part by part: their parameter counts, and their atoms.
ghost use Rattle.std.specs.Prelude.{ℕ, ◌+◌, ◌*◌, ◌≤◌, ◌<◌, ◌≡◌, cond, length, eqb};
ghost use Rattle.words.specs.Lists.{concat_map, up_to};
ghost use Rattle.task.specs.Table.{task_of, atom_words, schemas_from};
ghost use Rattle.tokens.specs.Split.{orders, split_schema, split_task};
ghost use Rattle.words.specs.Putting.{Puts};
ghost use Rattle.task.specs.Limits.{most_parts, most_schemas};
ghost use Rattle.words.specs.Words.{word_bound};
ghost use Rattle.tokens.specs.Kept.{kept_first, kept_count};
ghost use Rattle.tokens.specs.Acceptance.{AcceptedKept, part_schemas, AcceptedParts};
ghost use Rattle.tokens.specs.Writing.{PlaceOf, TokensOf, most_part_words, set_sizes};

use crate::kept::{Kept, count_of, end_of, first_of, own_at, part_at, start_of};
use crate::measure::Sizes;
use crate::pars::pars_at;
use crate::part_atoms::{PartPlace, PartTokens, part_atoms};
use task::layout::params_of;
use task::limits::{PREDICATES, SCHEMAS};
use words::runs::word;
use words::sets;

// The parameter counts of a schema's parts.
fn part_params(kept: &Kept, s: usize, out: &mut [u16], at: usize) -> usize
    requires s_lt_most_schemas { s < most_schemas }
    requires s_bound { kept_count kept.now s ≤ most_parts }
    requires s_in_bounds { at + kept_count kept.now s ≤ length out.old }
    ensures { Puts out.old at (set_sizes kept.now s) out.new result }
{
    let count = count_of(kept, s);
    for j in 0..count {
        out[at + j] = sets::size(own_at(kept, s, j)) as u16;
    }
    at + count
}

// Those of all parts.
pub fn all_params(kept: &Kept, schemas: usize, out: &mut [u16], at: usize) -> usize
    requires schemas_le_most_schemas { schemas ≤ most_schemas }
    requires by_index { (s : ℕ) → s < schemas → kept_count kept.now s ≤ most_parts }
    requires schemas_in_bounds { at + most_parts * schemas ≤ length out.old }
    ensures { Puts out.old at (concat_map (set_sizes kept.now) (up_to schemas))
        out.new result }
{
    let mut next = at;
    for s in 0..schemas {
        next = part_params(kept, s, out, next);
    }
    next
}

// The token that stands before position j of a schema's order: procnone before the first and behind the last.
fn token_at(procnone: usize, before: usize, count: usize, j: usize) -> u16
    requires count_bound { procnone + before + count < word_bound }
    requires j_le_count { j ≤ count }
    ensures { result ≡ cond (eqb j 0) procnone (cond (eqb j count) procnone (procnone + before + j)) }
{
    if j == 0 || j == count {
        return procnone as u16;
    }
    (procnone + before + j) as u16
}

// The place of the part of schema s at position j.
pub fn place_of(table: &[u16], kept: &Kept, sizes: Sizes, s: usize, j: usize) -> PartPlace
    requires accepted_kept { AcceptedKept table.now sizes kept.now }
    requires s_in_bounds { s < length (task_of table.now).schemas }
    requires j_in_bounds { j < length (orders (task_of table.now) s) }
    ensures place_of { PlaceOf table.now s j result }
    ensures number_value { result.number ≡ kept_first kept.now s + j }
{
    let procnone = word(table, PREDICATES);
    PartPlace {
        from: start_of(kept, s),
        to: end_of(kept, s),
        part: part_at(kept, s, j),
        own: own_at(kept, s, j),
        params: params_of(table, s),
        number: (first_of(kept, s) + j) as u16,
        par: (procnone + sizes.later + 1) as u16,
    }
}

// The tokens of that part. The schemas before have as many later parts as they have parts less one each.
pub fn tokens_of(table: &[u16], kept: &Kept, s: usize, j: usize) -> PartTokens
    requires accepted_parts { AcceptedParts table.now kept.now }
    requires s_in_bounds { s < length (task_of table.now).schemas }
    requires j_in_bounds { j < length (orders (task_of table.now) s) }
    ensures { TokensOf (task_of table.now) s j result }
{
    let procnone = word(table, PREDICATES);
    let before = first_of(kept, s) - s;
    let count = count_of(kept, s);
    let pars = pars_at(kept, s, j);
    PartTokens {
        lone: count == 1,
        required: token_at(procnone, before, count, j),
        handed: token_at(procnone, before, count, j + 1),
        pars,
    }
}

// The atoms of that part.
fn one_part(
    table: &[u16],
    kept: &Kept,
    sizes: Sizes,
    s: usize,
    j: usize,
    out: &mut [u16],
    at: usize,
) -> usize
    requires accepted_kept { AcceptedKept table.now sizes kept.now }
    requires s_in_bounds { s < length (task_of table.now).schemas }
    requires j_in_bounds { j < length (orders (task_of table.now) s) }
    requires most_part_words_in_bounds { at + most_part_words ≤ length out.old }
    ensures { Puts out.old at
        (concat_map (atom_words (kept_first kept.now s + j))
        (split_schema (task_of table.now) s (orders (task_of table.now) s) j).atoms)
        out.new result }
{
    let here = place_of(table, kept, sizes, s, j);
    let tokens = tokens_of(table, kept, s, j);
    part_atoms(table, here, tokens, out, at)
}

// The atoms of all parts of schema s.
fn schema_parts(
    table: &[u16],
    kept: &Kept,
    sizes: Sizes,
    s: usize,
    out: &mut [u16],
    at: usize,
) -> usize
    requires accepted_kept { AcceptedKept table.now sizes kept.now }
    requires s_in_bounds { s < length (task_of table.now).schemas }
    requires most_part_words_in_bounds { at + length (schemas_from (kept_first kept.now s) (part_schemas (task_of table.now) s)) +
        most_part_words ≤ length out.old }
    ensures { Puts out.old at
        (schemas_from (kept_first kept.now s) (part_schemas (task_of table.now) s))
        out.new result }
{
    let mut next = at;
    for j in 0..count_of(kept, s) {
        next = one_part(table, kept, sizes, s, j, out, next);
    }
    next
}

// The atoms of all schemas of the split.
pub fn all_parts(table: &[u16], kept: &Kept, sizes: Sizes, out: &mut [u16], at: usize) -> usize
    requires accepted_kept { AcceptedKept table.now sizes kept.now }
    requires most_part_words_in_bounds { at + length (schemas_from 0 (split_task (task_of table.now)).schemas) + most_part_words ≤
        length out.old }
    ensures { Puts out.old at (schemas_from 0 (split_task (task_of table.now)).schemas)
        out.new result }
{
    let mut next = at;
    for s in 0..word(table, SCHEMAS) {
        next = schema_parts(table, kept, sizes, s, out, next);
    }
    next
}
