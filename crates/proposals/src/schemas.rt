// The parts proposed for each schema, before anything is written.
ghost use Rattle.std.specs.Prelude.{◌-◌, ◌≤◌, ◌≡◌, true, length};
ghost use Rattle.std.specs.Prelude.{None};
ghost use Rattle.words.specs.Lists.{put};
ghost use Rattle.task.specs.Limits.{most_atoms, most_schema_atoms};
ghost use Rattle.task.specs.Task.{Schema};
ghost use Rattle.task.specs.Table.{task_of, is_table};
ghost use Rattle.arcs.specs.Stretches.{IsPairStretch, IsStretch, pair_stretch_in, stretch_in};
ghost use Rattle.proposals.specs.Proposal.{count_of, proposed_parts, proposed_task, too_many};
ghost use Rattle.proposals.specs.Outcome.{scratch_words};
ghost use Rattle.proposals.specs.Scratch.{HaveParts, KeepsBehind, Named};

use crate::Parts;
use crate::merging::merge_all;
use crate::start::{number, put_arcs, put_parameters};
use arcs::ends::schema_ends;
use task::limits::{MOST_PARTS, SCHEMAS};
use words::runs::word;

// The parts of the schema whose atoms are atoms `from` to `to - 1` of the table, and whose pairs are pairs `pair` to
// `end - 1`. Hands back how many there are.
fn schema_parts(
    table: &[u16],
    width: usize,
    from: usize,
    to: usize,
    pair: usize,
    end: usize,
    parts: &mut Parts,
    scratch: &mut [u64],
) -> usize
    requires stretch { IsStretch table.now from to }
    requires pair_stretch { IsPairStretch table.now pair end }
    requires from_bound { to - from ≤ most_atoms }
    requires parts_len { length parts.old ≡ most_schema_atoms }
    requires scratch_words_in_bounds { scratch_words ≤ length scratch.old }
    ensures keeps_behind { KeepsBehind scratch.old scratch.new }
    ensures parts_after { (s : Schema) → Named s → s.pairs ≡ pair_stretch_in table.now pair end →
        s.atoms ≡ stretch_in table.now from to →
        (parts.new ≡ put parts.old from (proposed_parts width s)) ×
        (result ≡ count_of (proposed_parts width s)) }
{
    put_arcs(table, from, to, pair, end, scratch);
    put_parameters(table, from, to, scratch);
    number(parts, from, to);
    merge_all(width, from, to, parts, scratch)
}

// The parts of all schemas, up to the first that ends with more than 16.
pub fn all_parts(table: &[u16], width: usize, parts: &mut Parts, scratch: &mut [u64]) -> Option<u64>
    requires table_value { is_table table.now ≡ true }
    requires parts_len { length parts.old ≡ most_schema_atoms }
    requires scratch_words_in_bounds { scratch_words ≤ length scratch.old }
    ensures keeps_behind { KeepsBehind scratch.old scratch.new }
    ensures result_value { result ≡ too_many (proposed_task width (task_of table.now)) }
    ensures have_parts { result ≡ None →
        HaveParts width (task_of table.now) (length (task_of table.now).schemas)
        parts.new }
{
    let schemas = word(table, SCHEMAS);
    let mut from = 0;
    let mut pair = 0;
    for s in 0..schemas {
        let ends = schema_ends(table, s, from, pair);
        let count = schema_parts(
            table, width, from, ends.atoms, pair, ends.pairs, parts, scratch,
        );
        if MOST_PARTS < count {
            return Some(s as u64);
        }
        from = ends.atoms;
        pair = ends.pairs;
    }
    None
}
