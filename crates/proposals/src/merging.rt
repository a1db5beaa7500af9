// The merging of a schema's parts: "While some pair of parts can be merged .. merge the first such pair".
ghost use Rattle.std.specs.Prelude.{◌-◌, ◌≤◌, ◌<◌, ◌≡◌, length};
ghost use Rattle.words.specs.Lists.{put};
ghost use Rattle.words.specs.Words.{words_at};
ghost use Rattle.task.specs.Limits.{most_atoms, most_schema_atoms};
ghost use Rattle.task.specs.Task.{Schema};
ghost use Rattle.proposals.specs.Proposal.{count_of, merged, merged_number, merge_from};
ghost use Rattle.proposals.specs.Outcome.{scratch_words};
ghost use Rattle.proposals.specs.Scratch.{InPlay, KeepsBehind, Named};

use crate::Parts;
use crate::closing::{merge_arcs, merge_parameters};
use crate::search::first_pair;

// "the merged part takes the lower number and higher ones close up": what becomes of part p.
fn merged_number(a: usize, b: usize, p: u16) -> u16
    requires { (a < b) × (b < most_atoms) }
    ensures { result ≡ merged_number a b p }
{
    let part = p as usize;
    if part == b {
        return a as u16;
    }
    if b < part { p - 1 } else { p }
}

// The same in the part numbers of atoms `from` to `to - 1`.
fn renumber(parts: &mut Parts, from: usize, to: usize, a: usize, b: usize)
    requires from_le_to { (from ≤ to) × (to ≤ most_schema_atoms) }
    requires a_lt_b { (a < b) × (b < most_atoms) }
    requires parts_len { length parts.old ≡ most_schema_atoms }
    ensures { parts.new ≡
        put parts.old from (merged a b (words_at parts.old from (to - from))) }
{
    for i in from..to {
        parts[i] = merged_number(a, b, parts[i]);
    }
}

// The merging, from each atom in its own part on. Hands back how many parts are left.
pub fn merge_all(
    width: usize,
    from: usize,
    to: usize,
    parts: &mut Parts,
    scratch: &mut [u64],
) -> usize
    requires from_le_to { (from ≤ to) × (to ≤ most_schema_atoms) × (to - from ≤ most_atoms) }
    requires parts_len { length parts.old ≡ most_schema_atoms }
    requires scratch_words_in_bounds { scratch_words ≤ length scratch.old }
    ensures keeps_behind { KeepsBehind scratch.old scratch.new }
    ensures parts_len_2 { length parts.new ≡ most_schema_atoms }
    ensures parts_after { (s : Schema) → Named s →
        InPlay s (to - from) (words_at parts.old from (to - from)) scratch.old →
        (parts.new ≡ put parts.old from
        (merge_from width s (to - from) (words_at parts.old from (to - from)))) ×
        (result ≡ count_of (merge_from width s (to - from) (words_at parts.old from (to - from)))) }
{
    let mut n = to - from;
    loop {
        let Some((a, b)) = first_pair(scratch, n, width) else {
            return n;
        };
        renumber(parts, from, to, a, b);
        merge_parameters(scratch, n, a, b);
        merge_arcs(scratch, n, a, b);
        n -= 1;
    }
}
