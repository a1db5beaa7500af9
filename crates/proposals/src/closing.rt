// The scratch after a merge: "the merged part takes the lower number and higher ones close up".
ghost use Rattle.std.specs.Prelude.{ℕ, ◌≤◌, ◌<◌, ◌≡◌, length};
ghost use Rattle.words.specs.Lists.{any};
ghost use Rattle.words.specs.Sets.{member};
ghost use Rattle.task.specs.Limits.{most_atoms};
ghost use Rattle.proposals.specs.Circle.{becoming, came_from};
ghost use Rattle.proposals.specs.Outcome.{scratch_words};
ghost use Rattle.proposals.specs.Scratch.{MergesArcs, MergesParameters};

use crate::circle::arcs_to_both;
use crate::scratch::{arcs_to, parameters_to};
use task::limits::MOST_ATOMS;
use words::sets::{closed_up, has, union, with};

// Where part q was before part b closed up.
fn came_from(b: usize, q: usize) -> usize
    requires { q < most_atoms }
    ensures { result ≡ came_from b q }
{
    if q < b { q } else { q + 1 }
}

// A set of parts, once a and b are merged.
fn merged_set(set: u64, a: usize, b: usize) -> u64
    requires { (a < b) × (b < most_atoms) }
    ensures { (p : ℕ) → member result p ≡ any (member set) (becoming a b p) }
{
    let mut joint = set;
    if has(set, b) {
        joint = with(set, a);
    }
    closed_up(joint, b)
}

// The arcs between n parts become those between the n - 1 that are left. What is read in a turn was never written in
// one before it.
pub fn merge_arcs(scratch: &mut [u64], n: usize, a: usize, b: usize)
    requires scratch_words_in_bounds { scratch_words ≤ length scratch.old }
    requires n_le_most_atoms { (n ≤ most_atoms) × (a < b) × (b < n) }
    ensures { MergesArcs a b n scratch.old scratch.new }
{
    scratch[a] = arcs_to_both(scratch, a, b);
    for q in 0..n - 1 {
        scratch[q] = merged_set(arcs_to(scratch, came_from(b, q)), a, b);
    }
}

// The same for their parameters: the merged part has those of both.
pub fn merge_parameters(scratch: &mut [u64], n: usize, a: usize, b: usize)
    requires scratch_words_in_bounds { scratch_words ≤ length scratch.old }
    requires n_le_most_atoms { (n ≤ most_atoms) × (a < b) × (b < n) }
    ensures { MergesParameters a b n scratch.old scratch.new }
{
    scratch[MOST_ATOMS + a] = union(parameters_to(scratch, a), parameters_to(scratch, b));
    for q in b..n - 1 {
        scratch[MOST_ATOMS + q] = parameters_to(scratch, q + 1);
    }
}
