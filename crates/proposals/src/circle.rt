// The test for a circle: whether some order complies with the arcs once two parts are merged. Nothing is merged for it:
// each of the two has the arcs of both instead, so that they are free together.
ghost use Rattle.std.specs.Prelude.{ℕ, ◌-◌, ◌≤◌, ◌<◌, ◌≡◌, ◌&&◌, length};
ghost use Rattle.words.specs.Sets.{member};
ghost use Rattle.task.specs.Limits.{most_atoms};
ghost use Rattle.proposals.specs.Circle.{merged_arcs, no_circle};
ghost use Rattle.proposals.specs.Outcome.{scratch_words};
ghost use Rattle.proposals.specs.Scratch.{ArcsOfBoth, NoOwn, arcs_in, is_free, shared_in};

use crate::scratch::arcs_to;
use crate::sets::those;
use words::sets::{lowest, meet, minus, union, up_to, without, without_lowest};

// The parts that a or b has an arc from, but for the two.
pub fn arcs_to_both(scratch: &[u64], a: usize, b: usize) -> u64
    requires scratch_words_in_bounds { scratch_words ≤ length scratch.now }
    requires a_lt_most_atoms { (a < most_atoms) × (b < most_atoms) }
    ensures { ArcsOfBoth a b (arcs_in scratch.now) result }
{
    let both = union(arcs_to(scratch, a), arcs_to(scratch, b));
    without(without(both, a), b)
}

// "parts that no unplaced part has an arc to"; a and b are free together, by the parts that either has an arc from.
fn free_parts(scratch: &[u64], a: usize, b: usize, joined: u64, unplaced: u64) -> u64
    requires scratch_words_in_bounds { scratch_words ≤ length scratch.now }
    requires a_lt_most_atoms { (a < most_atoms) × (b < most_atoms) }
    ensures { (p : ℕ) →
        member result p ≡ member unplaced p && is_free (shared_in a b joined scratch.now) unplaced p }
{
    let others = without(without(unplaced, a), b);
    let free = those(others, |p| !meet(arcs_to(scratch, p), unplaced));
    if meet(joined, unplaced) {
        return free;
    }
    union(free, minus(unplaced, others))
}

// Whether n parts have no circle of arcs once a and b are merged: "the next ready part is its lowest set bit in the set
// of free parts", and it is placed, until all are or none is free.
pub fn no_circle(scratch: &[u64], n: usize, a: usize, b: usize) -> bool
    requires scratch_words_in_bounds { scratch_words ≤ length scratch.now }
    requires n_le_most_atoms { (n ≤ most_atoms) × (a < b) × (b < n) }
    ensures { NoOwn n (arcs_in scratch.now) →
        result ≡ no_circle (merged_arcs a b (arcs_in scratch.now)) (n - 1) }
{
    let joined = arcs_to_both(scratch, a, b);
    let mut unplaced = up_to(n);
    let mut free = free_parts(scratch, a, b, joined, unplaced);
    while free != 0 {
        let p = lowest(free);
        unplaced = without(unplaced, p);
        free = without_lowest(free);
        if free == 0 {
            free = free_parts(scratch, a, b, joined, unplaced);
        }
    }
    unplaced == 0
}
