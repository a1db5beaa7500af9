// The next part of the order.
ghost use Rattle.std.specs.Prelude.{ℕ, ◌≤◌, ◌<◌, ◌≡◌, ◌&&◌, List};
ghost use Rattle.task.specs.Limits.{most_parts};
ghost use Rattle.task.specs.Task.{Atom, Pair};
ghost use Rattle.arcs.specs.Order.{new_parameters, placed_parts, ready, ahead, better, next_part};
ghost use Rattle.arcs.specs.Stretches.{AreArcs, AreTests, ChosenBelow, IsBound, chosen};
ghost use Rattle.words.specs.Sets.{SetBelow, member, members};

use crate::{ParameterSets, PartCounts, PartSets};
use task::Part;
use words::sets;

// "unplaced parts that no unplaced part has an arc to"
fn is_ready(before: &PartSets, unplaced: u64, p: usize) -> bool
    requires { p < most_parts }
    ensures { (pairs : List Pair) (atoms : List Atom) (n : ℕ) → AreArcs pairs atoms before.now →
        SetBelow n unplaced → result ≡ member unplaced p && ready pairs atoms (members unplaced n) p }
{
    sets::has(unplaced, p) && !sets::meet(before[p], unplaced)
}

// How many "parameters not in a part already placed" the preconditions of part p name.
fn new_parameters(tested: &ParameterSets, bound: u64, p: usize) -> usize
    requires { p < most_parts }
    ensures { (atoms : List Atom) (counts placed : List ℕ) →
        AreTests atoms counts tested.now → IsBound atoms placed bound →
        result ≡ new_parameters atoms placed p }
{
    sets::size(sets::minus(sets::held(tested[p]), bound))
}

// "the one with most preconditions"; among "equally many", "the one whose preconditions name more parameters not in a
// part already placed": whether part q is ahead of part p by these.
fn is_ahead(counts: &PartCounts, tested: &ParameterSets, bound: u64, q: usize, p: usize) -> bool
    requires { (q < most_parts) × (p < most_parts) }
    ensures { (atoms : List Atom) (placed : List ℕ) →
        AreTests atoms counts.now tested.now → IsBound atoms placed bound →
        result ≡ ahead atoms placed q p }
{
    if counts[p] != counts[q] {
        return counts[p] < counts[q];
    }
    new_parameters(tested, bound, p) < new_parameters(tested, bound, q)
}

// "only then the lowest number": part p against what was found of higher numbers.
fn better_of(
    counts: &PartCounts,
    tested: &ParameterSets,
    bound: u64,
    p: usize,
    found: Option<Part>,
) -> Option<Part>
    requires p_lt_most_parts { p < most_parts }
    requires chosen_below { ChosenBelow most_parts found }
    ensures result_value { (atoms : List Atom) (placed : List ℕ) →
        AreTests atoms counts.now tested.now → IsBound atoms placed bound →
        chosen result ≡ better atoms placed p (chosen found) }
    ensures by_index { (n : ℕ) → p < n → ChosenBelow n found → ChosenBelow n result }
{
    match found {
        Some(part) if is_ahead(counts, tested, bound, usize::from(part.0), p) => found,
        _ => Some(Part(p as u16)),
    }
}

// The choice among the parts that are ready, tried from the highest number down; none where no part is, as the parts
// left stand in a circle. `bound` has the parameters of the parts already placed.
pub fn choose(
    before: &PartSets,
    counts: &PartCounts,
    tested: &ParameterSets,
    bound: u64,
    unplaced: u64,
    count: usize,
) -> Option<Part>
    requires count_le_most_parts { count ≤ most_parts }
    requires set_below { SetBelow count unplaced }
    ensures result_value { (pairs : List Pair) (atoms : List Atom) → AreArcs pairs atoms before.now →
        AreTests atoms counts.now tested.now →
        IsBound atoms (placed_parts atoms (members unplaced count)) bound →
        chosen result ≡ next_part pairs atoms (members unplaced count) }
    ensures chosen_below { ChosenBelow count result }
{
    let mut found = None;
    for p in (0..count).rev() {
        if is_ready(before, unplaced, p) {
            found = better_of(counts, tested, bound, p, found);
        }
    }
    found
}
