// The search for "the first such pair by lower and then higher part number".
ghost use Rattle.std.specs.Prelude.{ℕ, ◌≤◌, ◌<◌, ◌≡◌, true, false, ◌&&◌, List, length, leb, ltb};
ghost use Rattle.std.specs.Prelude.{IfSome, MatchOption};
ghost use Rattle.words.specs.Sets.{SetBelow, member, members, word_bits};
ghost use Rattle.task.specs.Limits.{most_atoms};
ghost use Rattle.task.specs.Task.{Schema};
ghost use Rattle.proposals.specs.Proposal.{first_pair, mergeable};
ghost use Rattle.proposals.specs.Outcome.{scratch_words};
ghost use Rattle.proposals.specs.Scratch.{InPlay, Named, pair_found, parameters_to};

use crate::circle::no_circle;
use crate::scratch::parameters_to;
use crate::sets::those;
use words::sets::{lowest, size, union, up_to, without_lowest};

// The parts that have at most that many parameters: a wider one can't be merged with any.
fn narrow_parts(scratch: &[u64], n: usize, width: usize) -> u64
    requires scratch_words_in_bounds { scratch_words ≤ length scratch.now }
    requires n_le_most_atoms { n ≤ most_atoms }
    ensures { (p : ℕ) → member result p ≡
        ltb p n && leb (length (members (parameters_to scratch.now p) word_bits)) width }
{
    those(up_to(n), |p| size(parameters_to(scratch, p)) <= width)
}

// Whether parts a and b "can be merged so that together they have at most that many parameters and some order still
// complies". No arc is looked at where they are too wide.
fn can_merge(scratch: &[u64], n: usize, width: usize, a: usize, b: usize) -> bool
    requires scratch_words_in_bounds { scratch_words ≤ length scratch.now }
    requires n_le_most_atoms { (n ≤ most_atoms) × (a < b) × (b < n) }
    ensures { (s : Schema) (ps : List ℕ) → Named s → InPlay s n ps scratch.now →
        result ≡ mergeable width s ps (record { lower = a; higher = b }) }
{
    if width < size(union(parameters_to(scratch, a), parameters_to(scratch, b))) {
        return false;
    }
    no_circle(scratch, n, a, b)
}

// The first of these parts behind a that it can be merged with, if there is one.
fn first_with(scratch: &[u64], n: usize, width: usize, a: usize, others: u64) -> Option<usize>
    requires scratch_words_in_bounds { scratch_words ≤ length scratch.now }
    requires n_le_most_atoms { n ≤ most_atoms }
    requires set_below { SetBelow n others }
    requires by_index { (b : ℕ) → member others b ≡ true → a < b }
    ensures behind { IfSome result (λ b. (a < b) × (b < n)) }
    ensures by_index_2 { (s : Schema) (ps : List ℕ) → Named s → InPlay s n ps scratch.now →
        MatchOption result
        ((c : ℕ) → member others c ≡ true → mergeable width s ps (record { lower = a; higher = c }) ≡ false)
        (λ b. (mergeable width s ps (record { lower = a; higher = b }) ≡ true) ×
        ((c : ℕ) → member others c ≡ true → c < b →
        mergeable width s ps (record { lower = a; higher = c }) ≡ false)) }
{
    let mut rest = others;
    while rest != 0 {
        let b = lowest(rest);
        if can_merge(scratch, n, width, a, b) {
            return Some(b);
        }
        rest = without_lowest(rest);
    }
    None
}

// "the first such pair by lower and then higher part number"
pub fn first_pair(scratch: &[u64], n: usize, width: usize) -> Option<(usize, usize)>
    requires scratch_words_in_bounds { scratch_words ≤ length scratch.now }
    requires n_le_most_atoms { n ≤ most_atoms }
    ensures in_order { IfSome result (λ p. (p.0 < p.1) × (p.1 < n)) }
    ensures result_value { (s : Schema) (ps : List ℕ) → Named s → InPlay s n ps scratch.now →
        pair_found result ≡ first_pair width s ps }
{
    let mut rest = narrow_parts(scratch, n, width);
    while rest != 0 {
        let a = lowest(rest);
        rest = without_lowest(rest);
        if let Some(b) = first_with(scratch, n, width, a, rest) {
            return Some((a, b));
        }
    }
    None
}
