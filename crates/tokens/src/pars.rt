// Which parameters of a part have their par added, required and deleted there, as sets of bits.
ghost use Rattle.std.specs.Prelude.{ℕ, ◌-◌, ◌≤◌, ◌<◌, ◌≡◌, List, length, ltb};
ghost use Rattle.words.specs.Lists.{any, up_from};
ghost use Rattle.task.specs.Task.{Task};
ghost use Rattle.task.specs.Run.{schema_at};
ghost use Rattle.words.specs.Sets.{member};
ghost use Rattle.tokens.specs.Split.{positions};
ghost use Rattle.tokens.specs.Acceptance.{ParsHere};
ghost use Rattle.task.specs.Limits.{most_parts, most_schemas};
ghost use Rattle.tokens.specs.Kept.{kept_count, kept_own, ParamsKept};

use crate::kept::{Kept, count_of, own_at};
use words::sets::{common, minus, union};

// The parameters of the part at a position; and of these, those that stand in a part before it,
// those that stand first here and again later, and those that stand here last and stood before.
#[derive(Clone, Copy, Debug, PartialEq, Eq)]
pub struct Pars {
    pub own: u64,
    pub later: u64,
    pub first: u64,
    pub last: u64,
}

// The parameters of the parts at positions `from` to `to - 1` of schema s.
fn parameters_between(kept: &Kept, s: usize, from: usize, to: usize) -> u64
    requires s_lt_most_schemas { s < most_schemas }
    requires from_le_to { (from ≤ to) × (to ≤ most_parts) }
    ensures { (x : ℕ) → member result x ≡
        any (λ j. member (kept_own kept.now s j) x) (up_from from (to - from)) }
{
    let mut all = 0;
    for j in from..to {
        all = union(all, own_at(kept, s, j));
    }
    all
}

// "a parameter in several parts has its par added in the first of them, required in each later one, deleted in the
// last": of the part at position j of schema s.
pub fn pars_at(kept: &Kept, s: usize, j: usize) -> Pars
    requires s_lt_most_schemas { s < most_schemas }
    requires j_bound { (j < kept_count kept.now s) × (kept_count kept.now s ≤ most_parts) }
    ensures { (t : Task) (o : List ℕ) → ParamsKept t s o kept.now → ParsHere t s o j result }
{
    let here = own_at(kept, s, j);
    let before = parameters_between(kept, s, 0, j);
    let after = parameters_between(kept, s, j + 1, count_of(kept, s));
    let later = common(here, before);
    Pars {
        own: here,
        later,
        first: common(minus(here, before), after),
        last: minus(later, after),
    }
}

// The parameters that are "found in two parts" of schema s.
pub fn shared_in(kept: &Kept, s: usize) -> u64
    requires s_lt_most_schemas { s < most_schemas }
    requires s_bound { kept_count kept.now s ≤ most_parts }
    ensures { (t : Task) (o : List ℕ) → ParamsKept t s o kept.now →
        (x : ℕ) → member result x ≡ ltb 1 (length (positions (schema_at t s) o x)) }
{
    let mut seen = 0;
    let mut twice = 0;
    for j in 0..count_of(kept, s) {
        let here = own_at(kept, s, j);
        twice = union(twice, common(seen, here));
        seen = union(seen, here);
    }
    twice
}
