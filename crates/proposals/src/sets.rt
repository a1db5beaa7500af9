// Sets of numbers by a test.
ghost use Rattle.std.specs.Prelude.{ℕ, ◌<◌, ◌≡◌, true};
ghost use Rattle.words.specs.Sets.{member, set_bits};

use words::sets::{lowest, with, without_lowest};

// The numbers of a set that pass a test. It is made of each once, the lowest first.
pub fn those<F: Fn(usize) -> bool>(set: u64, passes: F) -> u64
    requires { (p : ℕ) → p < set_bits → member set p ≡ true → F.pre passes p }
    ensures within { (p : ℕ) → member result p ≡ true → member set p ≡ true }
    ensures tested { (p : ℕ) → member set p ≡ true → F.post passes p (member result p) }
{
    let mut kept = 0;
    let mut rest = set;
    while rest != 0 {
        let p = lowest(rest);
        rest = without_lowest(rest);
        if passes(p) {
            kept = with(kept, p);
        }
    }
    kept
}
