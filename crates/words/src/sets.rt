// Sets of numbers below 64, a bit for each.
ghost use Rattle.std.specs.Prelude.{ℕ, suc, ◌-◌, ◌≤◌, ◌<◌, ◌≡◌, true, false, cond, not, ◌&&◌, ◌||◌, map, length, get_or, eqb, ltb};
ghost use Rattle.words.specs.Lists.{all, any, last_or, up_to};
ghost use Rattle.words.specs.Words.{words_at};
ghost use Rattle.words.specs.Sets.{Lowest, Loses, member, members, word_bits};

use crate::runs::word;

// The bits of a word of a table, and the set of them all.
const WORD_BITS: usize = 16;

const WORD_SET: u64 = 65535;

// Whether k is in the set.
pub fn has(set: u64, k: usize) -> bool
    requires { k < 64 }
    ensures { result ≡ member set k }
{
    (set >> k) & 1 == 1
}

// The numbers below n.
pub fn below(n: usize) -> u64
    requires { n < 64 }
    ensures { (k : ℕ) → member result k ≡ ltb k n }
{
    (1 << n) - 1
}

// The same where all numbers may be below n.
pub fn up_to(n: usize) -> u64
    requires { n ≤ 64 }
    ensures { (k : ℕ) → member result k ≡ ltb k n }
{
    if n == 64 {
        return u64::MAX;
    }
    below(n)
}

// The set with k in it.
pub fn with(set: u64, k: usize) -> u64
    requires { k < 64 }
    ensures { (j : ℕ) → member result j ≡ member set j || eqb k j }
{
    set | (1 << k)
}

// The set without k.
pub fn without(set: u64, k: usize) -> u64
    requires { k < 64 }
    ensures { Loses set k result }
{
    set & !(1 << k)
}

// The lowest number of a set that has one.
pub fn lowest(set: u64) -> usize
    requires { 0 < set }
    ensures { Lowest set result }
{
    u64::trailing_zeros(set) as usize
}

// The set without its lowest number, for which that need not be known.
pub fn without_lowest(set: u64) -> u64
    requires { 0 < set }
    ensures { (p : ℕ) → Lowest set p → Loses set p result }
{
    set & (set - 1)
}

// The set without k, in which the numbers above it close up.
pub fn closed_up(set: u64, k: usize) -> u64
    requires { k < 64 }
    ensures { (j : ℕ) → member result j ≡ cond (ltb j k) (member set j) (member set (suc j)) }
{
    let low = below(k);
    (set & low) | ((set >> 1) & !low)
}

// Whether two sets have a number in common.
pub fn meet(a: u64, b: u64) -> bool
    ensures { result ≡ any (λ k. member a k && member b k) (up_to 64) }
{
    a & b != 0
}

// The set that a word holds.
pub fn held(word: u16) -> u64
    ensures { result ≡ word }
{
    u64::from(word)
}

// The numbers in either set.
pub fn union(a: u64, b: u64) -> u64
    ensures { (k : ℕ) → member result k ≡ member a k || member b k }
{
    a | b
}

// The same of the sets that two words hold.
pub fn word_union(a: u16, b: u16) -> u16
    ensures { (k : ℕ) → member result k ≡ member a k || member b k }
{
    a | b
}

// The numbers in both sets.
pub fn common(a: u64, b: u64) -> u64
    ensures { (k : ℕ) → member result k ≡ member a k && member b k }
{
    a & b
}

// The numbers of one set that are not in another.
pub fn minus(a: u64, b: u64) -> u64
    ensures { (k : ℕ) → member result k ≡ member a k && not (member b k) }
{
    a & !b
}

// How many numbers that a word has bits for are in the set.
pub fn size(set: u64) -> usize
    ensures value { result ≡ length (members set word_bits) }
    ensures upper_bound { result ≤ word_bits }
{
    u64::count_ones(set & WORD_SET) as usize
}

// One more than the largest of them, or 0.
pub fn bound(set: u64) -> usize
    ensures value { result ≡ last_or (map suc (members set word_bits)) 0 }
    ensures upper_bound { result ≤ word_bits }
{
    let mut most = 0;
    for k in 0..WORD_BITS {
        if has(set, k) {
            most = k + 1;
        }
    }
    most
}

// Whether a set has no number from p on, so that a loop over its numbers can end there.
pub fn none_from(set: u64, p: usize) -> bool
    requires { p < 64 }
    ensures { result ≡ true → (k : ℕ) → p ≤ k → member set k ≡ false }
{
    set >> p == 0
}

// Whether a set has all numbers below n.
pub fn has_all(mask: u64, n: usize) -> bool
    requires { n ≤ 64 }
    ensures { result ≡ all (member mask) (up_to n) }
{
    (0..n).all(|x| has(mask, x))
}

// A set with the words from an index to another in it too.
pub fn joined_words(table: &[u16], mask: u64, from: usize, to: usize) -> u64
    requires to_in_bounds { to ≤ length table.now }
    requires by_index { (k : ℕ) → from ≤ k → k < to → get_or table.now k 0 < 64 }
    ensures { (x : ℕ) →
        member result x ≡ member mask x || any (λ y. eqb x y) (words_at table.now from (to - from)) }
{
    let mut set = mask;
    for i in from..to {
        set = with(set, word(table, i));
    }
    set
}
