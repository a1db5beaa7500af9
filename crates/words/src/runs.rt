// Words in a row: one as a number, runs of them tested and compared.
ghost use Rattle.std.specs.Prelude.{◌≡◌, ◌+◌, ◌-◌, ◌*◌, ◌<◌, ◌≤◌, length, get_or, eqb, ltb};
ghost use Rattle.words.specs.Lists.{all, any, eq_list, less_list};
ghost use Rattle.words.specs.Words.{word_bound, words_at, zeros_at};

// A word as a number.
pub fn wide(word: u16) -> usize
    ensures { result ≡ word }
{
    usize::from(word)
}

// The word at an index.
pub fn word_at(table: &[u16], i: usize) -> u16
    requires { i < length table.now }
    ensures { result ≡ get_or table.now i 0 }
{
    table[i]
}

// The word at an index, as a number.
pub fn word(table: &[u16], i: usize) -> usize
    requires { i < length table.now }
    ensures value { result ≡ get_or table.now i 0 }
    ensures upper_bound { result < word_bound }
{
    usize::from(table[i])
}

// Whether the words from an index to another are all 0. All are joined before one is tested, so that the machine can
// take several at once.
pub fn zeros(table: &[u16], from: usize, to: usize) -> bool
    requires { to ≤ length table.now }
    ensures { result ≡ zeros_at table.now from (to - from) }
{
    let mut joined = 0;
    for i in from..to {
        joined |= table[i];
    }
    joined == 0
}

// Whether the words of four stretches, one behind another, are all 0. They are joined side by side, so that the machine
// fetches from four places at once.
fn quarters_zero(table: &[u16], from: usize, quarter: usize) -> bool
    requires { from + 4 * quarter ≤ length table.now }
    ensures { result ≡ zeros_at table.now from (4 * quarter) }
{
    let second = from + quarter;
    let third = second + quarter;
    let fourth = third + quarter;
    let mut joined = 0;
    for k in 0..quarter {
        let front = word_at(table, from + k) | word_at(table, second + k);
        joined |= front | word_at(table, third + k) | word_at(table, fourth + k);
    }
    joined == 0
}

// Whether many words from an index to another are all 0: a quarter beside the others, then the few that are left.
pub fn many_zeros(table: &[u16], from: usize, to: usize) -> bool
    requires { (from ≤ to) × (to ≤ length table.now) }
    ensures { result ≡ zeros_at table.now from (to - from) }
{
    let quarter = (to - from) / 4;
    if !quarters_zero(table, from, quarter) {
        return false;
    }
    zeros(table, from + 4 * quarter, to)
}

// Whether the words from an index to another are all below a bound.
pub fn all_below(table: &[u16], from: usize, to: usize, bound: usize) -> bool
    requires { to ≤ length table.now }
    ensures { result ≡ all (λ a. ltb a bound) (words_at table.now from (to - from)) }
{
    (from..to).all(|i| word(table, i) < bound)
}

// Whether n words at one place equal those at another. The runs are short, and often differ at their first word, where
// this stops; the library compares two slices in groups.
pub fn same_words(table: &[u16], left: usize, right: usize, n: usize) -> bool
    requires n_in_bounds { left + n ≤ length table.now }
    requires n_in_bounds_2 { right + n ≤ length table.now }
    ensures { result ≡ eq_list (words_at table.now left n) (words_at table.now right n) }
{
    (0..n).all(|k| word(table, left + k) == word(table, right + k))
}

// Whether n words at one place come before those at another: the first words that differ decide.
pub fn less_words(table: &[u16], left: usize, right: usize, n: usize) -> bool
    requires n_in_bounds { left + n ≤ length table.now }
    requires n_in_bounds_2 { right + n ≤ length table.now }
    ensures { result ≡ less_list (words_at table.now left n) (words_at table.now right n) }
{
    for k in 0..n {
        let x = word(table, left + k);
        let y = word(table, right + k);
        if x != y {
            return x < y;
        }
    }
    false
}

// Whether a word stands among n words.
pub fn has_word(table: &[u16], at: usize, n: usize, word: u16) -> bool
    requires { at + n ≤ length table.now }
    ensures { result ≡ any (λ y. eqb word y) (words_at table.now at n) }
{
    table[at..at + n].contains(&word)
}
