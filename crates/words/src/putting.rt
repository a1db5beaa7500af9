// Words put into a lent buffer one after another: each function is handed the place of its first word, and hands back
// the place behind its last.
ghost use Rattle.std.specs.Prelude.{◌+◌, ◌≤◌, [], ◌∷◌, length, replicate};
ghost use Rattle.words.specs.Words.{words_at};
ghost use Rattle.words.specs.Putting.{Puts};

// `count` words of a table, from a place on. One by one: the library's copy has a C host bring `memmove`.
pub fn copy(table: &[u16], from: usize, count: usize, out: &mut [u16], at: usize) -> usize
    requires count_in_bounds { from + count ≤ length table.now }
    requires count_in_bounds_2 { at + count ≤ length out.old }
    ensures { Puts out.old at (words_at table.now from count) out.new result }
{
    for k in 0..count {
        out[at + k] = table[from + k];
    }
    at + count
}

// `count` times the same word.
pub fn fill(out: &mut [u16], at: usize, count: usize, word: u16) -> usize
    requires { at + count ≤ length out.old }
    ensures { Puts out.old at (replicate count word) out.new result }
{
    out[at..at + count].fill(word);
    at + count
}

// Four words.
pub fn four(out: &mut [u16], at: usize, a: u16, b: u16, c: u16, d: u16) -> usize
    requires { at + 4 ≤ length out.old }
    ensures { Puts out.old at (a ∷ b ∷ c ∷ d ∷ []) out.new result }
{
    out[at] = a;
    out[at + 1] = b;
    out[at + 2] = c;
    out[at + 3] = d;
    at + 4
}
