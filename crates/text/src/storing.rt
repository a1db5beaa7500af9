// Runs of words of the table that is being read: written, cleared and moved down.
ghost use Rattle.std.specs.Prelude.{ℕ, ◌+◌, ◌≤◌, ◌<◌, length, get_or};
ghost use Rattle.words.specs.Words.{word_bound};
ghost use Rattle.text.specs.ReadCode.{Wrote};

// Puts words at a place.
pub fn put_words(table: &mut [u16], at: usize, words: &[u32])
    requires words_in_bounds { at + length words.now ≤ length table.old }
    requires by_index { (k : ℕ) → k < length words.now → get_or words.now k 0 < word_bound }
    ensures { Wrote table.old at (length words.now) (λ k. get_or words.now k 0) table.new }
{
    for k in 0..words.len() {
        table[at + k] = words[k] as u16;
    }
}

// "Zeros fill the rest".
pub fn clear(table: &mut [u16], at: usize, n: usize)
    requires { at + n ≤ length table.old }
    ensures { Wrote table.old at n (λ k. 0) table.new }
{
    table[at..at + n].fill(0);
}

// Moves n words down, from one place to another.
pub fn move_down(table: &mut [u16], from: usize, to: usize, n: usize)
    requires { (to ≤ from) × (from + n ≤ length table.old) }
    ensures { Wrote table.old to n (λ k. get_or table.old (from + k) 0)
        table.new }
{
    for k in 0..n {
        table[to + k] = table[from + k];
    }
}
