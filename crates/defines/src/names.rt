// Names: numbers one behind another, each behind its mark, which has the space before it too. `x_size` gives the number
// of bytes that the digits of those numbers take.
ghost use Rattle.std.specs.Prelude.{◌≡◌, ◌++◌, ◌+◌, ◌-◌, ◌≤◌, length};
ghost use Rattle.words.specs.Lists.{up_to, up_from, concat_map};
ghost use Rattle.words.specs.Putting.{Puts};
ghost use Rattle.words.specs.Words.{words_at};
ghost use Rattle.task.specs.Limits.{most_objects, most_arity};
ghost use Rattle.text.specs.Lines.{digits};
ghost use Rattle.defines.specs.ByWords.{marked};

use text::put::{number_size, put_bytes, put_number};
use words::runs::word_at;

// " ?x0": the mark of a parameter; " o0": that of an object.
pub const PARAMETER: [u8; 3] = *b" ?x";

pub const OBJECT: [u8; 2] = *b" o";

// A name.
fn put_name(text: &mut [u8], at: usize, mark: &[u8], n: u16) -> usize
    requires { at + length (mark.now ++ digits n) ≤ length text.old }
    ensures { Puts text.old at (mark.now ++ digits n) text.new result }
{
    let at_number = put_bytes(text, at, mark);
    put_number(text, at_number, n)
}

// The names of the numbers from one to another.
pub fn put_numbered(text: &mut [u8], at: usize, mark: &[u8], from: u16, to: u16) -> usize
    requires { at + length (marked mark.now (up_from from (to - from))) ≤ length text.old }
    ensures { Puts text.old at (marked mark.now (up_from from (to - from)))
        text.new result }
{
    let mut next = at;
    for n in from..to {
        next = put_name(text, next, mark, n);
    }
    next
}

// The names of n words of a table.
pub fn put_words(
    text: &mut [u8],
    at: usize,
    mark: &[u8],
    table: &[u16],
    from: usize,
    n: usize,
) -> usize
    requires n_in_bounds { from + n ≤ length table.now }
    requires n_in_bounds_2 { at + length (marked mark.now (words_at table.now from n)) ≤ length text.old }
    ensures { Puts text.old at (marked mark.now (words_at table.now from n))
        text.new result }
{
    let mut next = at;
    for k in 0..n {
        next = put_name(text, next, mark, word_at(table, from + k));
    }
    next
}

// The digits of the numbers below n: each has one, those from 10 on another, and those from 100 on a third.
pub fn below_size(n: usize) -> usize
    requires { n ≤ most_objects }
    ensures { result ≡ length (concat_map digits (up_to n)) }
{
    n + n.saturating_sub(10) + n.saturating_sub(100)
}

// The digits of n words of a table.
pub fn words_size(table: &[u16], from: usize, n: usize) -> usize
    requires n_in_bounds { from + n ≤ length table.now }
    requires n_le_most_arity { n ≤ most_arity }
    ensures { result ≡ length (concat_map digits (words_at table.now from n)) }
{
    (0..n).map(|k| number_size(word_at(table, from + k))).sum()
}
