// Bytes, numbers, lists and lines of them, written into a lent text where there is room for them, and counted always:
// each `write_x` gives the place behind what it writes. Run on no bytes it gives the size of what it would write.
ghost use Rattle.std.specs.Prelude.{[], ◌∷◌, ◌++◌, ℕ, ◌+◌, ◌*◌, ◌^◌, ◌≤◌, ◌<◌, length};
ghost use Rattle.words.specs.Words.{words_at};
ghost use Rattle.task.specs.Limits.{atom_size, most_arity};
ghost use Rattle.text.specs.Lines.{newline, digits, commaed, entry_bytes};
ghost use Rattle.text.specs.TableLines.{spaced, key_bytes, row_text};
ghost use Rattle.text.specs.Writes.{Writes};

use crate::put::{number_size, put_byte, put_bytes, put_digits};
use task::layout::{predicate_at, role_at};
use task::limits::{ADDITION, ARGUMENTS, DELETION, INITIAL, PRECONDITION};

pub fn write_byte(text: &mut [u8], at: usize, byte: u8) -> usize
    requires { at + 1 < 2 ^ 64 }
    ensures { Writes text.old at (byte ∷ []) text.new result }
{
    let end = at + 1;
    if end <= text.len() {
        put_byte(text, at, byte);
    }
    end
}

// A key and its =, or a whole line that never changes.
pub fn write_bytes(text: &mut [u8], at: usize, bytes: &[u8]) -> usize
    requires { at + length bytes.now < 2 ^ 64 }
    ensures { Writes text.old at bytes.now text.new result }
{
    let end = at + bytes.len();
    if end <= text.len() {
        put_bytes(text, at, bytes);
    }
    end
}

// A number and the byte behind it. Each has one, a comma, a colon or byte 10, so that one test of the room serves both.
pub fn write_ended(text: &mut [u8], at: usize, n: u16, byte: u8) -> usize
    requires { at + length (digits n ++ (byte ∷ [])) < 2 ^ 64 }
    ensures { Writes text.old at (digits n ++ (byte ∷ [])) text.new result }
{
    let last = at + number_size(n);
    let end = last + 1;
    if end <= text.len() {
        put_digits(text, last, n);
        put_byte(text, last, byte);
    }
    end
}

// "commas between", and byte 10 behind the last: the n words from `from` on, each `step` words behind the one before.
pub fn write_list(
    text: &mut [u8],
    at: usize,
    words: &[u16],
    from: usize,
    step: usize,
    n: usize,
) -> usize
    requires by_index { (k : ℕ) → k < n → from + step * k < length words.now }
    requires newline_bound { at + length (commaed (spaced words.now from step n) ++ (newline ∷ [])) < 2 ^ 64 }
    ensures { Writes text.old at
        (commaed (spaced words.now from step n) ++ (newline ∷ [])) text.new result }
{
    if n == 0 {
        return write_byte(text, at, b'\n');
    }
    let mut next = at;
    for k in 0..n - 1 {
        next = write_ended(text, next, words[from + step * k], b',');
    }
    write_ended(text, next, words[from + step * (n - 1)], b'\n')
}

// A line whose body is a number, and one whose body is a list.
pub fn write_number_line(text: &mut [u8], at: usize, key: &[u8], n: u16) -> usize
    requires { at + length (key.now ++ (digits n ++ (newline ∷ []))) < 2 ^ 64 }
    ensures { Writes text.old at
        (key.now ++ (digits n ++ (newline ∷ []))) text.new result }
{
    let at_body = write_bytes(text, at, key);
    write_ended(text, at_body, n, b'\n')
}

pub fn write_list_line(
    text: &mut [u8],
    at: usize,
    key: &[u8],
    words: &[u16],
    from: usize,
    step: usize,
    n: usize,
) -> usize
    requires by_index { (k : ℕ) → k < n → from + step * k < length words.now }
    requires newline_bound { at + length (key.now ++ (commaed (spaced words.now from step n) ++ (newline ∷ []))) < 2 ^ 64 }
    ensures { Writes text.old at
        (key.now ++ (commaed (spaced words.now from step n) ++ (newline ∷ [])))
        text.new result }
{
    let at_body = write_bytes(text, at, key);
    write_list(text, at_body, words, from, step, n)
}

// "An atom is predicate, colon, arguments", and a step "schema, colon, objects": the rest of its line behind the key,
// with the n words from `from` on.
pub fn write_entry(
    text: &mut [u8],
    at: usize,
    head: u16,
    words: &[u16],
    from: usize,
    n: usize,
) -> usize
    requires n_in_bounds { from + n ≤ length words.now }
    requires newline_bound { at + length (entry_bytes (record { head = head; list = words_at words.now from n }) ++
        (newline ∷ [])) < 2 ^ 64 }
    ensures { Writes text.old at
        (entry_bytes (record { head = head; list = words_at words.now from n }) ++ (newline ∷ []))
        text.new result }
{
    let at_list = write_ended(text, at, head, b':');
    write_list(text, at_list, words, from, 1, n)
}

// "role (0 precondition, 1 add, 2 delete, 3 initial, 4 goal)": the key of an atom's line, and its =.
pub fn write_key(text: &mut [u8], at: usize, role: u16) -> usize
    requires { at + length (key_bytes role) < 2 ^ 64 }
    ensures { Writes text.old at (key_bytes role) text.new result }
{
    match role {
        PRECONDITION => write_bytes(text, at, b"pre="),
        ADDITION => write_bytes(text, at, b"add="),
        DELETION => write_bytes(text, at, b"del="),
        INITIAL => write_bytes(text, at, b"init="),
        _ => write_bytes(text, at, b"goal="),
    }
}

// The line of the atom whose words begin at `base`, with so many arguments.
pub fn write_row(text: &mut [u8], at: usize, words: &[u16], base: usize, arity: usize) -> usize
    requires atom_size_in_bounds { (base + atom_size ≤ length words.now) × (arity ≤ most_arity) }
    requires arity_bound { at + length (row_text words.now base arity) < 2 ^ 64 }
    ensures { Writes text.old at (row_text words.now base arity) text.new result }
{
    let at_entry = write_key(text, at, role_at(words, base));
    write_entry(
        text,
        at_entry,
        predicate_at(words, base),
        words,
        base + ARGUMENTS,
        arity,
    )
}
