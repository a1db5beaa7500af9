// How many bytes a line takes: its writer, run on no bytes.
ghost use Rattle.std.specs.Prelude.{◌≡◌, true, [], ◌∷◌, ◌++◌, ℕ, ◌+◌, ◌*◌, ◌^◌, ◌≤◌, ◌<◌, length};
ghost use Rattle.task.specs.Limits.{atom_size, most_arity};
ghost use Rattle.task.specs.Table.{is_table};
ghost use Rattle.text.specs.Lines.{comma, newline, digits, commaed};
ghost use Rattle.text.specs.TableLines.{spaced, row_text, facts_text};

use crate::counted::{write_ended, write_list_line, write_number_line, write_row};
use crate::writer::write_facts;

// A number of a list behind another, with the comma between them.
pub fn further_size(n: u16) -> usize
    ensures { result ≡ length (comma ∷ digits n) }
{
    let mut none = [0u8; 0];
    write_ended(&mut none, 0, n, b',')
}

pub fn number_line_size(key: &[u8], n: u16) -> usize
    requires { length (key.now ++ (digits n ++ (newline ∷ []))) < 2 ^ 64 }
    ensures { result ≡ length (key.now ++ (digits n ++ (newline ∷ []))) }
{
    let mut none = [0u8; 0];
    write_number_line(&mut none, 0, key, n)
}

pub fn list_line_size(key: &[u8], words: &[u16], from: usize, step: usize, n: usize) -> usize
    requires by_index { (k : ℕ) → k < n → from + step * k < length words.now }
    requires newline_len_bound { length (key.now ++ (commaed (spaced words.now from step n) ++ (newline ∷ []))) < 2 ^ 64 }
    ensures { result ≡
        length (key.now ++ (commaed (spaced words.now from step n) ++ (newline ∷ []))) }
{
    let mut none = [0u8; 0];
    write_list_line(&mut none, 0, key, words, from, step, n)
}

// The line of the atom whose words begin at `base`, with so many arguments.
pub fn row_size(words: &[u16], base: usize, arity: usize) -> usize
    requires { (base + atom_size ≤ length words.now) × (arity ≤ most_arity) }
    ensures { result ≡ length (row_text words.now base arity) }
{
    let mut none = [0u8; 0];
    write_row(&mut none, 0, words, base, arity)
}

// The lines of a table's initial and goal atoms.
pub fn facts_size(table: &[u16]) -> usize
    requires { is_table table.now ≡ true }
    ensures { result ≡ length (facts_text table.now) }
{
    let mut none = [0u8; 0];
    write_facts(&mut none, 0, table)
}
