// "all atoms in file order, 8 words each: schema, role .., predicate, part, four arguments": rows of the table that is
// being read, each tested and written by the place where it begins.
ghost use Rattle.std.specs.Prelude.{◌≡◌, true, ℕ, ◌+◌, ◌*◌, ◌≤◌, ◌<◌, length, get_or};
ghost use Rattle.words.specs.Lists.{all, any, up_to};
ghost use Rattle.task.specs.Table.{atom_words};
ghost use Rattle.text.specs.ReadCode.{Wrote, Fitting, RowIn, row_names, row_same, PartsPut, bare_atom};
ghost use Rattle.words.specs.Words.{word_bound};
ghost use Rattle.task.specs.Limits.{most_arity, head_words, atom_size};

use crate::checks::all_below;
use crate::storing::put_words;
use task::layout::{arity_of, predicate_at};
use task::limits::{ARGUMENTS, ATOM_SIZE, MOST_ARITY, PART, ROLE};
use words::runs::{has_word, same_words, wide};

// Refusal 5: "predicate unknown, wrong number of arguments, argument too high".
pub fn fits(
    table: &[u16],
    predicates: usize,
    bound: u16,
    predicate: u32,
    args: &[u32],
    count: usize,
) -> bool
    requires { head_words + predicates ≤ length table.now }
    ensures { Fitting table.now predicates bound predicate args.now count result }
{
    let p = predicate as usize;
    p < predicates
        && count <= args.len()
        && arity_of(table, p) == count
        && all_below(&args[..count], bound as u32)
}

// Argument k, and 0 where there is none.
fn argument(args: &[u32], k: usize) -> u32
    ensures { result ≡ get_or args.now k 0 }
{
    args.get(k).copied().unwrap_or(0)
}

// Puts an atom's row at a place, in part 0.
pub fn put_row(table: &mut [u16], at: usize, schema: u32, role: u32, predicate: u32, args: &[u32])
    requires atom_size_in_bounds { at + atom_size ≤ length table.old }
    requires schema_lt_word_bound { (schema < word_bound) × (role < word_bound) × (predicate < word_bound) ×
        (length args.now ≤ most_arity) }
    requires by_index { (k : ℕ) → k < length args.now → get_or args.now k 0 < word_bound }
    ensures { let a = bare_atom role predicate args.now in
        Wrote table.old at atom_size (λ k. get_or (atom_words schema a) k 0) table.new }
{
    let a = argument(args, 0);
    let b = argument(args, 1);
    let c = argument(args, 2);
    let d = argument(args, 3);
    put_words(table, at, &[schema, role, predicate, 0, a, b, c, d]);
}

// Whether a parameter stands in the atom of a row.
fn names(table: &[u16], row: usize, parameter: u16) -> bool
    requires { RowIn table.now row }
    ensures { result ≡ row_names table.now row parameter }
{
    let arity = arity_of(table, wide(predicate_at(table, row)));
    has_word(table, row + ARGUMENTS, arity, parameter)
}

// Whether a parameter stands in an atom of the n rows from a place on.
fn named(table: &[u16], first: usize, n: usize, parameter: u16) -> bool
    requires { (i : ℕ) → i < n → RowIn table.now (first + atom_size * i) }
    ensures { result ≡ any (λ i. row_names table.now (first + atom_size * i) parameter) (up_to n) }
{
    (0..n).any(|i| names(table, first + ATOM_SIZE * i, parameter))
}

// "every parameter stands in some atom".
pub fn all_named(table: &[u16], first: usize, n: usize, params: u16) -> bool
    requires { (i : ℕ) → i < n → RowIn table.now (first + atom_size * i) }
    ensures { let w = table.now in
        result ≡ all (λ x. any (λ i. row_names w (first + atom_size * i) x) (up_to n)) (up_to params) }
{
    (0..params).all(|x| named(table, first, n, x))
}

// Whether two rows have the same role, predicate and arguments.
fn same_atom(table: &[u16], a: usize, b: usize) -> bool
    requires { (a + atom_size ≤ length table.now) × (b + atom_size ≤ length table.now) }
    ensures { result ≡ row_same table.now a b }
{
    same_words(table, a + ROLE, b + ROLE, PART - ROLE)
        && same_words(table, a + ARGUMENTS, b + ARGUMENTS, MOST_ARITY)
}

// Refusal 6: "atom repeated", among the n rows from a place on.
pub fn repeated(table: &[u16], row: usize, first: usize, n: usize) -> bool
    requires { (row + atom_size ≤ length table.now) × (first + atom_size * n ≤ length table.now) }
    ensures { result ≡ any (λ i. row_same table.now row (first + atom_size * i)) (up_to n) }
{
    (0..n).any(|i| same_atom(table, row, first + ATOM_SIZE * i))
}

// "`part` (a part for each atom)": puts the parts into the n rows from a place on.
pub fn put_parts(table: &mut [u16], first: usize, parts: &[u32], n: usize)
    requires n_in_bounds { (first + atom_size * n ≤ length table.old) × (n ≤ length parts.now) }
    requires by_index { (k : ℕ) → k < n → get_or parts.now k 0 < word_bound }
    ensures { PartsPut table.old first n parts.now table.new }
{
    for (k, part) in parts[..n].iter().enumerate() {
        table[first + ATOM_SIZE * k + PART] = *part as u16;
    }
}
