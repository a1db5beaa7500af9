// Where the words of a table stand, and how each is read: no other module counts them. What is required is that the
// words are there, or `Roomy`, which the table test shows first of all and `is_table` gives.
ghost use Rattle.std.specs.Prelude.{◌≡◌, true, ℕ, ◌+◌, ◌*◌, ◌<◌, ◌≤◌, length, get_or};
ghost use Rattle.words.specs.Words.{word_bound};
ghost use Rattle.task.specs.Limits.{head_words, pair_size, atom_size, most_arity};
ghost use Rattle.task.specs.Layout.{head_in, atom_total, params_base, pairs_base, rows_base, facts_base, pair_base};
ghost use Rattle.task.specs.Layout.{arity_in, params_in, atom_base};
ghost use Rattle.task.specs.Table.{task_of, is_table, pair_number_in, pair_in, schema_number_in, atom_in};
ghost use Rattle.task.specs.Run.{param_count};
ghost use Rattle.task.specs.WordTests.{Roomy};

use crate::limits::{
    ARGUMENTS, ATOM_SIZE, HEAD_WORDS, HIGHER, LOWER, OBJECTS, PAIR_SIZE, PAIRS, PART, PREDICATE,
    PREDICATES, ROLE, SCHEMA_ATOMS, SCHEMAS,
};
use words::runs::{wide, word, word_at};

// How many objects, predicates and schemas a table's task has.
pub fn object_count(table: &[u16]) -> u16
    requires { is_table table.now ≡ true }
    ensures { result ≡ (task_of table.now).objects }
{
    table[OBJECTS]
}

pub fn predicate_count(table: &[u16]) -> u16
    requires { is_table table.now ≡ true }
    ensures { result ≡ length (task_of table.now).arities }
{
    table[PREDICATES]
}

pub fn schema_count(table: &[u16]) -> u16
    requires { is_table table.now ≡ true }
    ensures { result ≡ length (task_of table.now).schemas }
{
    table[SCHEMAS]
}

// How many parameters a schema of the task has.
pub fn param_count(table: &[u16], schema: u16) -> usize
    requires table_value { is_table table.now ≡ true }
    requires schema_in_bounds { schema < length (task_of table.now).schemas }
    ensures { result ≡ param_count (task_of table.now) schema }
{
    params_of(table, wide(schema))
}

// "P arities .., then each schema's parameter count": the arity of predicate p.
pub fn arity_of(table: &[u16], p: usize) -> usize
    requires { head_words + p < length table.now }
    ensures { result ≡ arity_in table.now p }
{
    word(table, HEAD_WORDS + p)
}

// The same where the arities are known to be few.
pub fn arity(table: &[u16], p: usize) -> usize
    requires roomy { Roomy table.now }
    requires p_bound { p < (head_in table.now).predicates }
    ensures value { result ≡ arity_in table.now p }
    ensures upper_bound { result ≤ most_arity }
{
    arity_of(table, p)
}

// Where the parameter counts begin.
fn params_base(table: &[u16]) -> usize
    requires { head_words ≤ length table.now }
    ensures value { result ≡ params_base table.now }
    ensures upper_bound { result < head_words + word_bound }
{
    HEAD_WORDS + word(table, PREDICATES)
}

// The parameter count of schema s.
pub fn params_of(table: &[u16], s: usize) -> usize
    requires { params_base table.now + s < length table.now }
    ensures value { result ≡ params_in table.now s }
    ensures upper_bound { result < word_bound }
{
    word(table, params_base(table) + s)
}

// "a block of three words per pair (schema, lower, higher), in file order, .. after the parameter counts": where the
// first pair begins, and the words of pair i.
pub fn pairs_base(table: &[u16]) -> usize
    requires { head_words ≤ length table.now }
    ensures value { result ≡ pairs_base table.now }
    ensures upper_bound { result < head_words + 2 * word_bound }
{
    params_base(table) + word(table, SCHEMAS)
}

pub fn pair_of(table: &[u16], i: usize) -> usize
    requires roomy { Roomy table.now }
    requires i_bound { i < (head_in table.now).pairs }
    ensures value { result ≡ pair_base table.now i }
    ensures pair_size_in_bounds { result + pair_size ≤ length table.now }
{
    pairs_base(table) + PAIR_SIZE * i
}

pub fn pair_number(table: &[u16], i: usize) -> usize
    requires roomy { Roomy table.now }
    requires i_bound { i < (head_in table.now).pairs }
    ensures { result ≡ pair_number_in table.now i }
{
    word(table, pair_of(table, i))
}

pub fn lower(table: &[u16], i: usize) -> usize
    requires roomy { Roomy table.now }
    requires i_bound { i < (head_in table.now).pairs }
    ensures { result ≡ (pair_in table.now i).lower }
{
    word(table, pair_of(table, i) + LOWER)
}

pub fn higher(table: &[u16], i: usize) -> usize
    requires roomy { Roomy table.now }
    requires i_bound { i < (head_in table.now).pairs }
    ensures { result ≡ (pair_in table.now i).higher }
{
    word(table, pair_of(table, i) + HIGHER)
}

// "all atoms in file order, 8 words each": where the first row begins, where that of atom i does, and where those of
// the initial and goal atoms do.
pub fn rows_base(table: &[u16]) -> usize
    requires { head_words ≤ length table.now }
    ensures value { result ≡ rows_base table.now }
    ensures upper_bound { result < head_words + 5 * word_bound }
{
    pairs_base(table) + PAIR_SIZE * word(table, PAIRS)
}

pub fn atom_base(table: &[u16], i: usize) -> usize
    requires head_words_in_bounds { head_words ≤ length table.now }
    requires i_le_word_bound { i ≤ word_bound }
    ensures { result ≡ atom_base table.now i }
{
    rows_base(table) + ATOM_SIZE * i
}

pub fn facts_base(table: &[u16]) -> usize
    requires { head_words ≤ length table.now }
    ensures { result ≡ facts_base table.now }
{
    atom_base(table, word(table, SCHEMA_ATOMS))
}

// "schema, role .., predicate, part, four arguments": words of the row that begins at `row`, which may be an atom's.
pub fn role_at(table: &[u16], row: usize) -> u16
    requires { row + atom_size ≤ length table.now }
    ensures value { result ≡ get_or table.now (row + 1) 0 }
    ensures by_index { (i : ℕ) → row ≡ atom_base table.now i → result ≡ (atom_in table.now i).role }
{
    word_at(table, row + ROLE)
}

pub fn predicate_at(table: &[u16], row: usize) -> u16
    requires { row + atom_size ≤ length table.now }
    ensures value { result ≡ get_or table.now (row + 2) 0 }
    ensures by_index { (i : ℕ) → row ≡ atom_base table.now i → result ≡ (atom_in table.now i).pred }
{
    word_at(table, row + PREDICATE)
}

pub fn part_at(table: &[u16], row: usize) -> u16
    requires { row + atom_size ≤ length table.now }
    ensures value { result ≡ get_or table.now (row + 3) 0 }
    ensures by_index { (i : ℕ) → row ≡ atom_base table.now i → result ≡ (atom_in table.now i).part }
{
    word_at(table, row + PART)
}

// Where the row of atom i begins, which is one of the table's; and its words.
pub fn row_of(table: &[u16], i: usize) -> usize
    requires roomy { Roomy table.now }
    requires i_bound { i < atom_total table.now }
    ensures value { result ≡ atom_base table.now i }
    ensures atom_size_in_bounds { result + atom_size ≤ length table.now }
{
    atom_base(table, i)
}

pub fn schema_number(table: &[u16], i: usize) -> usize
    requires roomy { Roomy table.now }
    requires i_bound { i < atom_total table.now }
    ensures { result ≡ schema_number_in table.now i }
{
    word(table, row_of(table, i))
}

pub fn role(table: &[u16], i: usize) -> usize
    requires roomy { Roomy table.now }
    requires i_bound { i < atom_total table.now }
    ensures { result ≡ (atom_in table.now i).role }
{
    wide(role_at(table, row_of(table, i)))
}

pub fn predicate(table: &[u16], i: usize) -> usize
    requires roomy { Roomy table.now }
    requires i_bound { i < atom_total table.now }
    ensures { result ≡ (atom_in table.now i).pred }
{
    wide(predicate_at(table, row_of(table, i)))
}

pub fn part(table: &[u16], i: usize) -> usize
    requires roomy { Roomy table.now }
    requires i_bound { i < atom_total table.now }
    ensures value { result ≡ (atom_in table.now i).part }
    ensures upper_bound { result < word_bound }
{
    word(table, row_of(table, i) + PART)
}

// Where its arguments begin.
pub fn arguments(table: &[u16], i: usize) -> usize
    requires roomy { Roomy table.now }
    requires i_bound { i < atom_total table.now }
    ensures value { result ≡ atom_base table.now i + 4 }
    ensures most_arity_in_bounds { result + most_arity ≤ length table.now }
{
    row_of(table, i) + ARGUMENTS
}
