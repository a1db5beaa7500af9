// Whether words are a table of document 01, 'Task table': each function makes one test of specs/WordTests.antt.
mod atoms;
mod facts;
mod pairs;
pub mod schemas;

ghost use Rattle.std.specs.Prelude.{◌≡◌, ℕ, ◌+◌, ◌*◌, ◌≤◌, length, get_or};
ghost use Rattle.words.specs.Lists.{every};
ghost use Rattle.task.specs.Layout.{head_in, params_base};
ghost use Rattle.task.specs.Limits.{table_words, head_words};
ghost use Rattle.task.specs.Table.{is_table};
ghost use Rattle.task.specs.WordTests.{count_tests, arities_fit, in_file_order};

use crate::layout::{arity_of, atom_base, pairs_base, rows_base};
use crate::limits;
use facts::facts_fit;
use schemas::schemas_fit;
use words::runs::{many_zeros, word};

// Whether each of the seven counts is within its limits.
fn counts_fit(table: &[u16]) -> bool
    requires { head_words ≤ length table.now }
    ensures { result ≡ every (count_tests table.now) }
{
    let objects = word(table, limits::OBJECTS);
    let predicates = word(table, limits::PREDICATES);
    if objects < 1
        || limits::MOST_OBJECTS < objects
        || predicates < 1
        || limits::MOST_PREDICATES < predicates
    {
        return false;
    }
    let schemas = word(table, limits::SCHEMAS);
    let atoms = word(table, limits::SCHEMA_ATOMS);
    let initial = word(table, limits::INITIAL_ATOMS);
    let goal = word(table, limits::GOAL_ATOMS);
    let pairs = word(table, limits::PAIRS);
    if limits::MOST_SCHEMAS < schemas
        || limits::MOST_SCHEMA_ATOMS < atoms
        || limits::MOST_INITIAL < initial
        || limits::MOST_GOAL < goal
        || limits::MOST_PAIRS < pairs
    {
        return false;
    }
    true
}

// Whether every arity is at most 4.
fn arities_fit(table: &[u16]) -> bool
    requires { params_base table.now ≤ length table.now }
    ensures { result ≡ arities_fit table.now }
{
    let predicates = word(table, limits::PREDICATES);
    (0..predicates).all(|p| arity_of(table, p) <= limits::MOST_ARITY)
}

// Whether the rows of one kind, `count` rows of `size` words from `base` on, name schemas, the rows of each behind
// those of the one before it.
fn numbers_fit(table: &[u16], base: usize, size: usize, count: usize) -> bool
    requires head_words_in_bounds { head_words ≤ length table.now }
    requires le_size { (1 ≤ size) × (base + size * count ≤ length table.now) }
    ensures { result ≡ in_file_order (λ (i : ℕ). get_or table.now (base + size * i) 0)
        (head_in table.now).schemas count }
{
    let schemas = word(table, limits::SCHEMAS);
    let mut before = 0;
    for i in 0..count {
        let number = word(table, base + size * i);
        if number < before || schemas <= number {
            return false;
        }
        before = number;
    }
    true
}

// Whether the first 14,007 words are a table: else refusal 2.
pub fn is_table(table: &[u16]) -> bool
    requires { table_words ≤ length table.now }
    ensures { result ≡ is_table table.now }
{
    if !counts_fit(table) {
        return false;
    }
    if !arities_fit(table) {
        return false;
    }
    let pairs = word(table, limits::PAIRS);
    if !numbers_fit(table, pairs_base(table), limits::PAIR_SIZE, pairs) {
        return false;
    }
    let atoms = word(table, limits::SCHEMA_ATOMS);
    if !numbers_fit(table, rows_base(table), limits::ATOM_SIZE, atoms) {
        return false;
    }
    if !schemas_fit(table) {
        return false;
    }
    let facts = atoms + word(table, limits::INITIAL_ATOMS);
    if !facts_fit(table, limits::INITIAL as usize, atoms, facts) {
        return false;
    }
    let end = facts + word(table, limits::GOAL_ATOMS);
    if !facts_fit(table, limits::GOAL as usize, facts, end) {
        return false;
    }
    many_zeros(table, atom_base(table, end), limits::TABLE_WORDS)
}
