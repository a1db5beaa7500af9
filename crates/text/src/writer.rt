// The writer of a task's text. Its size is counted first, since refusal 11 leaves "all as found": the same walk, run on
// no bytes. Then each byte is stored once.
ghost use Rattle.std.specs.Prelude.{◌≡◌, true, ℕ, ◌+◌, ◌*◌, ◌^◌, ◌≤◌, ◌<◌, length, leb};
ghost use Rattle.task.specs.Table.{task_of, is_table};
ghost use Rattle.text.specs.Text.{write};
ghost use Rattle.text.specs.Outcomes.{write_outcome, write_answer_told};
ghost use Rattle.text.specs.Writes.{Writes};
ghost use Rattle.text.specs.TableLines.{AtomInside, atom_text, atoms_text, pairs_text};
ghost use Rattle.text.specs.TableLines.{head_text, RowsInside, schema_text_of};
ghost use Rattle.text.specs.TableLines.{schemas_text, SchemaRun, fact_count, facts_text};
ghost use Rattle.task.specs.Limits.{pair_size, atom_size};

use crate::LONGEST_TEXT;
use crate::counted::{write_bytes, write_list_line, write_number_line, write_row};
use task::layout::{arity_of, facts_base, pairs_base, params_of, predicate_at, rows_base};
use task::limits::{
    ATOM_SIZE, GOAL_ATOMS, HEAD_WORDS, INITIAL_ATOMS, LOWER, OBJECTS, PAIR_SIZE, PAIRS, PART,
    PREDICATES, SCHEMA_ATOMS, SCHEMAS,
};
use task::{Reason, Refusal};
use words::runs::{wide, word};

// "An atom is predicate, colon, arguments": the line of the atom whose words begin at `base`.
fn write_atom(text: &mut [u8], at: usize, table: &[u16], base: usize) -> usize
    requires atom_inside { AtomInside table.now base }
    requires base_bound { at + length (atom_text table.now base) < 2 ^ 64 }
    ensures { Writes text.old at (atom_text table.now base) text.new result }
{
    let arity = arity_of(table, wide(predicate_at(table, base)));
    write_row(text, at, table, base, arity)
}

// The lines of n atoms, whose words begin at `base`.
fn write_atoms(text: &mut [u8], at: usize, table: &[u16], base: usize, n: usize) -> usize
    requires by_index { (k : ℕ) → k < n → AtomInside table.now (base + atom_size * k) }
    requires n_bound { at + length (atoms_text table.now base n) < 2 ^ 64 }
    ensures { Writes text.old at (atoms_text table.now base n) text.new result }
{
    let mut next = at;
    for k in 0..n {
        next = write_atom(text, next, table, base + ATOM_SIZE * k);
    }
    next
}

// How many of the `left` rows of a size, whose words begin at `base`, stand before one of another schema.
fn rows_of(table: &[u16], size: usize, base: usize, left: usize, schema: usize) -> usize
    requires { (k : ℕ) → k < left → base + size * k < length table.now }
    ensures { SchemaRun table.now size base left schema result }
{
    (0..left)
        .find(|n| word(table, base + size * n) != schema)
        .unwrap_or(left)
}

// "`differ=` lines after its `schema` line": those of m pairs, whose words begin at `base`.
fn write_pairs(text: &mut [u8], at: usize, table: &[u16], base: usize, m: usize) -> usize
    requires m_in_bounds { base + pair_size * m ≤ length table.now }
    requires m_bound { at + length (pairs_text table.now base m) < 2 ^ 64 }
    ensures { Writes text.old at (pairs_text table.now base m) text.new result }
{
    let mut next = at;
    for k in 0..m {
        next = write_list_line(
            text,
            next,
            b"differ=",
            table,
            base + PAIR_SIZE * k + LOWER,
            1,
            PAIR_SIZE - LOWER,
        );
    }
    next
}

// The rows of a schema: where its pairs begin and how many there are, and the same of its atoms.
#[derive(Clone, Copy)]
struct Rows {
    pair: usize,
    pairs: usize,
    atom: usize,
    atoms: usize,
}

// "`schema` (parameter count), `pre`, `add`, `del` lines, `part` (a part for each atom)".
fn write_schema(text: &mut [u8], at: usize, table: &[u16], params: u16, rows: Rows) -> usize
    requires rows_inside { RowsInside table.now rows }
    requires rows_bound { at + length (schema_text_of table.now params rows) < 2 ^ 64 }
    ensures { Writes text.old at (schema_text_of table.now params rows)
        text.new result }
{
    let at_pairs = write_number_line(text, at, b"schema=", params);
    let at_atoms = write_pairs(text, at_pairs, table, rows.pair, rows.pairs);
    let at_parts = write_atoms(text, at_atoms, table, rows.atom, rows.atoms);
    write_list_line(
        text,
        at_parts,
        b"part=",
        table,
        rows.atom + PART,
        ATOM_SIZE,
        rows.atoms,
    )
}

// The lines of all schemas. Their pairs, and their atoms, stand one schema behind another, so those of each begin where
// those of the one before it end.
fn write_schemas(text: &mut [u8], at: usize, table: &[u16]) -> usize
    requires table_value { is_table table.now ≡ true }
    requires table_bound { at + length (schemas_text table.now) < 2 ^ 64 }
    ensures { Writes text.old at (schemas_text table.now) text.new result }
{
    let schemas = word(table, SCHEMAS);
    let mut pair = pairs_base(table);
    let mut pairs_left = word(table, PAIRS);
    let mut atom = rows_base(table);
    let mut atoms_left = word(table, SCHEMA_ATOMS);
    let mut next = at;
    for s in 0..schemas {
        let pairs = rows_of(table, PAIR_SIZE, pair, pairs_left, s);
        let atoms = rows_of(table, ATOM_SIZE, atom, atoms_left, s);
        let rows = Rows {
            pair,
            pairs,
            atom,
            atoms,
        };
        next = write_schema(text, next, table, params_of(table, s) as u16, rows);
        pair = pair + PAIR_SIZE * pairs;
        pairs_left = pairs_left - pairs;
        atom = atom + ATOM_SIZE * atoms;
        atoms_left = atoms_left - atoms;
    }
    next
}

// "`task=1`, `objects`, `arity` (list)": the lines before those of the schemas.
fn write_head(text: &mut [u8], table: &[u16]) -> usize
    requires table_value { is_table table.now ≡ true }
    requires table_len_bound { length (head_text table.now) < 2 ^ 64 }
    ensures { Writes text.old 0 (head_text table.now) text.new result }
{
    let predicates = word(table, PREDICATES);
    let at_objects = write_bytes(text, 0, b"task=1\n");
    let at_arity = write_number_line(text, at_objects, b"objects=", table[OBJECTS]);
    write_list_line(text, at_arity, b"arity=", table, HEAD_WORDS, 1, predicates)
}

// How many initial and goal atoms there are.
fn fact_count(table: &[u16]) -> usize
    requires { is_table table.now ≡ true }
    ensures { result ≡ fact_count table.now }
{
    word(table, INITIAL_ATOMS) + word(table, GOAL_ATOMS)
}

// Initial and goal atoms follow the schemas' own, and their roles say which they are.
pub(crate) fn write_facts(text: &mut [u8], at: usize, table: &[u16]) -> usize
    requires table_value { is_table table.now ≡ true }
    requires table_bound { at + length (facts_text table.now) < 2 ^ 64 }
    ensures { Writes text.old at (facts_text table.now) text.new result }
{
    write_atoms(text, at, table, facts_base(table), fact_count(table))
}

// "Fixed order: `task=1`, `objects`, `arity` (list), for each schema .., then `init`, `goal`, `end=1`".
fn write_text(text: &mut [u8], table: &[u16]) -> usize
    requires { is_table table.now ≡ true }
    ensures { Writes text.old 0 (write (task_of table.now)) text.new result }
{
    let at_schemas = write_head(text, table);
    let at_facts = write_schemas(text, at_schemas, table);
    let at_end = write_facts(text, at_facts, table);
    write_bytes(text, at_end, b"end=1\n")
}

// Whether the text of a table's task is no longer than the lent bytes. No count is needed for bytes that hold any text.
fn has_room(table: &[u16], bytes: usize) -> bool
    requires { is_table table.now ≡ true }
    ensures { result ≡ leb (length (write (task_of table.now))) bytes }
{
    if LONGEST_TEXT <= bytes {
        return true;
    }
    let mut none = [0u8; 0];
    write_text(&mut none, table) <= bytes
}

// Writes the text of a table's task, or refuses with 11: "the text is longer than the lent bytes".
pub fn write_task(table: &[u16], text: &mut [u8]) -> Result<u64, Refusal>
    requires { is_table table.now ≡ true }
    ensures result_value { write_answer_told result ≡ (write_outcome table.now text.old).told }
    ensures text_after { text.new ≡ (write_outcome table.now text.old).buffer }
{
    if !has_room(table, text.len()) {
        return Err(Refusal::nowhere(Reason::TextTooLong));
    }
    Ok(write_text(text, table) as u64)
}
