// What is kept of a table's parts, all in one array. First a row for each schema, and one row more, for where the last
// one's atoms and pairs end: the index of the schema's first atom, the split's number of its first part, how many parts
// it has, and the index of its first pair. Then the parts, in order, and then the parameters of each, a bit for each. A
// schema has no more parts than atoms, so its part at position j stands at the place of its atom j.
ghost use Rattle.std.specs.Prelude.{◌+◌, ◌≤◌, ◌<◌, ◌≡◌};
ghost use Rattle.task.specs.Limits.{most_parts, most_schemas, most_schema_atoms};
ghost use Rattle.words.specs.Words.{word_bound};
ghost use Rattle.tokens.specs.Kept.{start_place, first_place, count_place, pair_place, own_place, kept_row, field};
ghost use Rattle.tokens.specs.Kept.{with_field, with_part, word_in, kept_start, kept_end, kept_first, kept_count};
ghost use Rattle.tokens.specs.Kept.{kept_pair, kept_pair_end, kept_part, kept_own};

use task::Part;
use task::limits::{MOST_SCHEMA_ATOMS, MOST_SCHEMAS};
use words::runs::wide;
use words::sets::held;

// Where in a row each thing stands.
const START: usize = 0;

const FIRST: usize = 1;

const COUNT: usize = 2;

const PAIR: usize = 3;

const KEPT_ROW: usize = 4;

// Where the parts begin, and where their parameters do.
const ORDER: usize = KEPT_ROW * (MOST_SCHEMAS + 1);

const OWN: usize = ORDER + MOST_SCHEMA_ATOMS;

pub const KEPT_WORDS: usize = OWN + MOST_SCHEMA_ATOMS;

pub type Kept = [u16; KEPT_WORDS];

// The word at place k of a row.
fn word(kept: &Kept, row: usize, k: usize) -> u16
    requires { (row ≤ most_schemas) × (k < kept_row) }
    ensures { result ≡ field kept.now row k }
{
    kept[KEPT_ROW * row + k]
}

// It becomes another.
fn put(kept: &mut Kept, row: usize, k: usize, word: u16)
    requires { (row ≤ most_schemas) × (k < kept_row) }
    ensures { kept.new ≡ with_field kept.old row k word }
{
    kept[KEPT_ROW * row + k] = word;
}

// Where the atoms of schema s begin.
pub fn start_of(kept: &Kept, s: usize) -> usize
    requires { s ≤ most_schemas }
    ensures { result ≡ kept_start kept.now s }
{
    wide(word(kept, s, START))
}

// Where they end.
pub fn end_of(kept: &Kept, s: usize) -> usize
    requires { s < most_schemas }
    ensures { result ≡ kept_end kept.now s }
{
    start_of(kept, s + 1)
}

// The split's number of its first part.
pub fn first_of(kept: &Kept, s: usize) -> usize
    requires { s ≤ most_schemas }
    ensures { result ≡ kept_first kept.now s }
{
    wide(word(kept, s, FIRST))
}

// How many parts it has.
pub fn count_of(kept: &Kept, s: usize) -> usize
    requires { s < most_schemas }
    ensures { result ≡ kept_count kept.now s }
{
    wide(word(kept, s, COUNT))
}

// Where the pairs of schema s begin.
pub fn pair_of(kept: &Kept, s: usize) -> usize
    requires { s ≤ most_schemas }
    ensures { result ≡ kept_pair kept.now s }
{
    wide(word(kept, s, PAIR))
}

// Where they end.
pub fn pair_end_of(kept: &Kept, s: usize) -> usize
    requires { s < most_schemas }
    ensures { result ≡ kept_pair_end kept.now s }
{
    pair_of(kept, s + 1)
}

// The word for the part at position j of schema s, of the words that begin at `base`. Behind the array it is 0: no
// table has a part there, and those who ask need not know it.
fn of_part(kept: &Kept, base: usize, s: usize, j: usize) -> u16
    requires base_le_own_place { base ≤ own_place }
    requires s_lt_most_schemas { (s < most_schemas) × (j < most_parts) }
    ensures { result ≡ word_in kept.now (base + (kept_start kept.now s + j)) }
{
    let at = base + (start_of(kept, s) + j);
    kept.get(at).copied().unwrap_or(0)
}

// The part at position j of their order.
pub fn part_at(kept: &Kept, s: usize, j: usize) -> Part
    requires { (s < most_schemas) × (j < most_parts) }
    ensures { result.0 ≡ kept_part kept.now s j }
{
    Part(of_part(kept, ORDER, s, j))
}

// The parameters of that part.
pub fn own_at(kept: &Kept, s: usize, j: usize) -> u64
    requires { (s < most_schemas) × (j < most_parts) }
    ensures { result ≡ kept_own kept.now s j }
{
    held(of_part(kept, OWN, s, j))
}

// A row begins: its schema's first atom, the split's number of its first part, and its first pair.
pub(crate) fn keep_begin(kept: &mut Kept, row: usize, start: usize, first: usize, pair: usize)
    requires row_le_most_schemas { row ≤ most_schemas }
    requires start_lt_word_bound { (start < word_bound) × (first < word_bound) × (pair < word_bound) }
    ensures { kept.new ≡
        with_field (with_field (with_field kept.old row start_place start) row first_place first) row pair_place
        pair }
{
    put(kept, row, START, start as u16);
    put(kept, row, FIRST, first as u16);
    put(kept, row, PAIR, pair as u16);
}

// How many parts a schema has.
pub(crate) fn keep_count(kept: &mut Kept, s: usize, count: usize)
    requires { (s < most_schemas) × (count < word_bound) }
    ensures { kept.new ≡ with_field kept.old s count_place count }
{
    put(kept, s, COUNT, count as u16);
}

// A part and its parameters, at the place of atom i.
pub(crate) fn keep_part(kept: &mut Kept, i: usize, part: Part, own: u16)
    requires { i < most_schema_atoms }
    ensures { kept.new ≡ with_part kept.old i part.0 own }
{
    kept[ORDER + i] = part.0;
    kept[OWN + i] = own;
}
