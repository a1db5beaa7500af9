// The schemas of a table: the pairs and the atoms that name one follow one another, and together are what document 01,
// and of pairs document 02's note 4, asks of it.
ghost use Rattle.std.specs.Prelude.{◌≡◌, true, ℕ, ◌+◌, ◌-◌, ◌*◌, ◌<◌, ◌≤◌, length, get_or, eqb};
ghost use Rattle.words.specs.Lists.{all, any, up_to, up_from};
ghost use Rattle.task.specs.Layout.{head_in, atom_total};
ghost use Rattle.task.specs.Task.{distinct, roles_ascend, names, part_count};
ghost use Rattle.task.specs.Table.{atom_in, pair_number_in, schema_number_in};
ghost use Rattle.words.specs.Sets.{member};
ghost use Rattle.task.specs.WordTests.{arg_words_fit, in_file_order, schema_words_fit, schemas_fit, parts_fit};
ghost use Rattle.task.specs.WordTests.{stands_again, predicate_bit, atoms_in, Roomy, KnownIn, RolesRise};
ghost use Rattle.task.specs.WordTests.{HoldsBehind, RunOf};

use super::atoms::{atom_fits, same_atom};
use super::pairs::pairs_fit;
use crate::layout::{arguments, arity, pairs_base, params_of, part, predicate, role, rows_base};
use crate::limits;
use words::runs::word;
use words::sets::{has, has_all, joined_words, with};

// How many roles an atom of a schema may have, and how many numbers go into a set.
const ROLES: usize = 3;

const SET_BITS: usize = 64;

// "preconditions first, then adds, then deletes", of the atoms from one index to another.
fn roles_ascend(table: &[u16], first: usize, end: usize) -> bool
    requires roomy { Roomy table.now }
    requires first_lt_end { (first < end) × (end ≤ atom_total table.now) }
    ensures { result ≡ roles_ascend (atoms_in table.now first (end - first)) }
{
    (first + 1..end).all(|i| role(table, i - 1) <= role(table, i))
        && role(table, end - 1) <= usize::from(limits::DELETION)
}

// Whether each atom from one index to another has a known predicate, arguments below a bound, and unused words 0.
fn atoms_fit(table: &[u16], bound: usize, first: usize, end: usize) -> bool
    requires roomy { Roomy table.now }
    requires end_bound { end ≤ atom_total table.now }
    ensures { result ≡ all (arg_words_fit table.now bound) (up_from first (end - first)) }
{
    (first..end).all(|i| atom_fits(table, i, bound))
}

// Whether atom i stands again among the atoms behind it, up to an end; those of its role come first.
fn stands_again(table: &[u16], i: usize, end: usize) -> bool
    requires roomy { Roomy table.now }
    requires i_lt_end { (i < end) × (end ≤ atom_total table.now) }
    requires i_bound { (atom_in table.now i).pred < (head_in table.now).predicates }
    requires roles_rise { RolesRise table.now i end }
    ensures { result ≡ stands_again table.now i end }
{
    let own = role(table, i);
    for j in i + 1..end {
        if role(table, j) != own {
            return false;
        }
        if same_atom(table, i, j) {
            return true;
        }
    }
    false
}

// The number that stands for the predicate of atom i in a set; some predicates share one.
fn predicate_bit(table: &[u16], i: usize) -> usize
    requires roomy { Roomy table.now }
    requires i_bound { i < atom_total table.now }
    ensures { result ≡ predicate_bit (atom_in table.now i).pred }
{
    predicate(table, i) % SET_BITS
}

// Whether atom i stands again behind it, up to an end. It is looked for only where the set of the predicates behind in
// its role has its own, so that few atoms are compared.
fn repeats(table: &[u16], i: usize, end: usize, bit: usize, behind: u64) -> bool
    requires roomy { Roomy table.now }
    requires i_lt_end { (i < end) × (end ≤ atom_total table.now) }
    requires i_bound { (atom_in table.now i).pred < (head_in table.now).predicates }
    requires roles_rise { RolesRise table.now i end }
    requires bit_value { bit ≡ predicate_bit (atom_in table.now i).pred }
    requires holds_behind { HoldsBehind table.now i end behind }
    ensures { result ≡ stands_again table.now i end }
{
    has(behind, bit) && stands_again(table, i, end)
}

// "no atom twice in one role", of the atoms from one index to another: from the last back, with the predicates behind
// of each role in a set.
fn atoms_differ(table: &[u16], first: usize, end: usize) -> bool
    requires roomy { Roomy table.now }
    requires first_le_end { (first ≤ end) × (end ≤ atom_total table.now) }
    requires known_in { KnownIn table.now first end }
    requires first_value { roles_ascend (atoms_in table.now first (end - first)) ≡ true }
    ensures { result ≡ distinct (atoms_in table.now first (end - first)) }
{
    let mut seen = [0; ROLES];
    for i in (first..end).rev() {
        let own = role(table, i);
        let bit = predicate_bit(table, i);
        let behind = seen[own];
        if repeats(table, i, end, bit, behind) {
            return false;
        }
        seen[own] = with(behind, bit);
    }
    true
}

// The parameters that stand in the atoms from one index to another, whose arguments are below a bound.
fn parameters(table: &[u16], bound: usize, first: usize, end: usize) -> u64
    requires roomy { Roomy table.now }
    requires bound_bound { (bound ≤ 64) × (end ≤ atom_total table.now) }
    requires first_value { all (arg_words_fit table.now bound) (up_from first (end - first)) ≡ true }
    ensures { (x : ℕ) → member result x ≡ any (names x) (atoms_in table.now first (end - first)) }
{
    let mut set = 0;
    for i in first..end {
        let from = arguments(table, i);
        set = joined_words(table, set, from, from + arity(table, predicate(table, i)));
    }
    set
}

// "every parameter stands in some atom", of the atoms from one index to another.
fn all_named(table: &[u16], params: usize, first: usize, end: usize) -> bool
    requires roomy { Roomy table.now }
    requires params_bound { (params ≤ 64) × (end ≤ atom_total table.now) }
    requires first_value { all (arg_words_fit table.now params) (up_from first (end - first)) ≡ true }
    ensures { result ≡ all (λ x. any (names x) (atoms_in table.now first (end - first))) (up_to params) }
{
    has_all(parameters(table, params, first, end), params)
}

// One more than the highest part number of the atoms from one index to another.
fn part_count(table: &[u16], first: usize, end: usize) -> usize
    requires roomy { Roomy table.now }
    requires first_le_end { (first ≤ end) × (end ≤ atom_total table.now) }
    ensures { result ≡ part_count (atoms_in table.now first (end - first)) }
{
    (first..end).map(|i| part(table, i) + 1).max().unwrap_or(0)
}

// The parts of the atoms from one index to another.
fn parts(table: &[u16], first: usize, end: usize) -> u64
    requires roomy { Roomy table.now }
    requires end_bound { end ≤ atom_total table.now }
    requires first_bound { part_count (atoms_in table.now first (end - first)) ≤ 64 }
    ensures { (p : ℕ) →
        member result p ≡ any (λ a. eqb p a.part) (atoms_in table.now first (end - first)) }
{
    let mut set = 0;
    for i in first..end {
        set = with(set, part(table, i));
    }
    set
}

// "1 to 16 parts, numbered without a gap", of the atoms from one index to another.
fn parts_fit(table: &[u16], first: usize, end: usize) -> bool
    requires roomy { Roomy table.now }
    requires first_le_end { (first ≤ end) × (end ≤ atom_total table.now) }
    ensures { result ≡ parts_fit (atoms_in table.now first (end - first)) }
{
    let count = part_count(table, first, end);
    count <= limits::MOST_PARTS && has_all(parts(table, first, end), count)
}

// Whether the pairs and the atoms from one index to another, with the parameter count of schema s, are a schema.
fn schema_fits(table: &[u16], s: usize, pair: usize, stop: usize, first: usize, end: usize) -> bool
    requires roomy { Roomy table.now }
    requires s_bound { s < (head_in table.now).schemas }
    requires pair_le_stop { (pair ≤ stop) × (stop ≤ (head_in table.now).pairs) }
    requires first_le_end { (first ≤ end) × (end ≤ (head_in table.now).schema_atoms) }
    ensures { result ≡ schema_words_fit table.now s (up_from pair (stop - pair))
        (up_from first (end - first)) }
{
    let params = params_of(table, s);
    if limits::MOST_PARAMETERS < params {
        return false;
    }
    if end - first < 1 {
        return false;
    }
    if limits::MOST_ATOMS < end - first {
        return false;
    }
    if !roles_ascend(table, first, end) {
        return false;
    }
    if !atoms_fit(table, params, first, end) {
        return false;
    }
    if !atoms_differ(table, first, end) {
        return false;
    }
    if !all_named(table, params, first, end) {
        return false;
    }
    if !parts_fit(table, first, end) {
        return false;
    }
    pairs_fit(table, params, pair, stop)
}

// Of `count` rows of `size` words from `base` on, where those of schema s end, which begin at `start`.
pub fn run_end(
    table: &[u16],
    base: usize,
    size: usize,
    count: usize,
    s: usize,
    start: usize,
) -> usize
    requires le_size { (1 ≤ size) × (base + size * count ≤ length table.now) }
    requires start_le_count { start ≤ count }
    ensures { RunOf (λ (i : ℕ). get_or table.now (base + size * i) 0) count s start result }
{
    (start..count)
        .find(|i| word(table, base + size * *i) != s)
        .unwrap_or(count)
}

// Whether each schema, with the pairs and the atoms that name it, is one; they follow one another.
pub(crate) fn schemas_fit(table: &[u16]) -> bool
    requires roomy { Roomy table.now }
    requires table_value { in_file_order (pair_number_in table.now) (head_in table.now).schemas
        (head_in table.now).pairs ≡ true }
    requires table_value_2 { in_file_order (schema_number_in table.now) (head_in table.now).schemas
        (head_in table.now).schema_atoms ≡ true }
    ensures { result ≡ schemas_fit table.now }
{
    let schemas = word(table, limits::SCHEMAS);
    let pairs = word(table, limits::PAIRS);
    let atoms = word(table, limits::SCHEMA_ATOMS);
    let mut pair = 0;
    let mut first = 0;
    for s in 0..schemas {
        let stop = run_end(table, pairs_base(table), limits::PAIR_SIZE, pairs, s, pair);
        let end = run_end(table, rows_base(table), limits::ATOM_SIZE, atoms, s, first);
        if !schema_fits(table, s, pair, stop, first, end) {
            return false;
        }
        pair = stop;
        first = end;
    }
    true
}
