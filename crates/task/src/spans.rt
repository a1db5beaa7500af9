// The ground atoms of a step as numbers, worked out once from the table and the step's objects; and loops over those of
// one role, which look at the numbers alone.
ghost use Rattle.std.specs.Prelude.{◌≡◌, true, not, ℕ, ◌+◌, ◌-◌, ◌*◌, ◌≤◌, ◌<◌, length, get_or, eqb};
ghost use Rattle.words.specs.Lists.{all};
ghost use Rattle.task.specs.Layout.{atom_total};
ghost use Rattle.task.specs.Task.{Task, Fact};
ghost use Rattle.task.specs.Table.{fact_in, is_table};
ghost use Rattle.task.specs.Run.{holds, insert_all, state_in, room_in};
ghost use Rattle.task.specs.Records.{record_number, Keeps};
ghost use Rattle.task.specs.Limits.{step_size, most_atoms};
ghost use Rattle.words.specs.Words.{word_bound, words_at};
ghost use Rattle.task.specs.Spans.{ground_at, ground_from, span, argument_in, AtomOf, SpanOf, NumbersOf, UnderWay};

use crate::Parameter;
use crate::layout::{arity_of, predicate_at, row_of};
use crate::limits::{ARGUMENTS, MOST_ATOMS, STEP_SIZE};
use crate::records::{find, is_row, number_of, put_in};
use crate::steps::object_of;

// The numbers of a step's ground atoms, in the table's order.
pub type Numbers = [u64; MOST_ATOMS];

// For each precondition the row at which it was found; rows move as others come and go, so that is where to look first.
pub type Rows = [usize; MOST_ATOMS];

// A step's ground atoms by role, as places among their numbers: the preconditions stand first, then come the adds, and
// the deletes up to the end.
#[derive(Clone, Copy)]
pub struct Spans {
    pub adds: usize,
    pub deletes: usize,
    pub end: usize,
}

// The argument at a word of the table with its object, or 0 where the predicate has no such argument.
fn argument(table: &[u16], at: usize, used: bool, steps: &[u16], i: usize) -> u16
    requires at_in_bounds { at < length table.now }
    requires at_in_bounds_2 { used ≡ true → step_size * i + 1 + get_or table.now at 0 < length steps.now }
    ensures { result ≡ argument_in used steps.now i (get_or table.now at 0) }
{
    if used {
        object_of(steps, STEP_SIZE * i, Parameter(table[at])).0
    } else {
        0
    }
}

// The number of atom k with the objects of step i.
pub(crate) fn ground(table: &[u16], k: usize, steps: &[u16], i: usize) -> u64
    requires { AtomOf table.now steps.now i k }
    ensures { result ≡ record_number (ground_at table.now steps.now i k) }
{
    let at = row_of(table, k);
    let p = predicate_at(table, at);
    let arity = arity_of(table, usize::from(p));
    let from = at + ARGUMENTS;
    let a = argument(table, from, 0 < arity, steps, i);
    let b = argument(table, from + 1, 1 < arity, steps, i);
    let c = argument(table, from + 2, 2 < arity, steps, i);
    let d = argument(table, from + 3, 3 < arity, steps, i);
    number_of(p, a, b, c, d)
}

// The number of an initial or goal atom.
pub(crate) fn fact_number(table: &[u16], k: usize) -> u64
    requires table_value { is_table table.now ≡ true }
    requires k_bound { k < atom_total table.now }
    ensures { result ≡ record_number (fact_in table.now k) }
{
    let at = row_of(table, k);
    let from = at + ARGUMENTS;
    number_of(
        predicate_at(table, at),
        table[from],
        table[from + 1],
        table[from + 2],
        table[from + 3],
    )
}

// Works out the numbers of the atoms from `start` to `end` with the objects of step i.
pub(crate) fn ground_all(
    table: &[u16],
    start: usize,
    end: usize,
    steps: &[u16],
    i: usize,
    numbers: &mut Numbers,
)
    requires span_of { SpanOf table.now steps.now i start end }
    requires start_bound { (end - start ≤ most_atoms) × (length numbers.old ≡ most_atoms) }
    ensures { (length numbers.new ≡ most_atoms) ×
        NumbersOf (ground_from table.now steps.now i start) (end - start)
        numbers.new }
{
    for k in start..end {
        numbers[k - start] = ground(table, k, steps, i);
    }
}

// Whether none of the numbers from `from` to `to` is this one.
pub(crate) fn absent(numbers: &Numbers, from: usize, to: usize, number: u64) -> bool
    requires { to ≤ most_atoms }
    ensures { result ≡ all (λ a. not (eqb a number)) (words_at numbers.now from (to - from)) }
{
    (from..to).all(|k| numbers[k] != number)
}

// Whether all preconditions hold; where they do, `rows` has the row of each.
pub(crate) fn all_hold(
    numbers: &Numbers,
    spans: Spans,
    state: &[u16],
    n: usize,
    rows: &mut Rows,
) -> bool
    requires { (t : Task) × (g : ℕ → Fact) × UnderWay t g spans numbers.now state.now n }
    ensures { (t : Task) (g : ℕ → Fact) → UnderWay t g spans numbers.now state.now n →
        result ≡ all (holds (state_in t state.now n)) (span g 0 spans.adds) }
{
    for k in 0..spans.adds {
        let number = numbers[k];
        let row = find(state, n, number);
        if !is_row(state, n, row, number) {
            return false;
        }
        rows[k] = row;
    }
    true
}

// Puts the adds from `from` on into a state with room for them, and returns how many records there are then.
pub(crate) fn insert_rest(
    numbers: &Numbers,
    spans: Spans,
    from: usize,
    state: &mut [u16],
    n: usize,
) -> usize
    requires from_le_deletes { from ≤ spans.deletes }
    requires by_index { (t : Task) × (g : ℕ → Fact) × UnderWay t g spans numbers.now state.old n ×
        (length (insert_all (span g from spans.deletes) (state_in t state.old n)) ≤ room_in state.old) }
    ensures { (t : Task) (g : ℕ → Fact) → UnderWay t g spans numbers.now state.old n →
        Keeps t state.new result
        (insert_all (span g from spans.deletes) (state_in t state.old n)) }
{
    let mut left = n;
    for k in from..spans.deletes {
        left = put_in(state, left, numbers[k]);
    }
    left
}
