// A step's deletes and adds in one go: where a record goes out and another comes in, only the rows between them move.
ghost use Rattle.std.specs.Prelude.{ℕ, ◌≤◌, ◌<◌, length};
ghost use Rattle.task.specs.Limits.{most_atoms};
ghost use Rattle.task.specs.Task.{Task, Fact};
ghost use Rattle.task.specs.Run.{room_in};
ghost use Rattle.task.specs.Records.{Keeps};
ghost use Rattle.task.specs.Spans.{UnderWay, AllHold, exchanged};
ghost use Rattle.task.specs.Exchange.{FirstNew, ExchangedOne};

use crate::records::{find, is_row, remove_row, replace, row_for};
use crate::spans::{Numbers, Rows, Spans, absent, insert_rest};

// How many records there are, and the first add that may still be missing.
#[derive(Clone, Copy)]
pub struct Exchanged {
    pub left: usize,
    pub next: usize,
}

// An add of a step that does not hold: its place among the numbers, and the row before which it is to come.
#[derive(Clone, Copy)]
pub struct New {
    pub atom: usize,
    pub row: usize,
}

// Where to look first for the row of a number: where the precondition with this number was found, if one has it.
// Nothing is promised, since rows move as others come and go.
fn row_seen(numbers: &Numbers, rows: &Rows, count: usize, number: u64) -> usize
    requires { count ≤ most_atoms }
{
    (0..count)
        .find(|k| numbers[*k] == number)
        .map_or(0, |k| rows[k])
}

// The first add from `from` on that does not hold, or the end of the adds.
fn first_new(numbers: &Numbers, spans: Spans, from: usize, state: &[u16], n: usize) -> New
    requires from_le_deletes { from ≤ spans.deletes }
    requires by_index { (t : Task) × (g : ℕ → Fact) × UnderWay t g spans numbers.now state.now n }
    ensures { (t : Task) (g : ℕ → Fact) → UnderWay t g spans numbers.now state.now n →
        FirstNew t g numbers.now from spans.deletes state.now n result }
{
    for k in from..spans.deletes {
        let number = numbers[k];
        let row = find(state, n, number);
        if !is_row(state, n, row, number) {
            return New { atom: k, row };
        }
    }
    New {
        atom: spans.deletes,
        row: 0,
    }
}

// Takes the delete `k` out of the state, unless it is not there or an add that is there already, and puts the next
// missing add from `next` on in its place.
fn exchange_one(
    numbers: &Numbers,
    rows: &Rows,
    spans: Spans,
    k: usize,
    next: usize,
    state: &mut [u16],
    n: usize,
) -> Exchanged
    requires k_lt_end { (k < spans.end) × (spans.adds ≤ next) × (next ≤ spans.deletes) }
    requires by_index { (t : Task) × (g : ℕ → Fact) × UnderWay t g spans numbers.now state.old n }
    ensures { (t : Task) (g : ℕ → Fact) → UnderWay t g spans numbers.now state.old n →
        AllHold t g spans.adds next state.old n →
        ExchangedOne t g spans.adds spans.deletes k state.old n state.new result.left
        result.next }
{
    let out = numbers[k];
    let row = row_for(state, n, row_seen(numbers, rows, spans.adds, out), out);
    if !is_row(state, n, row, out) {
        return Exchanged { left: n, next };
    }
    let new = first_new(numbers, spans, next, state, n);
    let atom = new.atom;
    if !absent(numbers, spans.adds, atom, out) {
        return Exchanged {
            left: n,
            next: atom,
        };
    }
    if atom < spans.deletes {
        replace(state, row, new.row, numbers[atom]);
        return Exchanged {
            left: n,
            next: atom + 1,
        };
    }
    remove_row(state, n, row);
    Exchanged {
        left: n - 1,
        next: atom,
    }
}

// Takes the deletes out of the state and puts the adds in, where there is room for what is left; returns how many
// records there are then.
pub(crate) fn exchange(
    numbers: &Numbers,
    rows: &Rows,
    spans: Spans,
    state: &mut [u16],
    n: usize,
) -> usize
    requires { (t : Task) × (g : ℕ → Fact) × UnderWay t g spans numbers.now state.old n ×
        (length (exchanged t g spans state.old n) ≤ room_in state.old) }
    ensures { (t : Task) (g : ℕ → Fact) → UnderWay t g spans numbers.now state.old n →
        Keeps t state.new result (exchanged t g spans state.old n) }
{
    let mut left = n;
    let mut next = spans.adds;
    for k in spans.deletes..spans.end {
        let e = exchange_one(numbers, rows, spans, k, next, state, left);
        left = e.left;
        next = e.next;
    }
    insert_rest(numbers, spans, next, state, left)
}
