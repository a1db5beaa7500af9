// The size of a step's next state, counted before anything is changed.
ghost use Rattle.std.specs.Prelude.{◌≡◌, true, not, ℕ, ◌≤◌, length, leb};
ghost use Rattle.task.specs.Task.{Task, Fact};
ghost use Rattle.task.specs.Run.{holds, insert_all, remove_all, state_in, room_in};
ghost use Rattle.task.specs.Records.{Known};
ghost use Rattle.task.specs.Spans.{span, UnderWay, AllHold, without, exchanged};

use crate::limits::RECORD_SIZE;
use crate::records::held;
use crate::spans::{Numbers, Spans, absent};

// Whether the atom with this number holds, where the preconditions do: one of these needs no search.
fn holds_now(numbers: &Numbers, spans: Spans, state: &[u16], n: usize, number: u64) -> bool
    requires { (t : Task) × (g : ℕ → Fact) × UnderWay t g spans numbers.now state.now n }
    ensures { (t : Task) (g : ℕ → Fact) → UnderWay t g spans numbers.now state.now n →
        AllHold t g 0 spans.adds state.now n →
        (f : Fact) → Known t state.now n f number → result ≡ holds (state_in t state.now n) f }
{
    !absent(numbers, 0, spans.adds, number) || held(state, n, number)
}

// Whether the atom with this number still holds when the deletes before `k` have gone out, where the preconditions hold
// before.
fn goes(numbers: &Numbers, spans: Spans, k: usize, state: &[u16], n: usize, number: u64) -> bool
    requires by_index { (t : Task) × (g : ℕ → Fact) × UnderWay t g spans numbers.now state.now n }
    requires k_le_end { k ≤ spans.end }
    ensures { (t : Task) (g : ℕ → Fact) → UnderWay t g spans numbers.now state.now n →
        AllHold t g 0 spans.adds state.now n →
        (f : Fact) → Known t state.now n f number →
        result ≡ holds (remove_all (span g spans.deletes k) (state_in t state.now n)) f }
{
    absent(numbers, spans.deletes, k, number) && holds_now(numbers, spans, state, n, number)
}

// How many records are left when the deletes have gone out, where the preconditions hold before.
fn size_without(numbers: &Numbers, spans: Spans, state: &[u16], n: usize) -> usize
    requires { (t : Task) × (g : ℕ → Fact) × UnderWay t g spans numbers.now state.now n ×
        AllHold t g 0 spans.adds state.now n }
    ensures { (t : Task) (g : ℕ → Fact) → UnderWay t g spans numbers.now state.now n →
        AllHold t g 0 spans.adds state.now n →
        result ≡ length (without t g spans state.now n) }
{
    let mut size = n;
    for k in spans.deletes..spans.end {
        if goes(numbers, spans, k, state, n, numbers[k]) {
            size -= 1;
        }
    }
    size
}

// Whether the atom with this number still holds when the deletes have gone out.
fn stays(numbers: &Numbers, spans: Spans, state: &[u16], n: usize, number: u64) -> bool
    requires { (t : Task) × (g : ℕ → Fact) × UnderWay t g spans numbers.now state.now n }
    ensures { (t : Task) (g : ℕ → Fact) → UnderWay t g spans numbers.now state.now n →
        (f : Fact) → Known t state.now n f number →
        result ≡ holds (without t g spans state.now n) f }
{
    held(state, n, number) && absent(numbers, spans.deletes, spans.end, number)
}

// Whether the atom with this number is new when the deletes have gone out and the adds before `k` have come in.
fn comes(numbers: &Numbers, spans: Spans, k: usize, state: &[u16], n: usize, number: u64) -> bool
    requires by_index { (t : Task) × (g : ℕ → Fact) × UnderWay t g spans numbers.now state.now n }
    requires k_le_end { k ≤ spans.end }
    ensures { (t : Task) (g : ℕ → Fact) → UnderWay t g spans numbers.now state.now n →
        (f : Fact) → Known t state.now n f number →
        result ≡ not (holds (insert_all (span g spans.adds k) (without t g spans state.now n)) f) }
{
    absent(numbers, spans.adds, k, number) && !stays(numbers, spans, state, n, number)
}

// How many records there are when the deletes have gone out, which leaves `size`, and the adds have come in.
fn size_with(numbers: &Numbers, spans: Spans, state: &[u16], n: usize, size: usize) -> usize
    requires { (t : Task) × (g : ℕ → Fact) × UnderWay t g spans numbers.now state.now n ×
        (size ≡ length (without t g spans state.now n)) }
    ensures { (t : Task) (g : ℕ → Fact) → UnderWay t g spans numbers.now state.now n →
        size ≡ length (without t g spans state.now n) →
        result ≡ length (exchanged t g spans state.now n) }
{
    let mut total = size;
    for k in spans.adds..spans.deletes {
        if comes(numbers, spans, k, state, n, numbers[k]) {
            total += 1;
        }
    }
    total
}

// Whether the lent words have room for the state that is left when the deletes go out and the adds come in, where the
// preconditions hold before. Where there is room for every add, be it before or after the deletes have gone, nothing
// more needs to be counted.
pub(crate) fn has_room(numbers: &Numbers, spans: Spans, state: &[u16], n: usize) -> bool
    requires { (t : Task) × (g : ℕ → Fact) × UnderWay t g spans numbers.now state.now n ×
        AllHold t g 0 spans.adds state.now n }
    ensures { (t : Task) (g : ℕ → Fact) → UnderWay t g spans numbers.now state.now n →
        AllHold t g 0 spans.adds state.now n →
        result ≡ leb (length (exchanged t g spans state.now n)) (room_in state.now) }
{
    let room = state.len() / RECORD_SIZE;
    let adds = spans.deletes - spans.adds;
    if adds <= room - n {
        return true;
    }
    let size = size_without(numbers, spans, state, n);
    if adds <= room - size {
        return true;
    }
    size_with(numbers, spans, state, n, size) <= room
}
