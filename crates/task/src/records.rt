// Records in lent words: a row of five words as one number, and finding, taking out and putting in a row.
ghost use Rattle.std.specs.Prelude.{◌≡◌, [], ◌∷◌, ℕ, ◌+◌, ◌-◌, ◌*◌, ◌≤◌, ◌<◌, length, get_or, take};
ghost use Rattle.words.specs.Lists.{padded};
ghost use Rattle.task.specs.Task.{Task, Fact};
ghost use Rattle.task.specs.Run.{holds, insert, state_in};
ghost use Rattle.task.specs.Limits.{record_size};
ghost use Rattle.words.specs.Words.{word_bound};
ghost use Rattle.task.specs.Records.{
  in_base,
  number_at,
  row_number,
  RowsAscend,
  LowerBound,
  RowIs,
  RowFor,
  MovedDown,
  MovedUp,
  Written,
  Replaced,
  Known,
  Keeps,
};

use crate::limits::RECORD_SIZE;

// A predicate and four arguments as one number.
#[tactic(auto, unfolding(crate::specs::Records::in_base))]
pub(crate) fn number_of(p: u16, a: u16, b: u16, c: u16, d: u16) -> u64
    ensures { result ≡ in_base p (a ∷ b ∷ c ∷ d ∷ []) }
{
    (((u64::from(p) * 1024 + u64::from(a)) * 1024 + u64::from(b)) * 1024 + u64::from(c)) * 1024
        + u64::from(d)
}

// The number of the row that begins at word `at`.
#[tactic(auto, unfolding(crate::specs::Records::number_at))]
fn number_at(state: &[u16], at: usize) -> u64
    requires { at + record_size ≤ length state.now }
    ensures { result ≡ number_at state.now at }
{
    number_of(
        state[at],
        state[at + 1],
        state[at + 2],
        state[at + 3],
        state[at + 4],
    )
}

// The first of n ascending rows whose number is not below `number`: lo and hi bracket it.
pub(crate) fn find(state: &[u16], n: usize, number: u64) -> usize
    requires n_in_bounds { record_size * n ≤ length state.now }
    requires rows_ascend { RowsAscend state.now n }
    ensures { LowerBound state.now n number result }
{
    let mut lo = 0;
    let mut hi = n;
    while lo < hi {
        let mid = lo + (hi - lo) / 2;
        if number_at(state, RECORD_SIZE * mid) < number {
            lo = mid + 1;
        } else {
            hi = mid;
        }
    }
    lo
}

// Moves the words behind `from` down by a row, so that words from `from` to `to` are new.
fn move_down(state: &mut [u16], from: usize, to: usize)
    requires { (from ≤ to) × (to + record_size ≤ length state.old) }
    ensures { MovedDown state.old from to state.new }
{
    state.copy_within(from + RECORD_SIZE..to + RECORD_SIZE, from);
}

// Moves the words from `from` to `to` up by a row.
fn move_up(state: &mut [u16], from: usize, to: usize)
    requires { (from ≤ to) × (to + record_size ≤ length state.old) }
    ensures { MovedUp state.old from to state.new }
{
    state.copy_within(from..to, from + RECORD_SIZE);
}

// Writes the five digits of a number from word `at` on.
fn write_at(state: &mut [u16], at: usize, number: u64)
    requires { (at + record_size ≤ length state.old) × (number < 72057594037927936) }
    ensures { Written state.old at number state.new }
{
    state[at] = (number / 1099511627776) as u16;
    state[at + 1] = (number / 1073741824 % 1024) as u16;
    state[at + 2] = (number / 1048576 % 1024) as u16;
    state[at + 3] = (number / 1024 % 1024) as u16;
    state[at + 4] = (number % 1024) as u16;
}

// Zeros from word `from` to the end.
pub(crate) fn clear_from(state: &mut [u16], from: usize)
    requires { from ≤ length state.old }
    ensures { state.new ≡ padded (length state.old) (take from state.old) }
{
    state[from..].fill(0);
}

// Whether row k is one of n rows and has this number.
pub(crate) fn is_row(state: &[u16], n: usize, k: usize, number: u64) -> bool
    requires { record_size * n ≤ length state.now }
    ensures { RowIs state.now n k number result }
{
    if k < n {
        number_at(state, RECORD_SIZE * k) == number
    } else {
        false
    }
}

// Whether one of n ascending rows has this number.
pub(crate) fn held(state: &[u16], n: usize, number: u64) -> bool
    requires n_in_bounds { record_size * n ≤ length state.now }
    requires rows_ascend { RowsAscend state.now n }
    ensures { (t : Task) (f : Fact) → Known t state.now n f number →
        result ≡ holds (state_in t state.now n) f }
{
    let k = find(state, n, number);
    is_row(state, n, k, number)
}

// A row with this number, where one of n ascending rows has it: the one to look at first, or what a search finds.
pub(crate) fn row_for(state: &[u16], n: usize, first: usize, number: u64) -> usize
    requires n_in_bounds { record_size * n ≤ length state.now }
    requires rows_ascend { RowsAscend state.now n }
    ensures { RowFor state.now n number result }
{
    if is_row(state, n, first, number) {
        first
    } else {
        find(state, n, number)
    }
}

// Takes row k out of n rows.
pub(crate) fn remove_row(state: &mut [u16], n: usize, k: usize)
    requires { (k < n) × (record_size * n ≤ length state.old) }
    ensures { MovedDown state.old (record_size * k) (record_size * (n - 1)) state.new }
{
    move_down(state, RECORD_SIZE * k, RECORD_SIZE * (n - 1));
}

// Puts a row with this number among n ascending rows, unless it is there, and returns how many there are then.
pub(crate) fn put_in(state: &mut [u16], n: usize, number: u64) -> usize
    requires n_in_bounds { record_size * n ≤ length state.old }
    requires rows_ascend { RowsAscend state.old n }
    requires by_index { (((i : ℕ) → i < n → row_number state.old i ≡ number → ⊥) →
        record_size * n + record_size ≤ length state.old) ×
        (number < 72057594037927936) }
    ensures { (t : Task) (f : Fact) → Known t state.old n f number →
        Keeps t state.new result (insert f (state_in t state.old n)) }
{
    let k = find(state, n, number);
    if is_row(state, n, k, number) {
        n
    } else {
        move_up(state, RECORD_SIZE * k, RECORD_SIZE * n);
        write_at(state, RECORD_SIZE * k, number);
        n + 1
    }
}

// Replaces row k by one with this number, whose place is before row j: the rows between the two places move.
pub(crate) fn replace(state: &mut [u16], k: usize, j: usize, number: u64)
    requires { (record_size * k + record_size ≤ length state.old) × (record_size * j ≤ length state.old) ×
        (number < 72057594037927936) }
    ensures { Replaced state.old k j number state.new }
{
    if j <= k {
        move_up(state, RECORD_SIZE * j, RECORD_SIZE * k);
        write_at(state, RECORD_SIZE * j, number);
    } else {
        move_down(state, RECORD_SIZE * k, RECORD_SIZE * (j - 1));
        write_at(state, RECORD_SIZE * (j - 1), number);
    }
}
