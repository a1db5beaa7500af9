// A state is "kept as ascending 5-word records (predicate, four arguments, unused 0)": whether words are one, by
// refusal 15.
ghost use Rattle.std.specs.Prelude.{◌≡◌, true, ◌+◌, ◌*◌, ◌≤◌, length};
ghost use Rattle.task.specs.Table.{task_of, is_table};
ghost use Rattle.task.specs.Limits.{record_size};
ghost use Rattle.task.specs.Run.{is_state};
ghost use Rattle.task.specs.StateTests.{is_record_at, record_stands};

use crate::layout::{arity, object_count, predicate_count};
use crate::limits::RECORD_SIZE;
use crate::objects::{are_objects, are_zero};
use words::runs::{less_words, wide};

// Whether record i is that of a ground atom of the task.
pub fn is_record(table: &[u16], state: &[u16], i: usize) -> bool
    requires table_value { is_table table.now ≡ true }
    requires record_size_in_bounds { record_size * i + record_size ≤ length state.now }
    ensures { result ≡ is_record_at (task_of table.now) state.now i }
{
    let at = RECORD_SIZE * i;
    let predicate = state[at];
    if predicate_count(table) <= predicate {
        return false;
    }
    let args = arity(table, wide(predicate));
    if !are_objects(state, at + 1, args, object_count(table)) {
        return false;
    }
    are_zero(state, at + 1 + args, RECORD_SIZE - 1 - args)
}

// Whether record i is that of a ground atom of the task, and comes behind the one before it.
fn record_stands(table: &[u16], state: &[u16], i: usize) -> bool
    requires table_value { is_table table.now ≡ true }
    requires record_size_in_bounds { record_size * i + record_size ≤ length state.now }
    ensures { result ≡ record_stands (task_of table.now) state.now i }
{
    is_record(table, state, i)
        && (i == 0 || less_words(state, RECORD_SIZE * (i - 1), RECORD_SIZE * i, RECORD_SIZE))
}

// Whether the first so many records of the words are a state of the task.
pub fn is_state(table: &[u16], state: &[u16], records: u64) -> bool
    requires { is_table table.now ≡ true }
    ensures { result ≡ is_state (task_of table.now) state.now records }
{
    let room = state.len() / RECORD_SIZE;
    if (room as u64) < records {
        return false;
    }
    (0..records as usize).all(|i| record_stands(table, state, i))
}
