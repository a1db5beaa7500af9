// Running a step list over a state in lent words.
ghost use Rattle.std.specs.Prelude.{◌≡◌, true, suc, ◌+◌, ◌*◌, ◌≤◌, ◌<◌, length, get_or};
ghost use Rattle.std.specs.Prelude.{None};
ghost use Rattle.task.specs.Layout.{head_in, goals_from, atom_total};
ghost use Rattle.task.specs.Table.{task_of, is_table, atom_in, fact_in};
ghost use Rattle.task.specs.Run.{
  step_at,
  is_step_at,
  bad_step,
  steps_in,
  state_in,
  room_in,
  is_state,
  holds,
  goal_met,
  run_within,
  run_done,
  run_answer_told,
};
ghost use Rattle.task.specs.Limits.{most_schemas, most_atoms, step_size};
ghost use Rattle.task.specs.Turns.{first_atom, Starts, RoleEnds, Turned, EndedAs, records_left};

use crate::exchange::exchange;
use crate::layout::{role_at, row_of, schema_number};
use crate::limits::{
    ADDITION, GOAL_ATOMS, INITIAL_ATOMS, MOST_ATOMS, MOST_SCHEMAS, PRECONDITION, RECORD_SIZE,
    SCHEMA_ATOMS, STEP_SIZE,
};
use crate::records::{clear_from, held};
use crate::sizes::has_room;
use crate::spans::{Numbers, Rows, Spans, all_hold, fact_number, ground_all};
use crate::{Ran, Reason, Refusal, RunError};
use words::runs::word;

// Where a list stopped and why: refusal 16 or 17, the step, and the records left before it.
#[derive(Clone, Copy)]
pub struct Stop {
    pub reason: Reason,
    pub step: usize,
    pub left: usize,
}

// Writes where the atoms of each schema begin, and behind the last schema where they end.
fn schema_starts(table: &[u16], starts: &mut [u16; MOST_SCHEMAS + 1])
    requires table_value { is_table table.now ≡ true }
    requires starts_len { (length starts.old ≡ most_schemas + 1) × (get_or starts.old 0 0 ≡ 0) }
    ensures { (length starts.new ≡ most_schemas + 1) ×
        Starts (task_of table.now) starts.new }
{
    let count = word(table, SCHEMA_ATOMS);
    for k in 0..count {
        starts[schema_number(table, k) + 1] = (k + 1) as u16;
    }
}

// The role of a schema's atom k.
fn role_of(table: &[u16], k: usize) -> u16
    requires table_value { is_table table.now ≡ true }
    requires k_bound { k < (head_in table.now).schema_atoms }
    ensures { result ≡ (atom_in table.now k).role }
{
    role_at(table, row_of(table, k))
}

// The first atom from `from` on that has another role, or `to`.
fn role_end(table: &[u16], from: usize, to: usize, role: u16) -> usize
    requires table_value { is_table table.now ≡ true }
    requires from_le_to { (from ≤ to) × (to ≤ (head_in table.now).schema_atoms) }
    ensures { RoleEnds table.now from to role result }
{
    (from..to)
        .find(|k| role_of(table, *k) != role)
        .unwrap_or(to)
}

// Runs step i, whose schema has the atoms from `start` to `end`: deletes go out, then adds come in. Its numbers and the
// rows of its preconditions stand in lent arrays.
fn run_step(
    table: &[u16],
    start: usize,
    end: usize,
    steps: &[u16],
    i: usize,
    state: &mut [u16],
    n: usize,
    numbers: &mut Numbers,
    rows: &mut Rows,
) -> Result<usize, Reason>
    requires table_value { is_table table.now ≡ true }
    requires i_value { is_step_at (task_of table.now) steps.now i ≡ true }
    requires start_value { start ≡ first_atom (task_of table.now) (get_or steps.now (step_size * i) 0) }
    requires end_value { end ≡ first_atom (task_of table.now) (suc (get_or steps.now (step_size * i) 0)) }
    requires n_value { is_state (task_of table.now) state.old n ≡ true }
    requires numbers_len { length numbers.old ≡ most_atoms }
    ensures turned { Turned (task_of table.now) (step_at (task_of table.now) steps.now i)
        state.old n result state.new }
    ensures numbers_len_2 { length numbers.new ≡ most_atoms }
{
    let add = role_end(table, start, end, PRECONDITION);
    let del = role_end(table, add, end, ADDITION);
    let spans = Spans {
        adds: add - start,
        deletes: del - start,
        end: end - start,
    };
    ground_all(table, start, end, steps, i, numbers);
    if !all_hold(numbers, spans, state, n, rows) {
        return Err(Reason::MissingPrecondition);
    }
    if !has_room(numbers, spans, state, n) {
        return Err(Reason::StateTooLarge);
    }
    Ok(exchange(numbers, rows, spans, state, n))
}

// Whether the goal atom at index k of the table's atoms holds.
fn goal_holds(table: &[u16], state: &[u16], n: usize, k: usize) -> bool
    requires table_value { is_table table.now ≡ true }
    requires n_value { is_state (task_of table.now) state.now n ≡ true }
    requires k_bound { (goals_from table.now ≤ k) × (k < atom_total table.now) }
    ensures { result ≡ holds (state_in (task_of table.now) state.now n) (fact_in table.now k) }
{
    held(state, n, fact_number(table, k))
}

// Whether all goal atoms hold.
fn goal_met(table: &[u16], state: &[u16], n: usize) -> bool
    requires table_value { is_table table.now ≡ true }
    requires n_value { is_state (task_of table.now) state.now n ≡ true }
    ensures { result ≡ goal_met (task_of table.now)
        (state_in (task_of table.now) state.now n) }
{
    let from = word(table, SCHEMA_ATOMS) + word(table, INITIAL_ATOMS);
    let to = from + word(table, GOAL_ATOMS);
    (from..to).all(|k| goal_holds(table, state, n, k))
}

// Runs the steps one after another, up to the first that doesn't run or whose next state is outgrown.
fn run_list(
    table: &[u16],
    starts: &[u16],
    steps: &[u16],
    state: &mut [u16],
    n: usize,
) -> Result<usize, Stop>
    requires table_value { is_table table.now ≡ true }
    requires starts_len { (length starts.now ≡ most_schemas + 1) × Starts (task_of table.now) starts.now }
    requires steps_value { bad_step (task_of table.now) steps.now ≡ None }
    requires n_value { is_state (task_of table.now) state.old n ≡ true }
    ensures result_after { is_state (task_of table.now) state.new (records_left result) ≡ true }
    ensures ended { EndedAs result (state_in (task_of table.now) state.new (records_left result))
        (run_within (room_in state.old) (task_of table.now)
        (steps_in (task_of table.now) steps.now)
        (state_in (task_of table.now) state.old n)) }
{
    let mut numbers = [0u64; MOST_ATOMS];
    let mut rows = [0usize; MOST_ATOMS];
    let count = steps.len() / STEP_SIZE;
    let mut left = n;
    for i in 0..count {
        let schema = steps[STEP_SIZE * i] as usize;
        let start = starts[schema] as usize;
        let end = starts[schema + 1] as usize;
        let turn = run_step(
            table,
            start,
            end,
            steps,
            i,
            state,
            left,
            &mut numbers,
            &mut rows,
        );
        match turn {
            Ok(m) => left = m,
            Err(reason) => {
                return Err(Stop {
                    reason,
                    step: i,
                    left,
                });
            }
        }
    }
    Ok(left)
}

// Runs a checked step list over a checked state in place, and puts zeros behind the records left.
pub(crate) fn run_steps(
    table: &[u16],
    steps: &[u16],
    state: &mut [u16],
    records: u64,
) -> Result<Ran, RunError>
    requires table_value { is_table table.now ≡ true }
    requires steps_value { bad_step (task_of table.now) steps.now ≡ None }
    requires records_value { is_state (task_of table.now) state.old records ≡ true }
    ensures result_value { run_answer_told result ≡ (run_done (task_of table.now) (length state.old)
        (run_within (room_in state.old) (task_of table.now)
        (steps_in (task_of table.now) steps.now)
        (state_in (task_of table.now) state.old records))).told }
    ensures state_after { state.new ≡ (run_done (task_of table.now) (length state.old)
        (run_within (room_in state.old) (task_of table.now)
        (steps_in (task_of table.now) steps.now)
        (state_in (task_of table.now) state.old records))).buffer }
{
    let mut starts = [0u16; MOST_SCHEMAS + 1];
    schema_starts(table, &mut starts);
    match run_list(table, &starts, steps, state, records as usize) {
        Ok(left) => {
            let goal = goal_met(table, state, left);
            clear_from(state, RECORD_SIZE * left);
            Ok(Ran {
                left: left as u64,
                goal,
            })
        }
        Err(stop) => {
            clear_from(state, RECORD_SIZE * stop.left);
            Err(RunError::Stopped {
                refusal: Refusal::at_step(stop.reason, stop.step as u64),
                left: stop.left as u64,
            })
        }
    }
}
