// The text of a plan: "at most 100 `step=` lines, schema, colon, objects; then `end=1`". Read into 13-word steps of a
// task, or refused at a line; and written from them.
ghost use Rattle.std.specs.Prelude.{◌≡◌, true, List, ℕ, ◌+◌, ◌*◌, ◌^◌, ◌≤◌, ◌<◌, length, get_or, take};
ghost use Rattle.std.specs.Prelude.{None};
ghost use Rattle.words.specs.Lists.{over};
ghost use Rattle.task.specs.declared.Place.TheVariants.{Line};
ghost use Rattle.task.specs.Task.{Task};
ghost use Rattle.task.specs.Table.{task_of, is_table};
ghost use Rattle.task.specs.Run.{Step, is_choice, step_words, steps_in, bad_step};
ghost use Rattle.text.specs.Lines.{ended, number, entry};
ghost use Rattle.text.specs.Plan.{plan_words, step_line, end_line, next_plan_line, write_plan};
ghost use Rattle.text.specs.Outcomes.{plan_outcome, plan_answer_told};
ghost use Rattle.text.specs.Writes.{Writes};
ghost use Rattle.text.specs.ReadCode.{rest, Placed, Listed, Wrote};
ghost use Rattle.text.specs.PlanCode.{step_of, PlanTurned, step_text};
ghost use Rattle.words.specs.Words.{word_bound};
ghost use Rattle.task.specs.Limits.{most_parameters, step_size};

use crate::checks::all_below;
use crate::counted::{write_bytes, write_entry};
use crate::cursor::Cursor;
use crate::lists::{entry_line, one_line};
use crate::storing::{clear, put_words};
use task::layout::{object_count, param_count, schema_count};
use task::limits::{MOST_PARAMETERS, STEP_SIZE};
use task::{Reason, Refusal};

// What a line does that is not refused: reading goes on with a step more, or has come to its end.
#[derive(Clone, Copy, Debug, PartialEq, Eq)]
pub enum PlanTurn {
    GoOn(Cursor),
    Finish(Cursor),
}

// "at most 100 `step=` lines".
const MOST_STEPS: usize = 100;

// The words of so many steps.
pub const PLAN_WORDS: usize = STEP_SIZE * MOST_STEPS;

// No plan unfolds to a longer text: 1,600 steps of a schema below 200 and at most 12 objects below 1,000 take 57 bytes
// each, `end` takes 6.
pub const LONGEST_PLAN: usize = 91206;

// Refusal 5: "a wrong schema, object or number of objects".
fn is_choice(table: &[u16], schema: u32, objects: &[u32], count: usize) -> bool
    requires table_value { is_table table.now ≡ true }
    requires objects_len { length objects.now ≡ most_parameters }
    ensures { (ns : List ℕ) → Listed ns count objects.now →
        result ≡ is_choice (task_of table.now) (step_of schema ns) }
{
    if schema_count(table) as u32 <= schema {
        return false;
    }
    if param_count(table, schema as u16) != count {
        return false;
    }
    all_below(&objects[..count], object_count(table) as u32)
}

// "schema, one object per parameter, zeros": puts a step's words at a place.
fn put_step(steps: &mut [u16], at: usize, schema: u32, objects: &[u32])
    requires step_size_in_bounds { at + step_size ≤ length steps.old }
    requires schema_lt_word_bound { (schema < word_bound) × (length objects.now ≤ most_parameters) }
    requires by_index { (k : ℕ) → k < length objects.now → get_or objects.now k 0 < word_bound }
    ensures { Wrote steps.old at step_size
        (λ k. get_or (step_words (step_of schema objects.now)) k 0) steps.new }
{
    steps[at] = schema as u16;
    put_words(steps, at + 1, objects);
    clear(
        steps,
        at + 1 + objects.len(),
        MOST_PARAMETERS - objects.len(),
    );
}

// The body of a `step` line, behind n steps: "a line out of form is 3, a 101st step 4, a wrong schema, object or number
// of objects 5".
fn step_line(
    table: &[u16],
    text: &[u8],
    from: Cursor,
    steps: &mut [u16],
    n: usize,
) -> Result<PlanTurn, Reason>
    requires table_value { is_table table.now ≡ true }
    requires placed { Placed text.now from }
    requires plan_words_in_bounds { plan_words ≤ length steps.old }
    ensures { let bs = text.now in
        ((xs : List Step) → length xs ≡ n →
        PlanTurned (task_of table.now) bs from xs (ended step_line (entry (rest bs from)))
        steps.old result steps.new) }
{
    let mut objects = [0u32; MOST_PARAMETERS];
    let Some((schema, count, next)) = entry_line(text, from, &mut objects) else {
        return Err(Reason::OutOfForm);
    };
    if MOST_STEPS <= n {
        return Err(Reason::OutsideLimits);
    }
    if !is_choice(table, schema, &objects, count) {
        return Err(Reason::WrongAtom);
    }
    put_step(steps, STEP_SIZE * n, schema, &objects[..count]);
    Ok(PlanTurn::GoOn(next))
}

// The body of an `end` line: "end=1".
fn last_line(text: &[u8], from: Cursor) -> Result<PlanTurn, Reason>
    requires { Placed text.now from }
    ensures { let bs = text.now in
        ((t : Task) (xs : List Step) (w : List ℕ) →
        PlanTurned t bs from xs (ended end_line (number (rest bs from))) w result w) }
{
    let Some(next) = one_line(text, from) else {
        return Err(Reason::OutOfForm);
    };
    Ok(PlanTurn::Finish(next))
}

// The turn at a line, behind n steps.
fn plan_line(
    table: &[u16],
    text: &[u8],
    from: Cursor,
    steps: &mut [u16],
    n: usize,
) -> Result<PlanTurn, Reason>
    requires table_value { is_table table.now ≡ true }
    requires placed { Placed text.now from }
    requires plan_words_in_bounds { plan_words ≤ length steps.old }
    ensures { let bs = text.now in
        ((xs : List Step) → length xs ≡ n →
        PlanTurned (task_of table.now) bs from xs (next_plan_line xs (rest bs from))
        steps.old result steps.new) }
{
    if let Some(body) = from.word(text, b"step=") {
        return step_line(table, text, body, steps, n);
    }
    if let Some(body) = from.word(text, b"end=") {
        return last_line(text, body);
    }
    Err(Reason::OutOfForm)
}

// A refused plan leaves the words of 100 steps 0.
fn refused(steps: &mut [u16], reason: Reason, line: u64) -> Refusal
    requires { plan_words ≤ length steps.old }
    ensures value { result ≡ record { reason = reason; place = Line line } }
    ensures wrote { Wrote steps.old 0 plan_words (λ k. 0) steps.new }
{
    clear(steps, 0, PLAN_WORDS);
    Refusal::at_line(reason, line)
}

// Reads a plan of a table's task, and gives the number of its steps: they come to stand at the front of the lent words,
// which have room for 100.
pub fn read_plan(table: &[u16], text: &[u8], steps: &mut [u16]) -> Result<u64, Refusal>
    requires table_value { is_table table.now ≡ true }
    requires plan_words_in_bounds { plan_words ≤ length steps.old }
    ensures told { plan_answer_told result ≡
        (plan_outcome table.now text.now steps.old).told }
    ensures words { steps.new ≡
        (plan_outcome table.now text.now steps.old).buffer }
{
    let mut cursor = Cursor::start();
    let mut n: usize = 0;
    loop {
        match plan_line(table, text, cursor, steps, n) {
            Err(reason) => {
                return Err(refused(steps, reason, cursor.line));
            }
            Ok(PlanTurn::Finish(next)) => {
                if next.at < text.len() {
                    return Err(refused(steps, Reason::OutOfForm, next.line));
                }
                return Ok(n as u64);
            }
            Ok(PlanTurn::GoOn(next)) => {
                n += 1;
                cursor = next;
            }
        }
    }
}

// The line of the step whose words begin at `base`: "schema, colon, objects".
fn write_step(text: &mut [u8], at: usize, words: &[u16], base: usize, params: usize) -> usize
    requires params_in_bounds { base + 1 + params ≤ length words.now }
    requires params_bound { at + length (step_text words.now base params) < 2 ^ 64 }
    ensures { Writes text.old at (step_text words.now base params) text.new result }
{
    let at_schema = write_bytes(text, at, b"step=");
    write_entry(text, at_schema, words[base], words, base + 1, params)
}

// Writes the plan whose steps are these words, steps of a table's task, and gives the number of bytes.
pub fn write_plan(table: &[u16], words: &[u16], text: &mut [u8]) -> usize
    requires table_value { is_table table.now ≡ true }
    requires words_value { bad_step (task_of table.now) words.now ≡ None }
    requires words_in_bounds { length (write_plan (steps_in (task_of table.now) words.now)) ≤ length text.old }
    ensures size { result ≡ length (write_plan (steps_in (task_of table.now) words.now)) }
    ensures bytes { text.new ≡
        over (write_plan (steps_in (task_of table.now) words.now)) text.old }
{
    let mut next = 0;
    let count = words.len() / STEP_SIZE;
    for i in 0..count {
        let base = STEP_SIZE * i;
        let params = param_count(table, words[base]);
        next = write_step(text, next, words, base, params);
    }
    write_bytes(text, next, b"end=1\n")
}
