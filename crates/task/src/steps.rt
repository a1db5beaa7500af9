// "A step is 13 words: schema, one object per parameter, zeros": what a list's first bad step is, refusal 12.
ghost use Rattle.std.specs.Prelude.{◌≡◌, true, ◌&&◌, ℕ, ◌*◌, ◌/◌, ◌≤◌, ◌+◌, ◌-◌, ◌<◌, length, get_or, eqb};
ghost use Rattle.words.specs.Lists.{all, up_from, up_to};
ghost use Rattle.task.specs.Limits.{most_parameters, step_size, pair_size};
ghost use Rattle.task.specs.Layout.{head_in, pairs_base};
ghost use Rattle.task.specs.Table.{task_of, is_table};
ghost use Rattle.task.specs.Run.{is_step_at, bad_step};
ghost use Rattle.task.specs.StepTests.{limits_for, is_within, objects_then_zeros, words_differ, apart_at, PairsFew};
ghost use Rattle.task.specs.StepTests.{rows_apart};
ghost use Rattle.task.specs.Choices.{ChoiceTold, EqualTold};

use crate::layout::{object_count, pairs_base, param_count, schema_count};
use crate::limits::{HIGHER, LOWER, MOST_PARAMETERS, PAIR_SIZE, PAIRS, STEP_SIZE};
use crate::{Object, Parameter};
use words::putting::fill;
use words::runs::{wide, word};

// The schema of the step whose words begin at `at`.
pub fn schema_at(steps: &[u16], at: usize) -> usize
    requires { at < length steps.now }
    ensures { result ≡ get_or steps.now at 0 }
{
    wide(steps[at])
}

// The object that it has for a parameter.
pub fn object_of(steps: &[u16], at: usize, parameter: Parameter) -> Object
    requires { at + 1 + parameter.0 < length steps.now }
    ensures { result.0 ≡ get_or steps.now (at + 1 + parameter.0) 0 }
{
    Object(steps[at + 1 + parameter.0 as usize])
}

// What the words behind a step's schema must be below: an object below the count of objects, an unused word below 1.
// The limits of a step with n parameters are the twelve that begin at 12 - n.
pub type Limits = [u16; 2 * MOST_PARAMETERS];

// The limits of the steps of a task with so many objects.
pub fn limits_of(objects: u16) -> Limits
    ensures { result ≡ limits_for objects }
{
    let mut limits = [1; 2 * MOST_PARAMETERS];
    fill(&mut limits, 0, MOST_PARAMETERS, objects);
    limits
}

// As many words as the machine compares at once.
const AT_ONCE: usize = 8;

// 0 where the words from one place to another, of the twelve behind the schema of the step at `at`, are below their
// limits. All are compared before the answer is taken, so that the machine can take them at once.
fn beyond(steps: &[u16], at: usize, params: usize, limits: &Limits, first: usize, end: usize) -> u16
    requires { (at + step_size ≤ length steps.now) × (params ≤ most_parameters) × (end ≤ most_parameters) }
    ensures { eqb result 0 ≡ all (is_within steps.now (at + 1) params limits.now)
        (up_from first (end - first)) }
{
    let mut found: u16 = 0;
    for k in first..end {
        if limits[MOST_PARAMETERS - params + k] <= steps[at + 1 + k] {
            found = 1;
        }
    }
    found
}

// Whether those words are so many objects, then zeros. Two runs take them all, and four of them twice.
pub fn are_within(steps: &[u16], at: usize, params: usize, limits: &Limits) -> bool
    requires { (at + step_size ≤ length steps.now) × (params ≤ most_parameters) }
    ensures { (objects : ℕ) → limits.now ≡ limits_for objects →
        result ≡ objects_then_zeros objects steps.now (at + 1) params }
{
    let last = MOST_PARAMETERS - AT_ONCE;
    let front = beyond(steps, at, params, limits, 0, AT_ONCE);
    let back = beyond(steps, at, params, limits, last, MOST_PARAMETERS);
    front | back == 0
}

// Whether the step at `at` has different objects at the pair whose row begins at `row`.
fn differ_at(rows: &[u16], row: usize, steps: &[u16], at: usize) -> bool
    requires pair_size_in_bounds { row + pair_size ≤ length rows.now }
    requires row_bound { (get_or rows.now (row + 1) 0 < most_parameters) × (get_or rows.now (row + 2) 0 < most_parameters) }
    requires step_size_in_bounds { at + step_size ≤ length steps.now }
    ensures { let words = rows.now in
        result ≡ words_differ steps.now (at + 1) (record {
          lower = get_or words (row + 1) 0;
          higher = get_or words (row + 2) 0;
        }) }
{
    let lower = word(rows, row + LOWER);
    let higher = word(rows, row + HIGHER);
    word(steps, at + 1 + lower) != word(steps, at + 1 + higher)
}

// "A step with equal objects there isn't a step of the task": whether the step of a schema at `at` has different
// objects at each pair of the schema, of `count` rows of pairs that begin at `base`.
pub fn keep_apart(
    rows: &[u16],
    base: usize,
    count: usize,
    steps: &[u16],
    at: usize,
    schema: usize,
) -> bool
    requires count_in_bounds { base + pair_size * count ≤ length rows.now }
    requires pairs_few { PairsFew rows.now base count }
    requires step_size_in_bounds { at + step_size ≤ length steps.now }
    ensures { result ≡ all (apart_at rows.now base steps.now (at + 1) schema) (up_to count) }
{
    (0..count).all(|i| {
        let row = base + PAIR_SIZE * i;
        word(rows, row) != schema || differ_at(rows, row, steps, at)
    })
}

// Whether the list's words have at index i a whole step of the task, but for its pairs: a known schema, so many
// objects, then zeros.
fn is_choice(table: &[u16], steps: &[u16], i: usize, limits: &Limits) -> bool
    requires table_value { is_table table.now ≡ true }
    requires i_in_bounds { step_size * i ≤ length steps.now }
    requires limits_value { limits.now ≡ limits_for (task_of table.now).objects }
    ensures i_value { let w = table.now in
        is_step_at (task_of w) steps.now i ≡ result && rows_apart w steps.now i }
    ensures step_size_in_bounds { result ≡ true → step_size * i + step_size ≤ length steps.now }
{
    let at = STEP_SIZE * i;
    if steps.len() - at < STEP_SIZE {
        return false;
    }
    let schema = steps[at];
    if schema_count(table) <= schema {
        return false;
    }
    are_within(steps, at, param_count(table, schema), limits)
}

// How many steps a list begins: words left over begin one.
fn begun_steps(steps: &[u16]) -> usize
    ensures { result ≡ (length steps.now + 12) / step_size }
{
    (steps.len() + STEP_SIZE - 1) / STEP_SIZE
}

// The first step that is none of this task, or incomplete, whatever its pairs. No pair is asked for from step to step:
// even whether there is one took a quarter of the time.
fn bad_choice(table: &[u16], steps: &[u16], begun: usize) -> Option<usize>
    requires table_value { is_table table.now ≡ true }
    requires begun_value { begun ≡ (length steps.now + 12) / step_size }
    ensures { ChoiceTold table.now steps.now begun result }
{
    let limits = limits_of(object_count(table));
    (0..begun).find(|i| !is_choice(table, steps, *i, &limits))
}

// Whether step i, a whole one, has different objects at each pair of its schema: of so many pairs of the table, which
// begin at `base`.
fn is_apart(table: &[u16], base: usize, pairs: usize, steps: &[u16], i: usize) -> bool
    requires table_value { is_table table.now ≡ true }
    requires base_value { base ≡ pairs_base table.now }
    requires pairs_value { pairs ≡ (head_in table.now).pairs }
    requires whole { step_size * i + step_size ≤ length steps.now }
    ensures { result ≡ rows_apart table.now steps.now i }
{
    let at = STEP_SIZE * i;
    keep_apart(table, base, pairs, steps, at, schema_at(steps, at))
}

// Of the steps before `end`, each whole, the first with equal objects at a pair of its schema, of so many of the table.
fn first_equal(table: &[u16], steps: &[u16], end: usize, pairs: usize) -> Option<usize>
    requires table_value { is_table table.now ≡ true }
    requires pairs_value { pairs ≡ (head_in table.now).pairs }
    requires whole { (k : ℕ) → k < end → step_size * k + step_size ≤ length steps.now }
    ensures { EqualTold table.now steps.now end result }
{
    let base = pairs_base(table);
    (0..end).find(|i| !is_apart(table, base, pairs, steps, *i))
}

// The first step that is none of this task, or incomplete.
fn first_bad(table: &[u16], steps: &[u16]) -> Option<usize>
    requires { is_table table.now ≡ true }
    ensures { result ≡ bad_step (task_of table.now) steps.now }
{
    let begun = begun_steps(steps);
    let choice = bad_choice(table, steps, begun);
    let pairs = word(table, PAIRS);
    if pairs == 0 {
        return choice;
    }
    first_equal(table, steps, choice.unwrap_or(begun), pairs).or(choice)
}

// The same, as an answer tells it.
pub fn bad_step(table: &[u16], steps: &[u16]) -> Option<u64>
    requires { is_table table.now ≡ true }
    ensures { result ≡ bad_step (task_of table.now) steps.now }
{
    first_bad(table, steps).map(|i| i as u64)
}
