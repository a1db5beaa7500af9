// Unfolding: each step's block, part after part, from what is kept of the split.
ghost use Rattle.std.specs.Prelude.{◌+◌, ◌-◌, ◌*◌, ◌≤◌, ◌<◌, ◌≡◌, length};
ghost use Rattle.words.specs.Lists.{over, put};
ghost use Rattle.task.specs.Limits.{most_parameters, most_parts, step_size};
ghost use Rattle.task.specs.Task.{Task};
ghost use Rattle.task.specs.Run.{step_words, steps_in};
ghost use Rattle.blocks.specs.Blocks.{list_words, unfold_steps};
ghost use Rattle.blocks.specs.Unfolding.{StepKept, StepsKept, count_from, objects_for, part_from, parts_from};

use task::Parameter;
use task::limits::{MOST_PARAMETERS, STEP_SIZE};
use task::steps::{object_of, schema_at};
use tokens::kept::{Kept, count_of, first_of, own_at};
use words::putting::fill;
use words::sets;

// The objects of the parameters in a set, ascending, are put from `to` on.
fn put_objects(steps: &[u16], at: usize, own: u64, out: &mut [u16], to: usize)
    requires step_size_in_bounds { at + step_size ≤ length steps.now }
    requires most_parameters_in_bounds { to + most_parameters ≤ length out.old }
    ensures { out.new ≡
        put out.old to (objects_for steps.now at own most_parameters) }
{
    let mut next = to;
    for p in 0..MOST_PARAMETERS {
        if sets::none_from(own, p) {
            return;
        }
        if sets::has(own, p) {
            let object = object_of(steps, at, Parameter(p as u16));
            out[next] = object.0;
            next += 1;
        }
    }
}

// "its parts in order, each with that step's objects": the part at position j, put from `to` on. Its objects are put
// over twelve zeros, so that as many are put for every part, and the machine can put several at once.
fn put_part(steps: &[u16], at: usize, kept: &Kept, j: usize, out: &mut [u16], to: usize)
    requires step_kept { StepKept steps.now kept.now at }
    requires j_lt_most_parts { j < most_parts }
    requires step_size_in_bounds { to + step_size ≤ length out.old }
    ensures { out.new ≡ put out.old to
        (step_words (part_from steps.now kept.now at j)) }
{
    let s = schema_at(steps, at);
    out[to] = (first_of(kept, s) + j) as u16;
    fill(out, to + 1, MOST_PARAMETERS, 0);
    put_objects(steps, at, own_at(kept, s, j), out, to + 1);
}

// "A step's block is its parts in order": put from `to` on; the place behind it.
fn put_block(steps: &[u16], at: usize, kept: &Kept, out: &mut [u16], to: usize) -> usize
    requires step_kept { StepKept steps.now kept.now at }
    requires at_in_bounds { to + step_size * count_from steps.now kept.now at ≤ length out.old }
    ensures value { result ≡ to + step_size * count_from steps.now kept.now at }
    ensures out_after { out.new ≡ put out.old to (list_words
        (parts_from steps.now kept.now at
        (count_from steps.now kept.now at))) }
{
    let count = count_of(kept, schema_at(steps, at));
    let mut next = to;
    for j in 0..count {
        put_part(steps, at, kept, j, out, next);
        next += STEP_SIZE;
    }
    next
}

// "Unfolding writes the blocks one after another", of steps of a task whose split is accepted and kept: how many words
// they take.
pub fn put_blocks(steps: &[u16], kept: &Kept, out: &mut [u16]) -> usize
    requires { (t : Task) × StepsKept t steps.now kept.now ×
        (step_size * length (unfold_steps t (steps_in t steps.now)) ≤ length out.old) }
    ensures value { (t : Task) → StepsKept t steps.now kept.now →
        result ≡ step_size * length (unfold_steps t (steps_in t steps.now)) }
    ensures out_after { (t : Task) → StepsKept t steps.now kept.now →
        out.new ≡ over (list_words (unfold_steps t (steps_in t steps.now))) out.old }
{
    let count = steps.len() / STEP_SIZE;
    let mut next = 0;
    for i in 0..count {
        next = put_block(steps, STEP_SIZE * i, kept, out, next);
    }
    next
}

// How many split steps the blocks have.
pub fn split_steps_of(steps: &[u16], kept: &Kept) -> u64
    requires { (t : Task) × StepsKept t steps.now kept.now }
    ensures { (t : Task) → StepsKept t steps.now kept.now →
        result ≡ length (unfold_steps t (steps_in t steps.now)) }
{
    let count = steps.len() / STEP_SIZE;
    let mut total: u64 = 0;
    for i in 0..count {
        total += count_of(kept, schema_at(steps, STEP_SIZE * i)) as u64;
    }
    total
}
