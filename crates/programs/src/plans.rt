// What `unfold` prints: the blocks of a plan's steps as a plan of the split, or the first refusal.
ghost use Rattle.std.specs.Prelude.{◌≡◌, true, ◌≤◌, length};
ghost use Rattle.task.specs.Table.{task_of, is_table};
ghost use Rattle.task.specs.Run.{steps_in};
ghost use Rattle.tokens.specs.Split.{split};
ghost use Rattle.blocks.specs.Blocks.{unfold_steps};
ghost use Rattle.text.specs.Plan.{read_plan, write_plan};
ghost use Rattle.text.specs.PlanCode.{longest_plan};
ghost use Rattle.programs.specs.Programs.{taken, print_reading, print_splitting, print_unfolding};
ghost use Rattle.programs.specs.Printing.{Prints, PlanChoices, PlanSteps};
ghost use Rattle.tokens.specs.Acceptance.{AcceptedKept};

use crate::inputs::bytes_taken;
use crate::printing::put_refusal;
use blocks::unfolding;
use task::limits::{MOST_PARTS, STEP_SIZE, TABLE_WORDS};
use task::steps::bad_step;
use task::{Reason, Refusal};
use text::plan::{PLAN_WORDS, read_plan, write_plan};
use tokens::acceptance::keep_accepted;
use tokens::kept::{KEPT_WORDS, Kept};
use tokens::measure::Sizes;
use tokens::writing::write_split;

// The words of 100 blocks of 16 parts.
const BLOCK_WORDS: usize = MOST_PARTS * PLAN_WORDS;

// The blocks of a plan's steps as a plan of the split, which is accepted and kept. The words hold every unfolding.
fn put_blocks(table: &[u16], kept: &Kept, sizes: Sizes, steps: &[u16], out: &mut [u8]) -> usize
    requires accepted_kept { AcceptedKept table.now sizes kept.now }
    requires plan_steps { PlanSteps table.now steps.now }
    requires longest_plan_in_bounds { longest_plan ≤ length out.old }
    ensures { let t = task_of table.now in
        Prints out.old (write_plan (unfold_steps t (steps_in t steps.now))) out.new result }
{
    let mut split_table = [0u16; TABLE_WORDS];
    write_split(table, kept, sizes, &mut split_table);
    let mut words = [0u16; BLOCK_WORDS];
    let end = unfolding::put_blocks(steps, kept, &mut words);
    write_plan(&split_table, &words[..end], out)
}

// "A step with equal objects there isn't a step of the task (12)": of a split that is accepted and kept the unfolding
// is printed, or the number of the first step that is none.
fn put_steps(table: &[u16], kept: &Kept, sizes: Sizes, steps: &[u16], out: &mut [u8]) -> usize
    requires accepted_kept { AcceptedKept table.now sizes kept.now }
    requires plan_choices { PlanChoices table.now steps.now }
    requires longest_plan_in_bounds { longest_plan ≤ length out.old }
    ensures { let t = task_of table.now in
        Prints out.old (print_unfolding t (steps_in t steps.now)) out.new result }
{
    if let Some(i) = bad_step(table, steps) {
        return put_refusal(out, Refusal::at_step(Reason::NotAStep, i));
    }
    put_blocks(table, kept, sizes, steps, out)
}

// "unfolding comes last": what it writes is printed, or what splitting refuses.
fn put_unfolding(table: &[u16], steps: &[u16], out: &mut [u8]) -> usize
    requires table_value { is_table table.now ≡ true }
    requires plan_choices { PlanChoices table.now steps.now }
    requires longest_plan_in_bounds { longest_plan ≤ length out.old }
    ensures { let t = task_of table.now in
        Prints out.old
        (print_splitting (λ t'. print_unfolding t (steps_in t steps.now)) (split t))
        out.new result }
{
    let mut kept = [0u16; KEPT_WORDS];
    match keep_accepted(table, &mut kept) {
        Ok(sizes) => put_steps(table, &kept, sizes, steps, out),
        Err(refused) => put_refusal(out, refused),
    }
}

// A plan of the table's task is read and its unfolding printed, or the refusal of a line.
pub fn put_plan(table: &[u16], plan: &[u8], out: &mut [u8]) -> usize
    requires table_value { is_table table.now ≡ true }
    requires longest_plan_in_bounds { longest_plan ≤ length out.old }
    ensures { let t = task_of table.now in
        Prints out.old
        (print_reading (λ steps. print_splitting (λ t'. print_unfolding t steps) (split t))
        (read_plan t (taken plan.now)))
        out.new result }
{
    let mut steps = [0u16; PLAN_WORDS];
    match read_plan(table, &plan[..bytes_taken(plan)], &mut steps) {
        Ok(count) => put_unfolding(table, &steps[..STEP_SIZE * count as usize], out),
        Err(refused) => put_refusal(out, refused),
    }
}
