// `fold` for a C host.
ghost use Rattle.std.specs.Prelude.{◌≡◌};
ghost use Rattle.splitter.specs.Telling.{Tells};
ghost use Rattle.task.specs.Answers.{told_value};
ghost use Rattle.blocks.specs.Blocks.{fold_outcome};

use crate::telling::{refusal, result};

// Folds a list of steps of the split of a table's task. The answer is 0 for a result, else the refusal's number.
#[unsafe(no_mangle)]
pub extern "C" fn splitter_fold(
    table: &[u16],
    split: &[u16],
    out: &mut [u16],
    place: &mut u64,
    split_steps: &mut u64,
    steps: &mut u64,
) -> u32
    ensures tells { Tells (fold_outcome table.now split.now out.old).told
        result place.new }
    ensures out_after { out.new ≡
        (fold_outcome table.now split.now out.old).buffer }
    ensures split_steps_after { split_steps.new ≡
        told_value 0 (fold_outcome table.now split.now out.old).told }
    ensures steps_after { steps.new ≡
        told_value 1 (fold_outcome table.now split.now out.old).told }
{
    *split_steps = 0;
    *steps = 0;
    match blocks::fold(table, split, out) {
        Ok(folded) => {
            *split_steps = folded.split_steps;
            *steps = folded.steps;
            result(place)
        }
        Err(refused) => refusal(refused, place),
    }
}
