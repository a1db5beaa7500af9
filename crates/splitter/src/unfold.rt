// `unfold` for a C host.
ghost use Rattle.std.specs.Prelude.{◌≡◌};
ghost use Rattle.splitter.specs.Telling.{Tells};
ghost use Rattle.task.specs.Answers.{told_value};
ghost use Rattle.blocks.specs.Blocks.{unfold_outcome};

use crate::telling::{refusal, result};

// Unfolds the steps of a table's task. The answer is 0 for a result, else the refusal's number.
#[unsafe(no_mangle)]
pub extern "C" fn splitter_unfold(
    table: &[u16],
    steps: &[u16],
    out: &mut [u16],
    place: &mut u64,
    split_steps: &mut u64,
) -> u32
    ensures tells { Tells (unfold_outcome table.now steps.now out.old).told
        result place.new }
    ensures out_after { out.new ≡
        (unfold_outcome table.now steps.now out.old).buffer }
    ensures split_steps_after { split_steps.new ≡
        told_value 0 (unfold_outcome table.now steps.now out.old).told }
{
    *split_steps = 0;
    match blocks::unfold(table, steps, out) {
        Ok(count) => {
            *split_steps = count;
            result(place)
        }
        Err(refused) => refusal(refused, place),
    }
}
