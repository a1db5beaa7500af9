// `run` for a C host.
ghost use Rattle.std.specs.Prelude.{◌≡◌};
ghost use Rattle.splitter.specs.Telling.{Tells};
ghost use Rattle.task.specs.Answers.{told_value};
ghost use Rattle.task.specs.Run.{run_outcome};

use crate::telling::{refusal, result};
use task::RunError;

// Runs a list of steps in a state. The answer is 0 for a result, else the refusal's number.
#[tactic(auto, unfolding(task::specs::Run::run_answer_told, task::specs::Run::bit))]
#[unsafe(no_mangle)]
pub extern "C" fn splitter_run(
    table: &[u16],
    steps: &[u16],
    state: &mut [u16],
    records: u64,
    place: &mut u64,
    left: &mut u64,
    goal: &mut u64,
) -> u32
    ensures tells { Tells (run_outcome table.now steps.now state.old records).told
        result place.new }
    ensures state_after { state.new ≡
        (run_outcome table.now steps.now state.old records).buffer }
    ensures left_after { left.new ≡
        told_value 0 (run_outcome table.now steps.now state.old records).told }
    ensures goal_after { goal.new ≡
        told_value 1 (run_outcome table.now steps.now state.old records).told }
{
    *left = 0;
    *goal = 0;
    match task::run(table, steps, state, records) {
        Ok(ran) => {
            *left = ran.left;
            *goal = u64::from(ran.goal);
            result(place)
        }
        Err(RunError::Refused(refused)) => refusal(refused, place),
        Err(
            RunError::Stopped {
                refusal: refused,
                left: kept,
            },
        ) => {
            *left = kept;
            refusal(refused, place)
        }
    }
}
