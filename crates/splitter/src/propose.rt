// `propose` for a C host.
ghost use Rattle.std.specs.Prelude.{◌≡◌};
ghost use Rattle.splitter.specs.Telling.{Tells};
ghost use Rattle.proposals.specs.Outcome.{propose_outcome};

use crate::telling::{refusal, result};

// Proposes a partition for each schema of a table's task. The answer is 0 for a result, else the refusal's number.
#[tactic(auto, unfolding(proposals::specs::Outcome::propose_answer_told))]
#[unsafe(no_mangle)]
pub extern "C" fn splitter_propose(
    table: &[u16],
    width: u64,
    proposed: &mut [u16],
    scratch: &mut [u64],
    place: &mut u64,
) -> u32
    ensures tells { Tells
        (propose_outcome table.now width proposed.old scratch.old).told
        result place.new }
    ensures proposed_after { proposed.new ≡
        (propose_outcome table.now width proposed.old scratch.old).buffer.proposed }
    ensures scratch_after { scratch.new ≡
        (propose_outcome table.now width proposed.old scratch.old).buffer.scratch }
{
    match proposals::propose(table, width, proposed, scratch) {
        Ok(()) => result(place),
        Err(refused) => refusal(refused, place),
    }
}
