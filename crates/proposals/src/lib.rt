// A partition proposed for each schema of a task: parts are merged while they stay narrow together and some order of
// them still complies (document 02, notes 5 and 7).
#![tactic(auto)]

mod circle;
mod closing;
mod merging;
mod schemas;
pub mod scratch;
mod search;
mod sets;
mod start;
mod writing;

ghost use Rattle.std.specs.Prelude.{◌≡◌, true, ◌≤◌, length};
ghost use Rattle.task.specs.Limits.{table_words};
ghost use Rattle.task.specs.Table.{task_of, is_table};
ghost use Rattle.proposals.specs.Proposal.{proposed_task, too_many};
ghost use Rattle.proposals.specs.Outcome.{scratch_words, settled, propose_outcome, propose_answer_told};

use crate::schemas::all_parts;
use crate::scratch::{SCRATCH_WORDS, clear};
use crate::writing::write_proposed;
use task::limits::{MOST_PARAMETERS, MOST_SCHEMA_ATOMS, TABLE_WORDS};
use task::{Reason, Refusal};

// The part numbers of a table's schema atoms.
type Parts = [u16; MOST_SCHEMA_ATOMS];

// The parts are found before anything is written, since 23 leaves the second table as found.
fn propose_parts(
    table: &[u16],
    width: usize,
    proposed: &mut [u16],
    scratch: &mut [u64],
) -> Result<(), Refusal>
    requires table_value { is_table table.now ≡ true }
    requires table_words_in_bounds { table_words ≤ length proposed.old }
    requires scratch_words_in_bounds { scratch_words ≤ length scratch.old }
    ensures told { let t = proposed_task width (task_of table.now) in
        propose_answer_told result ≡
        (settled (too_many t) t (record { proposed = proposed.entry.now; scratch = scratch.old })).told }
    ensures lent { let t = proposed_task width (task_of table.now) in
        record { proposed = proposed.exit.now; scratch = scratch.new } ≡
        (settled (too_many t) t
        (record { proposed = proposed.entry.now; scratch = scratch.old })).buffer }
{
    let mut parts = [0u16; MOST_SCHEMA_ATOMS];
    let many = all_parts(table, width, &mut parts, scratch);
    clear(scratch);
    if let Some(s) = many {
        return Err(Refusal::at_schema(Reason::TooManyParts, s));
    }
    write_proposed(table, &parts, proposed);
    Ok(())
}

// Proposes a partition for each schema of a table's task: "Given a task and a width from 0 to 12, write its table with
// fresh parts to a second one".
pub fn propose(
    table: &[u16],
    width: u64,
    proposed: &mut [u16],
    scratch: &mut [u64],
) -> Result<(), Refusal>
    ensures told { propose_answer_told result ≡
        (propose_outcome table.now width proposed.old scratch.old).told }
    ensures written { proposed.new ≡
        (propose_outcome table.now width proposed.old scratch.old).buffer.proposed }
    ensures cleared { scratch.new ≡
        (propose_outcome table.now width proposed.old scratch.old).buffer.scratch }
{
    if table.len() < TABLE_WORDS || proposed.len() < TABLE_WORDS {
        return Err(Refusal::nowhere(Reason::ShortTable));
    }
    if !task::table::is_table(table) {
        return Err(Refusal::nowhere(Reason::NotATable));
    }
    if (MOST_PARAMETERS as u64) < width || scratch.len() < SCRATCH_WORDS {
        return Err(Refusal::nowhere(Reason::NoWidth));
    }
    propose_parts(table, width as usize, proposed, scratch)
}
