// A task as planners that read PDDL take it: a domain and a problem.
#![tactic(auto)]

mod actions;
mod atoms;
mod names;
mod pairs;
mod reached;
mod writer;

ghost use Rattle.std.specs.Prelude.{◌≡◌};
ghost use Rattle.text.specs.Outcomes.{write_answer_told};
ghost use Rattle.defines.specs.Outcome.{pddl_outcome};

use task::{Reason, Refusal};
use writer::{has_room, put_pddl};

// No text is longer.
pub const LONGEST_PDDL: usize = 92158;

// Writes a table's task as a domain and a problem, each a line, and gives the number of bytes. Nothing is written before
// it is known that all of it fits.
pub fn write_pddl(table: &[u16], text: &mut [u8]) -> Result<u64, Refusal>
    ensures told { write_answer_told result ≡ (pddl_outcome table.now text.old).told }
    ensures written { text.new ≡ (pddl_outcome table.now text.old).buffer }
{
    task::judge_table(table)?;
    if !has_room(table, text.len()) {
        return Err(Refusal::nowhere(Reason::PddlTooLong));
    }
    Ok(put_pddl(text, table) as u64)
}
