// `write_pddl` for a C host.
ghost use Rattle.std.specs.Prelude.{◌≡◌};
ghost use Rattle.splitter.specs.Telling.{Tells};
ghost use Rattle.task.specs.Answers.{told_value};
ghost use Rattle.defines.specs.Outcome.{pddl_outcome};

use crate::telling::{refusal, result};

// Writes a table's task as a domain and a problem. The answer is 0 for a result, else the refusal's number.
#[unsafe(no_mangle)]
pub extern "C" fn splitter_write_pddl(
    table: &[u16],
    text: &mut [u8],
    place: &mut u64,
    bytes: &mut u64,
) -> u32
    ensures tells { Tells (pddl_outcome table.now text.old).told result place.new }
    ensures text_after { text.new ≡ (pddl_outcome table.now text.old).buffer }
    ensures bytes_after { bytes.new ≡ told_value 0 (pddl_outcome table.now text.old).told }
{
    *bytes = 0;
    match defines::write_pddl(table, text) {
        Ok(count) => {
            *bytes = count;
            result(place)
        }
        Err(refused) => refusal(refused, place),
    }
}
