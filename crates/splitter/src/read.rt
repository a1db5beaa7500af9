// `read` for a C host.
ghost use Rattle.std.specs.Prelude.{◌≡◌};
ghost use Rattle.splitter.specs.Telling.{Tells};
ghost use Rattle.text.specs.Outcomes.{read_outcome};

use crate::telling::{refusal, result};

// Reads a text into a table. The answer is 0 for a result, else the refusal's number.
#[unsafe(no_mangle)]
pub extern "C" fn splitter_read(text: &[u8], table: &mut [u16], place: &mut u64) -> u32
    ensures tells { Tells (read_outcome text.now table.old).told result place.new }
    ensures table_after { table.new ≡ (read_outcome text.now table.old).buffer }
{
    match text::read(text, table) {
        Ok(()) => result(place),
        Err(refused) => refusal(refused, place),
    }
}
