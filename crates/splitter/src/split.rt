// `split` for a C host.
ghost use Rattle.std.specs.Prelude.{◌≡◌};
ghost use Rattle.splitter.specs.Telling.{Tells};
ghost use Rattle.tokens.specs.Split.{split_outcome};

use crate::telling::{refusal, result};

// Splits a table's task into a second table. The answer is 0 for a result, else the refusal's number.
#[unsafe(no_mangle)]
pub extern "C" fn splitter_split(table: &[u16], split: &mut [u16], place: &mut u64) -> u32
    ensures tells { Tells (split_outcome table.now split.old).told result place.new }
    ensures split_after { split.new ≡ (split_outcome table.now split.old).buffer }
{
    match tokens::split(table, split) {
        Ok(()) => result(place),
        Err(refused) => refusal(refused, place),
    }
}
