// What a split will need, found before anything of it is written (document 02, note 6).
#![tactic(auto)]

mod bytes;
mod instances;

ghost use Rattle.std.specs.Prelude.{◌≡◌};
ghost use Rattle.tokens.specs.Acceptance.{AcceptedKept};
ghost use Rattle.forecast.specs.Forecast.{sizes_outcome, sizes_answer_told};

use crate::bytes::text_bytes;
use crate::instances::{INSTANCE_LIMIT, instances_after, instances_before, keep_powers};
use task::limits::{MOST_PARAMETERS, OBJECTS, PREDICATES};
use task::{Reason, Refusal};
use tokens::acceptance::keep_accepted;
use tokens::kept::{KEPT_WORDS, Kept};
use tokens::measure::Sizes;
use words::runs::word;

// "its sizes: predicates, schemas, schema atoms, text bytes, and the ground instances before and after".
#[derive(Clone, Copy, Debug, PartialEq, Eq)]
pub struct Forecast {
    pub predicates: u64,
    pub schemas: u64,
    pub atoms: u64,
    pub bytes: u64,
    pub before: u64,
    pub after: u64,
}

// The sizes of an accepted split. What splitting counts is counted already; the text's bytes are counted last, since 24
// needs none.
fn forecast_split(table: &[u16], kept: &Kept, counted: Sizes) -> Result<Forecast, Refusal>
    requires { AcceptedKept table.now counted kept.now }
    ensures { sizes_answer_told result ≡ (sizes_outcome table.now).told }
{
    let mut powers = [0u64; MOST_PARAMETERS + 1];
    keep_powers(word(table, OBJECTS) as u64, &mut powers);
    let before = instances_before(table, &powers);
    let after = instances_after(table, kept, &powers);
    if INSTANCE_LIMIT <= before || INSTANCE_LIMIT <= after {
        return Err(Refusal::nowhere(Reason::TooManyInstances));
    }
    let predicates = word(table, PREDICATES) + 1 + counted.later + counted.pars;
    let bytes = text_bytes(table, kept, counted);
    Ok(Forecast {
        predicates: predicates as u64,
        schemas: counted.schemas as u64,
        atoms: counted.atoms as u64,
        bytes: bytes as u64,
        before,
        after,
    })
}

// "Before asking for a split, the office wants its sizes". Refused as splitting would be, then 24.
pub fn sizes(table: &[u16]) -> Result<Forecast, Refusal>
    ensures { sizes_answer_told result ≡ (sizes_outcome table.now).told }
{
    let mut kept = [0u16; KEPT_WORDS];
    let counted = keep_accepted(table, &mut kept)?;
    forecast_split(table, &kept, counted)
}
