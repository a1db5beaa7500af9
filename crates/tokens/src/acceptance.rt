// Whether a table's split is accepted: "a split is accepted when splitting gives it as its result". Splitting begins
// so, and unfolding and folding "first refuse as splitting would, 9 and 10 included", and 20 between them.
ghost use Rattle.tokens.specs.Acceptance.{AcceptanceTold};

use crate::kept::Kept;
use crate::measure::Sizes;
use crate::{measure, pairs, parts};
use task::{Reason, Refusal, judge_table};

// Keeps the parts of a table whose split is accepted, and counts the split's sizes.
pub fn keep_accepted(table: &[u16], kept: &mut Kept) -> Result<Sizes, Refusal>
    ensures { AcceptanceTold table.now result kept.new }
{
    judge_table(table)?;
    if let Some(s) = parts::keep_parts(table, kept) {
        return Err(Refusal::at_schema(Reason::Circular, s));
    }
    if let Some(s) = pairs::first_parted(table, kept) {
        return Err(Refusal::at_schema(Reason::PairWithoutPart, s));
    }
    let sizes = measure::sizes_of(table, kept);
    if !sizes.within {
        return Err(Refusal::nowhere(Reason::SplitTooLarge));
    }
    Ok(sizes)
}
