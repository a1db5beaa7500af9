// `sizes` for a C host.
ghost use Rattle.std.specs.Prelude.{◌≡◌};
ghost use Rattle.splitter.specs.Telling.{Tells};
ghost use Rattle.task.specs.Answers.{told_value};
ghost use Rattle.forecast.specs.Forecast.{sizes_outcome};

use crate::telling::{refusal, result};

// Tells what the split of a table's task will need. The answer is 0 for a result, else the refusal's number.
#[unsafe(no_mangle)]
pub extern "C" fn splitter_sizes(
    table: &[u16],
    place: &mut u64,
    predicates: &mut u64,
    schemas: &mut u64,
    atoms: &mut u64,
    bytes: &mut u64,
    before: &mut u64,
    after: &mut u64,
) -> u32
    ensures tells { Tells (sizes_outcome table.now).told result place.new }
    ensures predicates_after { predicates.new ≡ told_value 0 (sizes_outcome table.now).told }
    ensures schemas_after { schemas.new ≡ told_value 1 (sizes_outcome table.now).told }
    ensures atoms_after { atoms.new ≡ told_value 2 (sizes_outcome table.now).told }
    ensures bytes_after { bytes.new ≡ told_value 3 (sizes_outcome table.now).told }
    ensures before_after { before.new ≡ told_value 4 (sizes_outcome table.now).told }
    ensures after_after { after.new ≡ told_value 5 (sizes_outcome table.now).told }
{
    *predicates = 0;
    *schemas = 0;
    *atoms = 0;
    *bytes = 0;
    *before = 0;
    *after = 0;
    match forecast::sizes(table) {
        Ok(sizes) => {
            *predicates = sizes.predicates;
            *schemas = sizes.schemas;
            *atoms = sizes.atoms;
            *bytes = sizes.bytes;
            *before = sizes.before;
            *after = sizes.after;
            result(place)
        }
        Err(refused) => refusal(refused, place),
    }
}
