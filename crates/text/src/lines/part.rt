// The `part` line, which ends its schema: "schema without atoms, or parameter in none" is 7; "wrong length, part 16 or
// more, a gap" is 8.
ghost use Rattle.std.specs.Prelude.{List as Many, ◌≡◌, ℕ, length};
ghost use Rattle.task.specs.Limits.{most_atoms};
ghost use Rattle.text.specs.Lines.{ended, listing};
ghost use Rattle.text.specs.Text.{Draft, part_line, part};
ghost use Rattle.text.specs.ReadCode.{Placed, Listed};
ghost use Rattle.text.specs.Holding.{Holds, Drafted, Touched, PartsTurn, Allows, Takes};

use crate::checks::{all_below, without_gap};
use crate::cursor::Cursor;
use crate::draft::{Counts, Turn};
use crate::keys::Key;
use crate::lists::{list_line, listing};
use crate::rows::{all_named, put_parts};
use task::limits::{HEAD_WORDS, MOST_ATOMS};
use task::{Reason, limits};

// Numbers are read as 32 bits.
const MOST_PARTS: u32 = limits::MOST_PARTS as u32;

// Whether the parts close the schema that is being read.
fn check_parts(table: &[u16], counts: Counts, parts: &[u32], count: usize) -> Result<(), Reason>
    requires drafted { Drafted table.now counts }
    requires parts_len { length parts.now ≡ most_atoms }
    ensures { (d : Draft) (ns : Many ℕ) → Holds d table.now counts →
        Listed ns count parts.now → PartsTurn d ns result }
{
    if counts.atoms == 0 {
        return Err(Reason::UnusedParameter);
    }
    if !all_named(table, counts.first_row(), counts.atoms, counts.params) {
        return Err(Reason::UnusedParameter);
    }
    if count != counts.atoms {
        return Err(Reason::WrongParts);
    }
    let parts = &parts[..count];
    if !all_below(parts, MOST_PARTS) {
        return Err(Reason::WrongParts);
    }
    if !without_gap(parts) {
        return Err(Reason::WrongParts);
    }
    Ok(())
}

// A `part` line.
pub fn part_line(
    text: &[u8],
    table: &mut [u16],
    from: Cursor,
    counts: Counts,
) -> Result<Turn, Reason>
    requires placed { Placed text.now from }
    requires drafted { Drafted table.old counts }
    requires allows { Allows counts part }
    ensures touched { Touched table.old table.new }
    ensures takes { Takes (λ bs. ended part_line (listing bs)) text.now from counts table.old result
        table.new }
{
    let mut parts = [0u32; MOST_ATOMS];
    let Some((count, next)) = list_line(text, listing(text, from, &mut parts)) else {
        return Err(Reason::OutOfForm);
    };
    check_parts(table, counts, &parts, count)?;
    put_parts(table, counts.first_row(), &parts, count);
    let at = HEAD_WORDS + counts.predicates + counts.schemas;
    table[at] = counts.params;
    let read = Counts {
        phase: Key::Schema,
        schemas: counts.schemas + 1,
        params: 0,
        closed: counts.closed + counts.atoms,
        atoms: 0,
        pairs: counts.pairs + counts.apart,
        apart: 0,
        ..counts
    };
    Ok(Turn::GoOn(read, next))
}
