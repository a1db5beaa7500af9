// The `differ` line: "two parameters (3 unless two numbers), the lower first, the lines strictly ascending". The 201st
// is 21; one "that names a parameter too high, or whose pair or place doesn't ascend" is 19.
ghost use Rattle.std.specs.Prelude.{List as Many, ◌≡◌, ℕ, length};
ghost use Rattle.text.specs.Lines.{ended, numbers};
ghost use Rattle.text.specs.Text.{Draft, differ_line, differ, pair_follows};
ghost use Rattle.text.specs.ReadCode.{Placed, Listed};
ghost use Rattle.text.specs.Holding.{Holds, Drafted, Touched, PairTurn, Allows, Takes};

use crate::cursor::Cursor;
use crate::draft::{Counts, Turn};
use crate::keys::Key;
use crate::lists::{list_line, numbers};
use crate::storing::put_words;
use task::Reason;
use task::limits::{HIGHER, LOWER, MOST_PAIRS, PAIR_SIZE};

// How many numbers a `differ` line has.
const PARAMETERS: usize = 2;

// Whether a pair comes behind the last one read of its schema, by the lower parameter and then by the higher.
fn follows(table: &[u16], counts: Counts, lower: u32, higher: u32) -> bool
    requires { Drafted table.now counts }
    ensures { (d : Draft) → Holds d table.now counts →
        result ≡ pair_follows d.current.pairs (record { lower = lower; higher = higher }) }
{
    if counts.apart == 0 {
        return true;
    }
    let last = counts.next_pair() - PAIR_SIZE;
    let before = table[last + LOWER] as u32;
    if before != lower {
        return before < lower;
    }
    (table[last + HIGHER] as u32) < higher
}

// Whether the two numbers of a line make one pair more.
fn check_pair(table: &[u16], counts: Counts, pair: &[u32], count: usize) -> Result<(), Reason>
    requires drafted { Drafted table.now counts }
    requires pair_len { length pair.now ≡ 2 }
    ensures { (d : Draft) (ns : Many ℕ) → Holds d table.now counts →
        Listed ns count pair.now → PairTurn d ns result }
{
    if count != PARAMETERS {
        return Err(Reason::OutOfForm);
    }
    if MOST_PAIRS <= counts.pairs + counts.apart {
        return Err(Reason::TooManyPairs);
    }
    let lower = pair[0];
    let higher = pair[1];
    if higher <= lower {
        return Err(Reason::WrongPair);
    }
    if counts.params as u32 <= higher {
        return Err(Reason::WrongPair);
    }
    if !follows(table, counts, lower, higher) {
        return Err(Reason::WrongPair);
    }
    Ok(())
}

// A `differ` line.
pub fn differ_line(
    text: &[u8],
    table: &mut [u16],
    from: Cursor,
    counts: Counts,
) -> Result<Turn, Reason>
    requires placed { Placed text.now from }
    requires drafted { Drafted table.old counts }
    requires allows { Allows counts differ }
    ensures touched { Touched table.old table.new }
    ensures takes { Takes (λ bs. ended differ_line (numbers bs)) text.now from counts table.old result
        table.new }
{
    let mut pair = [0u32; PARAMETERS];
    let Some((count, next)) = list_line(text, numbers(text, from, &mut pair)) else {
        return Err(Reason::OutOfForm);
    };
    check_pair(table, counts, &pair, count)?;
    let row = [counts.schemas as u32, pair[0], pair[1]];
    put_words(table, counts.next_pair(), &row);
    let read = Counts {
        phase: Key::Differ,
        apart: counts.apart + 1,
        ..counts
    };
    Ok(Turn::GoOn(read, next))
}
