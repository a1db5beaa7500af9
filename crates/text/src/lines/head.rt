// The lines that have no atom: `task`, `objects`, `arity`, `schema` and `end`.
ghost use Rattle.std.specs.Prelude.{List as Many, ℕ, ◌≤◌};
ghost use Rattle.text.specs.Lines.{ended, number, numbers};
ghost use Rattle.text.specs.Text.{Draft, task_line, objects_line, arity_line, schema_line, end_line, task, objects};
ghost use Rattle.text.specs.Text.{arity, schema, between};
ghost use Rattle.text.specs.ReadCode.{rest, Placed, phase_number};
ghost use Rattle.text.specs.Holding.{Holds, Drafted, Touched, Turned, Allows, Takes};

use crate::checks::all_below;
use crate::cursor::Cursor;
use crate::draft::{Counts, Turn};
use crate::keys::Key;
use crate::lists::{list_line, number_line, numbers, one_line};
use crate::storing::put_words;
use task::limits::{HEAD_WORDS, MOST_PREDICATES, MOST_SCHEMAS};
use task::{Reason, limits};

// Numbers are read as 32 bits.
const MOST_OBJECTS: u32 = limits::MOST_OBJECTS as u32;

const MOST_PARAMETERS: u32 = limits::MOST_PARAMETERS as u32;

const ABOVE_ARITY: u32 = limits::MOST_ARITY as u32 + 1;

// "task=1".
pub fn task_line(text: &[u8], from: Cursor, counts: Counts) -> Result<Turn, Reason>
    requires placed { Placed text.now from }
    requires allows { Allows counts task }
    ensures { let bs = text.now in
        ((d : Draft) (w : Many ℕ) → Holds d w counts →
        Turned bs from d (ended task_line (number (rest bs from))) w result w) }
{
    let Some(next) = one_line(text, from) else {
        return Err(Reason::OutOfForm);
    };
    let read = Counts {
        phase: Key::Objects,
        ..counts
    };
    Ok(Turn::GoOn(read, next))
}

// "objects N (1 to 1000)".
pub fn objects_line(text: &[u8], from: Cursor, counts: Counts) -> Result<Turn, Reason>
    requires placed { Placed text.now from }
    requires allows { Allows counts objects }
    ensures { let bs = text.now in
        ((d : Draft) (w : Many ℕ) → Holds d w counts →
        Turned bs from d (ended objects_line (number (rest bs from))) w result w) }
{
    let Some((n, next)) = number_line(text, from) else {
        return Err(Reason::OutOfForm);
    };
    if n < 1 {
        return Err(Reason::OutsideLimits);
    }
    if MOST_OBJECTS < n {
        return Err(Reason::OutsideLimits);
    }
    let read = Counts {
        phase: Key::Arity,
        objects: n as u16,
        ..counts
    };
    Ok(Turn::GoOn(read, next))
}

// "`schema` (parameter count)".
pub fn schema_line(text: &[u8], from: Cursor, counts: Counts) -> Result<Turn, Reason>
    requires placed { Placed text.now from }
    requires allows { Allows counts schema }
    ensures { let bs = text.now in
        ((d : Draft) (w : Many ℕ) → Holds d w counts →
        Turned bs from d (ended schema_line (number (rest bs from))) w result w) }
{
    let Some((n, next)) = number_line(text, from) else {
        return Err(Reason::OutOfForm);
    };
    if MOST_SCHEMAS <= counts.schemas {
        return Err(Reason::OutsideLimits);
    }
    if MOST_PARAMETERS < n {
        return Err(Reason::OutsideLimits);
    }
    let read = Counts {
        phase: Key::Differ,
        params: n as u16,
        ..counts
    };
    Ok(Turn::GoOn(read, next))
}

// "end=1".
pub fn end_line(text: &[u8], from: Cursor) -> Result<Turn, Reason>
    requires { Placed text.now from }
    ensures { let bs = text.now in
        ((d : Draft) (w : Many ℕ) → phase_number between ≤ phase_number d.phase →
        Turned bs from d (ended end_line (number (rest bs from))) w result w) }
{
    let Some(next) = one_line(text, from) else {
        return Err(Reason::OutOfForm);
    };
    Ok(Turn::Finish(next))
}

// "`arity` (list)", "P arities (0 to 4)".
pub fn arity_line(
    text: &[u8],
    table: &mut [u16],
    from: Cursor,
    counts: Counts,
) -> Result<Turn, Reason>
    requires placed { Placed text.now from }
    requires drafted { Drafted table.old counts }
    requires allows { Allows counts arity }
    ensures touched { Touched table.old table.new }
    ensures takes { Takes (λ bs. ended arity_line (numbers bs)) text.now from counts table.old result
        table.new }
{
    let mut arities = [0u32; MOST_PREDICATES];
    let Some((count, next)) = list_line(text, numbers(text, from, &mut arities)) else {
        return Err(Reason::OutOfForm);
    };
    if MOST_PREDICATES < count {
        return Err(Reason::OutsideLimits);
    }
    let arities = &arities[..count];
    if !all_below(arities, ABOVE_ARITY) {
        return Err(Reason::OutsideLimits);
    }
    put_words(table, HEAD_WORDS, arities);
    let read = Counts {
        phase: Key::Schema,
        predicates: count,
        ..counts
    };
    Ok(Turn::GoOn(read, next))
}
