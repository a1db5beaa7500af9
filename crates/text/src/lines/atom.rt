// The lines that have an atom: `pre`, `add` and `del` of a schema, `init` and `goal`. "within a line by number": 4 for
// one atom too many, then 5 and 6.
ghost use Rattle.std.specs.Prelude.{◌≡◌, List, ℕ, length};
ghost use Rattle.task.specs.Limits.{most_arity};
ghost use Rattle.text.specs.Lines.{ended, entry};
ghost use Rattle.text.specs.Text.{Draft, atom_line};
ghost use Rattle.text.specs.ReadCode.{Placed, Listed};
ghost use Rattle.text.specs.Holding.{Holds, Drafted, Touched, Allows, Checked, entry_of, InSchema, one_atom_more};
ghost use Rattle.text.specs.Holding.{fact_key, fact_line, one_fact_more, Takes};

use crate::cursor::Cursor;
use crate::draft::{Counts, Kind, Turn};
use crate::keys::Key;
use crate::lists::entry_line;
use crate::rows::{fits, put_row, repeated};
use task::Reason;
use task::limits::{ATOM_SIZE, MOST_ARITY, MOST_ATOMS, MOST_SCHEMA_ATOMS, PREDICATE};
use words::runs::less_words;

// Facts "ascend strictly": two rows are compared from their predicates on.
const COMPARED: usize = ATOM_SIZE - PREDICATE;

// An atom's row joins those of the schema that is being read, unless it is refused.
fn add_atom(
    table: &mut [u16],
    counts: Counts,
    role: u16,
    predicate: u32,
    args: &[u32],
    count: usize,
) -> Result<(), Reason>
    requires drafted { Drafted table.old counts }
    requires in_schema { InSchema counts role }
    requires args_len { length args.now ≡ most_arity }
    ensures touched { Touched table.old table.new }
    ensures checked { (d : Draft) (ns : List ℕ) → Holds d table.old counts →
        Listed ns count args.now → Checked d (atom_line role (entry_of predicate ns))
        (one_atom_more counts role) result table.new }
{
    if MOST_ATOMS <= counts.atoms {
        return Err(Reason::OutsideLimits);
    }
    if MOST_SCHEMA_ATOMS <= counts.closed + counts.atoms {
        return Err(Reason::OutsideLimits);
    }
    if !fits(
        table,
        counts.predicates,
        counts.params,
        predicate,
        args,
        count,
    ) {
        return Err(Reason::WrongAtom);
    }
    let row = counts.next_row();
    put_row(
        table,
        row,
        counts.schemas as u32,
        role as u32,
        predicate,
        &args[..count],
    );
    if repeated(table, row, counts.first_row(), counts.atoms) {
        return Err(Reason::RepeatedAtom);
    }
    Ok(())
}

// A `pre`, `add` or `del` line.
pub fn atom_line(
    text: &[u8],
    table: &mut [u16],
    from: Cursor,
    counts: Counts,
    role: u16,
) -> Result<Turn, Reason>
    requires placed { Placed text.now from }
    requires drafted { Drafted table.old counts }
    requires in_schema { InSchema counts role }
    ensures touched { Touched table.old table.new }
    ensures takes { Takes (λ bs. ended (atom_line role) (entry bs)) text.now from counts
        table.old result table.new }
{
    let mut args = [0u32; MOST_ARITY];
    let Some((predicate, count, next)) = entry_line(text, from, &mut args) else {
        return Err(Reason::OutOfForm);
    };
    add_atom(table, counts, role, predicate, &args, count)?;
    let read = Counts {
        phase: Key::of_role(role),
        atoms: counts.atoms + 1,
        ..counts
    };
    Ok(Turn::GoOn(read, next))
}

// A fact's row joins those of its kind, unless it is refused.
fn add_fact(
    table: &mut [u16],
    counts: Counts,
    kind: Kind,
    predicate: u32,
    args: &[u32],
    count: usize,
) -> Result<(), Reason>
    requires drafted { Drafted table.old counts }
    requires allows { Allows counts (fact_key kind) }
    requires args_len { length args.now ≡ most_arity }
    ensures touched { Touched table.old table.new }
    ensures checked { (d : Draft) (ns : List ℕ) → Holds d table.old counts →
        Listed ns count args.now → Checked d (fact_line kind (entry_of predicate ns))
        (one_fact_more counts kind) result table.new }
{
    let facts = counts.facts(kind);
    if facts.most <= facts.read {
        return Err(Reason::OutsideLimits);
    }
    if !fits(
        table,
        counts.predicates,
        counts.objects,
        predicate,
        args,
        count,
    ) {
        return Err(Reason::WrongAtom);
    }
    let row = counts.next_row();
    put_row(table, row, 0, facts.role, predicate, &args[..count]);
    if 0 < facts.read {
        if !less_words(table, row - COMPARED, row + PREDICATE, COMPARED) {
            return Err(Reason::RepeatedAtom);
        }
    }
    Ok(())
}

// An `init` or a `goal` line.
pub fn fact_line(
    text: &[u8],
    table: &mut [u16],
    from: Cursor,
    counts: Counts,
    kind: Kind,
) -> Result<Turn, Reason>
    requires placed { Placed text.now from }
    requires drafted { Drafted table.old counts }
    requires allows { Allows counts (fact_key kind) }
    ensures touched { Touched table.old table.new }
    ensures takes { Takes (λ bs. ended (fact_line kind) (entry bs)) text.now from counts
        table.old result table.new }
{
    let mut args = [0u32; MOST_ARITY];
    let Some((predicate, count, next)) = entry_line(text, from, &mut args) else {
        return Err(Reason::OutOfForm);
    };
    add_fact(table, counts, kind, predicate, &args, count)?;
    Ok(Turn::GoOn(counts.one_fact_more(kind), next))
}
