// Bodies of lines at a cursor: a number, a list, or "predicate, colon, arguments", with the line's end behind it. A
// list goes into lent numbers as far as they reach, and is counted to its end.
ghost use Rattle.std.specs.Prelude.{List, ◌≡◌, set, ℕ};
ghost use Rattle.text.specs.Lines.{numbers as number_list, listing as any_list, Taken};
ghost use Rattle.text.specs.ReadCode.{rest, Placed, ListAt, ListLineAt, EntryAt, EntryLineAt, NumberLineAt};
ghost use Rattle.text.specs.ReadCode.{ListPlaced, OneLineAt};
ghost use Rattle.std.specs.Prelude.{Option};

use crate::cursor::Cursor;

// A number is kept where there is room for it.
fn keep(list: &mut [u32], at: usize, n: u32)
    ensures { list.new ≡ set list.old at n }
{
    if at < list.len() {
        list[at] = n;
    }
}

// One number or more, "commas between": how many there are, and the cursor behind them.
pub fn numbers(text: &[u8], from: Cursor, list: &mut [u32]) -> Option<(usize, Cursor)>
    requires { Placed text.now from }
    ensures { let bs = text.now in
        ListAt bs from (number_list (rest bs from)) list.new result }
{
    let mut here = from;
    let mut count = 0;
    loop {
        let (n, behind) = here.number(text)?;
        keep(list, count, n);
        count += 1;
        let Some(next) = behind.word(text, b",") else {
            return Some((count, behind));
        };
        here = next;
    }
}

// "Argument and part lists may be empty in form": then the line ends where the list would begin.
pub fn listing(text: &[u8], from: Cursor, list: &mut [u32]) -> Option<(usize, Cursor)>
    requires { Placed text.now from }
    ensures { let bs = text.now in
        ListAt bs from (any_list (rest bs from)) list.new result }
{
    match from.word(text, b"\n") {
        Some(_) => Some((0, from)),
        None => numbers(text, from, list),
    }
}

// "An atom is predicate, colon, arguments": its predicate, how many arguments it has, and the cursor behind them.
pub fn entry(text: &[u8], from: Cursor, list: &mut [u32]) -> Option<(u32, usize, Cursor)>
    requires { Placed text.now from }
    ensures { EntryAt text.now from list.new result }
{
    let (head, behind) = from.number(text)?;
    let next = behind.word(text, b":")?;
    let (count, end) = listing(text, next, list)?;
    Some((head, count, end))
}

// A line whose body is a number, and the cursor behind the line.
pub fn number_line(text: &[u8], from: Cursor) -> Option<(u32, Cursor)>
    requires { Placed text.now from }
    ensures { NumberLineAt text.now from result }
{
    let (n, behind) = from.number(text)?;
    let next = behind.line_end(text)?;
    Some((n, next))
}

// A line whose body must be 1, and the cursor behind the line.
pub fn one_line(text: &[u8], from: Cursor) -> Option<Cursor>
    requires { Placed text.now from }
    ensures { OneLineAt text.now from result }
{
    let (n, next) = number_line(text, from)?;
    if n != 1 {
        return None;
    }
    Some(next)
}

// A line whose body is a list, of one number or more or one that may be empty, as it was found.
pub fn list_line(text: &[u8], found: Option<(usize, Cursor)>) -> Option<(usize, Cursor)>
    requires { ListPlaced text.now found }
    ensures { let bs = text.now in
        ((c : Cursor) (body : Option (Taken (List ℕ))) (kept : List ℕ) → ListAt bs c body kept found →
        ListLineAt bs c body kept result) }
{
    let (count, behind) = found?;
    let next = behind.line_end(text)?;
    Some((count, next))
}

// A line whose body is an atom.
pub fn entry_line(text: &[u8], from: Cursor, list: &mut [u32]) -> Option<(u32, usize, Cursor)>
    requires { Placed text.now from }
    ensures { EntryLineAt text.now from list.new result }
{
    let (head, count, behind) = entry(text, from, list)?;
    let next = behind.line_end(text)?;
    Some((head, count, next))
}
