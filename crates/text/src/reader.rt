// A text read line after line into a table: the turn at each line by its key, and the end of reading.
ghost use Rattle.std.specs.Prelude.{◌≡◌, true, ◌+◌, ◌≤◌, ◌<◌, length};
ghost use Rattle.task.specs.declared.Place.TheVariants.{Line};
ghost use Rattle.task.specs.Limits.{table_words};
ghost use Rattle.words.specs.Lists.{over};
ghost use Rattle.task.specs.Task.{well_formed};
ghost use Rattle.task.specs.Table.{words_of};
ghost use Rattle.text.specs.Text.{Draft, read_body, next_line, read_text, between};
ghost use Rattle.text.specs.Outcomes.{read_done, read_answer_told};
ghost use Rattle.text.specs.ReadCode.{rest, Placed, Wrote, meant, number_of, phase_number};
ghost use Rattle.text.specs.Holding.{Holds, Drafted, Touched, Turned, Allows};

use crate::cursor::Cursor;
use crate::draft::{Counts, PAIRS_AT, ROWS_AT, Turn};
use crate::keys::{Key, allowed, key_at};
use crate::lines::atom::{atom_line, fact_line};
use crate::lines::differ::differ_line;
use crate::lines::head::{arity_line, end_line, objects_line, schema_line, task_line};
use crate::lines::part::part_line;
use crate::storing::{clear, move_down, put_words};
use task::limits::{ATOM_SIZE, HEAD_WORDS, PAIR_SIZE, TABLE_WORDS};
use task::{Reason, Refusal};

// The turn at the body of a line whose key the fixed order allows.
fn body_turn(
    text: &[u8],
    table: &mut [u16],
    body: Cursor,
    counts: Counts,
    key: Key,
) -> Result<Turn, Reason>
    requires placed { Placed text.now body }
    requires drafted { Drafted table.old counts }
    requires key_value { Allows counts (meant key) }
    ensures touched { Touched table.old table.new }
    ensures fact { let bs = text.now in
        ((d : Draft) → Holds d table.old counts →
        Turned bs body d (read_body (meant key) (rest bs body)) table.old result table.new) }
{
    match key {
        Key::Task => task_line(text, body, counts),
        Key::Objects => objects_line(text, body, counts),
        Key::Arity => arity_line(text, table, body, counts),
        Key::Differ => differ_line(text, table, body, counts),
        Key::Pre | Key::Add | Key::Del => atom_line(text, table, body, counts, key.role()),
        Key::Part => part_line(text, table, body, counts),
        Key::Schema => schema_line(text, body, counts),
        Key::Init | Key::Goal => fact_line(text, table, body, counts, key.kind()),
        Key::End => end_line(text, body),
    }
}

// The turn at a line, "not a line the fixed order allows here" being 3.
fn turn_at(text: &[u8], table: &mut [u16], from: Cursor, counts: Counts) -> Result<Turn, Reason>
    requires placed { Placed text.now from }
    requires drafted { Drafted table.old counts }
    ensures touched { Touched table.old table.new }
    ensures fact { let bs = text.now in
        ((d : Draft) → Holds d table.old counts →
        Turned bs from d (next_line d (rest bs from)) table.old result table.new) }
{
    let Some((key, body)) = key_at(text, from) else {
        return Err(Reason::OutOfForm);
    };
    if !allowed(counts.phase, key) {
        return Err(Reason::OutOfForm);
    }
    body_turn(text, table, body, counts, key)
}

// The table of the task that is read: the pairs move down to their place, the rows behind them, zeros follow, and the
// counts come first.
fn lay_out(table: &mut [u16], counts: Counts)
    requires { Drafted table.old counts }
    ensures { (d : Draft) → Holds d table.old counts → phase_number between ≤ number_of counts.phase →
        well_formed d.task ≡ true → table.new ≡ over (words_of d.task) table.old }
{
    let pairs_to = HEAD_WORDS + counts.predicates + counts.schemas;
    let pairs = PAIR_SIZE * (counts.pairs + counts.apart);
    move_down(table, PAIRS_AT + counts.predicates, pairs_to, pairs);
    let to = pairs_to + pairs;
    let n = ATOM_SIZE * (counts.closed + counts.atoms + counts.initial + counts.goal);
    move_down(table, ROWS_AT + counts.predicates, to, n);
    clear(table, to + n, TABLE_WORDS - (to + n));
    let head = [
        counts.objects as u32,
        counts.predicates as u32,
        counts.schemas as u32,
        counts.closed as u32,
        counts.initial as u32,
        counts.goal as u32,
        counts.pairs as u32,
    ];
    put_words(table, 0, &head);
}

// Refusals 3 to 8, 19 and 21 leave the "table all 0".
fn refused(table: &mut [u16], reason: Reason, line: u64) -> Refusal
    requires { table_words ≤ length table.old }
    ensures value { result ≡ record { reason = reason; place = Line line } }
    ensures wrote { Wrote table.old 0 table_words (λ k. 0) table.new }
{
    clear(table, 0, TABLE_WORDS);
    Refusal::at_line(reason, line)
}

// "A text that reads as a task", into a table that is long enough.
pub fn read_task(text: &[u8], table: &mut [u16]) -> Result<(), Refusal>
    requires { table_words ≤ length table.old }
    ensures result_value { read_answer_told result ≡ (read_done table.old (read_text text.now)).told }
    ensures table_after { table.new ≡ (read_done table.old (read_text text.now)).buffer }
{
    let mut cursor = Cursor::start();
    let mut counts = Counts::start();
    loop {
        match turn_at(text, table, cursor, counts) {
            Err(reason) => {
                return Err(refused(table, reason, cursor.line));
            }
            Ok(Turn::Finish(next)) => {
                if next.at < text.len() {
                    return Err(refused(table, Reason::OutOfForm, next.line));
                }
                lay_out(table, counts);
                return Ok(());
            }
            Ok(Turn::GoOn(read, next)) => {
                counts = read;
                cursor = next;
            }
        }
    }
}
