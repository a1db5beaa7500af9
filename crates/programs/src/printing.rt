// What the programs print: a task as text or as PDDL, a split, a proposal or their refusals, and the line of a refusal.
ghost use Rattle.std.specs.Prelude.{◌≡◌, true, ◌+◌, ◌≤◌, ◌<◌, length};
ghost use Rattle.task.specs.Answers.{place_number, reason_number};
ghost use Rattle.task.specs.Table.{task_of, is_table};
ghost use Rattle.tokens.specs.Split.{split};
ghost use Rattle.text.specs.Lines.{digits_within};
ghost use Rattle.text.specs.Text.{write};
ghost use Rattle.words.specs.Putting.{Puts};
ghost use Rattle.text.specs.TableLines.{longest_text};
ghost use Rattle.defines.specs.Pddl.{pddl};
ghost use Rattle.defines.specs.ByWords.{longest_pddl};
ghost use Rattle.programs.specs.Programs.{refusal, print_proposal, print_splitting};
ghost use Rattle.programs.specs.Printing.{Prints};

use proposals::scratch::SCRATCH_WORDS;
use task::Refusal;
use task::limits::TABLE_WORDS;
use text::put::{put_byte, put_bytes};

// "Numbers have 1 to 5 digits".
const MOST_DIGITS: usize = 5;

// The byte of a digit.
fn digit(n: u64) -> u8
    requires { n < 10 }
    ensures { result ≡ 48 + n }
{
    (48 + n) as u8
}

// A number's digits, `most` at most: a tenth of the number has those before the last.
fn put_digits(out: &mut [u8], at: usize, most: usize, n: u64) -> usize
    requires { at + length (digits_within most n) ≤ length out.old }
    ensures { Puts out.old at (digits_within most n) out.new result }
{
    if most == 0 {
        return at;
    }
    if n < 10 {
        return put_byte(out, at, digit(n));
    }
    let last = put_digits(out, at, most - 1, n / 10);
    put_byte(out, last, digit(n % 10))
}

// "`refused=` number, colon, place".
pub fn put_refusal(out: &mut [u8], refused: Refusal) -> usize
    requires { longest_text ≤ length out.old }
    ensures { Prints out.old (refusal (reason_number refused.reason) (place_number refused.place)) out.new result }
{
    let number = u64::from(refused.reason.number());
    let at_number = put_bytes(out, 0, b"refused=");
    let at_colon = put_digits(out, at_number, MOST_DIGITS, number);
    let at_place = put_byte(out, at_colon, b':');
    let at_end = put_digits(out, at_place, MOST_DIGITS, refused.place.number());
    put_byte(out, at_end, b'\n')
}

// A table's task as text. The bytes lent hold every text, so that writing never refuses.
fn put_task(table: &[u16], out: &mut [u8]) -> usize
    requires table_value { is_table table.now ≡ true }
    requires longest_text_in_bounds { longest_text ≤ length out.old }
    ensures { Prints out.old (write (task_of table.now)) out.new result }
{
    text::write(table, out).unwrap_or(0) as usize
}

// The same as PDDL, over bytes that hold every such text.
pub fn put_pddl(table: &[u16], out: &mut [u8]) -> usize
    requires table_value { is_table table.now ≡ true }
    requires longest_pddl_in_bounds { longest_pddl ≤ length out.old }
    ensures { Prints out.old (pddl (task_of table.now)) out.new result }
{
    defines::write_pddl(table, out).unwrap_or(0) as usize
}

// What splitting gives is printed, or its refusal.
pub fn put_split(table: &[u16], out: &mut [u8]) -> usize
    requires table_value { is_table table.now ≡ true }
    requires longest_text_in_bounds { longest_text ≤ length out.old }
    ensures { Prints out.old (print_splitting write (split (task_of table.now)))
        out.new result }
{
    let mut words = [0u16; TABLE_WORDS];
    match tokens::split(table, &mut words) {
        Ok(()) => put_task(&words, out),
        Err(refused) => put_refusal(out, refused),
    }
}

// The task proposed for a width is printed, or the refusal.
pub fn put_proposal(table: &[u16], width: u64, out: &mut [u8]) -> usize
    requires table_value { is_table table.now ≡ true }
    requires longest_text_in_bounds { longest_text ≤ length out.old }
    ensures { Prints out.old (print_proposal width (task_of table.now)) out.new
        result }
{
    let mut words = [0u16; TABLE_WORDS];
    let mut scratch = [0; SCRATCH_WORDS];
    match proposals::propose(table, width, &mut words, &mut scratch) {
        Ok(()) => put_task(&words, out),
        Err(refused) => put_refusal(out, refused),
    }
}
