// What the programs take of an input, a task read from it, and the width that an argument says.
ghost use Rattle.std.specs.Prelude.{◌≡◌, ◌≤◌, length, take};
ghost use Rattle.text.specs.Outcomes.{read_outcome, read_answer_told};
ghost use Rattle.programs.specs.Programs.{taken, width_in};

use task::Refusal;
use task::limits::MOST_PARAMETERS;
use text::cursor::Cursor;

pub const MOST_BYTES: usize = 65536;

// "A program takes the first 65,536 bytes of an input."
pub fn bytes_taken(input: &[u8]) -> usize
    ensures upper_bound { result ≤ length input.now }
    ensures input_value { take result input.now ≡ taken input.now }
{
    MOST_BYTES.min(input.len())
}

// Reads what is taken of an input into a table.
pub fn read_table(input: &[u8], table: &mut [u16]) -> Result<(), Refusal>
    ensures result_value { read_answer_told result ≡ (read_outcome (taken input.now) table.old).told }
    ensures table_after { table.new ≡ (read_outcome (taken input.now) table.old).buffer }
{
    text::read(&input[..bytes_taken(input)], table)
}

// The width that an argument says: a number and nothing behind it. Any other is too wide, so that proposing refuses it.
pub fn width_of(argument: &[u8]) -> u64
    ensures { result ≡ width_in argument.now }
{
    let too_wide = MOST_PARAMETERS as u64 + 1;
    let Some((width, behind)) = Cursor::start().number(argument) else {
        return too_wide;
    };
    if behind.at < argument.len() {
        return too_wide;
    }
    u64::from(width)
}
