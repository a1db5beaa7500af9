// The program `propose`: the width as its argument, a task on standard input; it prints the task with the partitions
// proposed, or `refused=` number, colon, place, and "takes the first 65,536 bytes of an input".
#![tactic(auto)]

ghost use Rattle.std.specs.Prelude.{OnOk, IfSome, ◌≤◌, length};
ghost use Rattle.std.specs.Io.KnownBytes.{Appends};
ghost use Rattle.programs.specs.Programs.{propose_program};

use programs::{TEXT_BYTES, propose_text, read_input};
use std::alloc::Global;
use std::env::FillError;
use std::io;
use std::io::{Read, Write};
use std::rt::Env;

// A number in form has no more digits.
const ARGUMENT_BYTES: usize = 5;

// The one argument, whose bytes need not be text. A missing one counts as empty, and so do several, and one that is
// longer than the bytes lent.
fn read_argument(env: &impl Env, bytes: &mut [u8]) -> usize
    ensures { result ≤ length bytes.new }
{
    if !matches!(env.arg(2, &mut []), Err(FillError::NotPresent)) {
        return 0;
    }
    env.arg(1, bytes).unwrap_or(0)
}

fn run<R: Read + Drop, W: Write>(
    alloc: Global,
    argument: &[u8],
    input: R,
    output: &mut W,
) -> io::Result<()>
    ensures { OnOk result (IfSome (R.remaining input) (λ task.
        Appends (W.contents output.old) (W.contents output.new) (propose_program argument.now task))) }
{
    let text = read_input(alloc, input)?;
    let mut out = [0u8; TEXT_BYTES];
    let printed = propose_text(argument, &text, &mut out);
    output.write_all(&out[..printed])
}

fn main(rt: HostRuntime) -> io::Result<()> {
    let mut argument = [0u8; ARGUMENT_BYTES];
    let given = read_argument(&rt, &mut argument);
    run(
        rt.alloc(),
        &argument[..given],
        rt.reader(),
        &mut io::writer(&rt),
    )
}
