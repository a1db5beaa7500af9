// The program `pddl`: it prints the task on standard input as planners that read PDDL take it, the domain in a line and
// the problem in another, or `refused=` number, colon, place; and it "takes the first 65,536 bytes of an input".
#![tactic(auto)]

ghost use Rattle.std.specs.Prelude.{OnOk, IfSome};
ghost use Rattle.std.specs.Io.KnownBytes.{Appends};
ghost use Rattle.programs.specs.Programs.{pddl_program};

use programs::{PDDL_BYTES, pddl_text, read_input};
use std::alloc::Global;
use std::io;
use std::io::{Read, Write};

fn run<R: Read + Drop, W: Write>(alloc: Global, input: R, output: &mut W) -> io::Result<()>
    ensures { OnOk result (IfSome (R.remaining input) (λ task.
        Appends (W.contents output.old) (W.contents output.new) (pddl_program task))) }
{
    let text = read_input(alloc, input)?;
    let mut out = [0u8; PDDL_BYTES];
    let printed = pddl_text(&text, &mut out);
    output.write_all(&out[..printed])
}

fn main(rt: HostRuntime) -> io::Result<()> {
    run(rt.alloc(), rt.reader(), &mut io::writer(&rt))
}
