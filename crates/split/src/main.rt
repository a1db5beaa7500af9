// The program `split`: it "prints the split of the task on standard input, or `refused=` number, colon, place", and
// "takes the first 65,536 bytes of an input".
#![tactic(auto)]

ghost use Rattle.std.specs.Prelude.{OnOk, IfSome};
ghost use Rattle.std.specs.Io.KnownBytes.{Appends};
ghost use Rattle.programs.specs.Programs.{split_program};

use programs::{TEXT_BYTES, read_input, split_text};
use std::alloc::Global;
use std::io;
use std::io::{Read, Write};

fn run<R: Read + Drop, W: Write>(alloc: Global, input: R, output: &mut W) -> io::Result<()>
    ensures { OnOk result (IfSome (R.remaining input) (λ task.
        Appends (W.contents output.old) (W.contents output.new) (split_program task))) }
{
    let text = read_input(alloc, input)?;
    let mut out = [0u8; TEXT_BYTES];
    let printed = split_text(&text, &mut out);
    output.write_all(&out[..printed])
}

fn main(rt: HostRuntime) -> io::Result<()> {
    run(rt.alloc(), rt.reader(), &mut io::writer(&rt))
}
