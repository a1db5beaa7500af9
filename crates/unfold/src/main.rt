// The program `unfold`: it "reads the files `task` and `plan` .. and prints the unfolding", and "takes the first 65,536
// bytes of an input".
#![tactic(auto)]

ghost use Rattle.std.specs.Prelude.{◌≡◌, ◌≤◌, OnOk, IfOk, IfSome, vec_len};
ghost use Rattle.std.specs.Io.KnownBytes.{Appends};
ghost use Rattle.programs.specs.Programs.{most_bytes, taken, unfold_program};
ghost use Rattle.unfold.specs.Files.{file_bytes};

use programs::{PLAN_BYTES, read_input, unfold_texts};
use std::alloc::Global;
use std::fs::File;
use std::io;
use std::io::{Read, Write};

// The first bytes of a file. "a missing file counts as empty", and so does one that can't be opened.
fn read_file<R: Read + Drop>(alloc: Global, file: Option<R>) -> io::Result<Vec<u8>>
    ensures few { IfOk result (λ bytes. vec_len bytes ≤ most_bytes) }
    ensures read { IfOk result (λ bytes.
        IfSome (file_bytes R.remaining file) (λ known. bytes.items ≡ taken known)) }
{
    match file {
        Some(file) => read_input(alloc, file),
        None => Ok(Vec::new(alloc)),
    }
}

fn print_unfolding<W: Write>(task: &[u8], plan: &[u8], output: &mut W) -> io::Result<()>
    ensures { OnOk result
        (Appends (W.contents output.old) (W.contents output.new) (unfold_program task.now plan.now)) }
{
    let mut out = [0u8; PLAN_BYTES];
    let printed = unfold_texts(task, plan, &mut out);
    output.write_all(&out[..printed])
}

fn main(rt: HostRuntime) -> io::Result<()> {
    let task = read_file(rt.alloc(), File::open(&rt, "task").ok())?;
    let plan = read_file(rt.alloc(), File::open(&rt, "plan").ok())?;
    print_unfolding(&task, &plan, &mut io::writer(&rt))
}
