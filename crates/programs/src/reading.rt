// Reads what a program takes of an input.
ghost use Rattle.std.specs.Prelude.{◌≡◌, ◌≤◌, IfOk, IfSome, vec_len};
ghost use Rattle.programs.specs.Programs.{most_bytes, taken};

use crate::inputs::MOST_BYTES;
use std::alloc::Global;
use std::io;
use std::io::Read;

// "A program takes the first 65,536 bytes of an input": those are read, or all of them where there are fewer.
pub fn read_input<R: Read + Drop>(alloc: Global, input: R) -> io::Result<Vec<u8>>
    ensures few { IfOk result (λ bytes. vec_len bytes ≤ most_bytes) }
    ensures read { IfOk result (λ bytes. IfSome (R.remaining input) (λ known. bytes.items ≡ taken known)) }
{
    // With one byte more than is taken, the buffer never grows.
    let mut bytes = Vec::with_capacity(alloc, MOST_BYTES + 1)?;
    input.take(MOST_BYTES as u64).read_to_end(&mut bytes)?;
    bytes.truncate(MOST_BYTES);
    Ok(bytes)
}
