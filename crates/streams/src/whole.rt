// A whole file, as far as there is room for it.
ghost use Rattle.std.specs.Prelude.{IfOk};
ghost use Rattle.std.specs.Io.{ReadsAtMost};
ghost use Rattle.streams.specs.Reads.{Within, Fills, Came};

use crate::told::tell_failure;
use std::io::{Read, Result, Write};

// Reads until the file ends or the room is full.
pub fn read_file<R: Read>(file: &mut R, room: &mut [u8]) -> Result<usize>
    ensures within { ReadsAtMost result room.new }
    ensures bytes { IfOk result (Fills (R.remaining file.old) (R.remaining file.new) room.new) }
{
    let mut at = 0;
    'parts: while at < room.len() {
        let n = file.read(&mut room[at..])?;
        if n == 0 {
            return Ok(at);
        }
        at += n;
    }
    Ok(at)
}

// Reads standard input; how many bytes came. Where it can't be read, a line on standard error says so, and why.
pub fn read_in<R: Read>(
    input: &mut R,
    errors: &mut impl Write,
    program: &[u8],
    room: &mut [u8],
) -> Option<usize>
    ensures within { Within result room.new }
    ensures bytes { Came result (R.remaining input.old) (R.remaining input.new) room.new }
{
    read_file(input, room)
        .inspect_err(|why| tell_failure(errors, program, b"read standard input", b"", why))
        .ok()
}
