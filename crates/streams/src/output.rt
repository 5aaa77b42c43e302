// Standard output, and what is said where it can't be written.
ghost use Rattle.std.specs.Prelude.{◌≡◌, IsTrue};
ghost use Rattle.std.specs.Io.KnownBytes.{Appends};

use crate::told::tell_failure;
use std::io::Write;

// Writes the bytes to standard output; whether all were written. If not, a line on standard error says so, and why.
pub fn write_out<O: Write>(
    out: &mut O,
    errors: &mut impl Write,
    program: &[u8],
    bytes: &[u8],
) -> bool
    ensures written { IsTrue result → Appends (O.contents out.old) (O.contents out.new) bytes.now }
    ensures silent { IsTrue result → errors.new ≡ errors.old }
{
    match out.write_all(bytes) {
        Ok(()) => true,
        Err(why) => {
            tell_failure(errors, program, b"write standard output", b"", &why);
            false
        }
    }
}
