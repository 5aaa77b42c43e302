// Files that a program's arguments name.
ghost use Rattle.std.specs.Io.{ReadsAtMost};
ghost use Rattle.streams.specs.Reads.{Within};

use crate::told::tell_failure;
use crate::whole::read_file;
use std::env::{Env, FillError};
use std::fs::Files;
use std::io::{Error, ErrorKind, Result, Write};
use std::{fs, str};

// The room for a path.
const PATH_ROOM: usize = 4096;

// The system's numbers for an argument that is not there, and for a path that is too long.
const INVALID: i32 = 22;

const TOO_LONG: i32 = 36;

// Why there is no argument.
fn lack(fault: FillError) -> Error {
    match fault {
        FillError::NotPresent => Error::from_raw_os_error(INVALID),
        FillError::TooLong => Error::from_raw_os_error(TOO_LONG),
    }
}

// Reads the file at a path. Files have names of text alone.
fn read_path(rt: &impl Files, path: &[u8], room: &mut [u8]) -> Result<usize>
    ensures { ReadsAtMost result room.new }
{
    let Ok(text) = str::from_utf8(path) else {
        return Err(Error::new(ErrorKind::InvalidFilename, "the path is no UTF-8"));
    };
    let mut file = fs::open(rt, text)?;
    read_file(&mut file, room)
}

// Reads the file that argument i names; how many bytes came. Where it can't be read, a line on standard error says so, and why. An argument that is too long for a path is cut in what is said of it.
pub fn read_argument<R: Env + Files>(
    rt: &R,
    errors: &mut impl Write,
    program: &[u8],
    i: usize,
    room: &mut [u8],
) -> Option<usize>
    ensures { Within result room.new }
{
    let mut path = [0u8; PATH_ROOM];
    let (n, got) = match rt.arg(i, &mut path) {
        Ok(n) => (n, read_path(rt, &path[..n], room)),
        Err(fault) => (PATH_ROOM, Err(lack(fault))),
    };
    got.inspect_err(|why| tell_failure(errors, program, b"read ", &path[..n], why))
        .ok()
}
