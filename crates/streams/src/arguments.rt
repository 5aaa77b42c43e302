// The arguments that a program was started with. They are bytes, and need be no text.
ghost use Rattle.io.specs.Counts.{IsPrefixLen};

use std::env::{Env, FillError};

// How many there are, the program's own name among them.
pub fn argument_count(rt: &impl Env) -> usize {
    (0..usize::MAX)
        .position(|i| matches!(rt.arg(i, &mut []), Err(FillError::NotPresent)))
        .unwrap_or(usize::MAX)
}

// Puts argument i at the front of the room; how long it is, or 0 where it is missing or too long.
pub fn argument(rt: &impl Env, i: usize, room: &mut [u8]) -> usize
    ensures { IsPrefixLen result room.new }
{
    rt.arg(i, room).unwrap_or(0)
}
