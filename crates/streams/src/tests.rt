// Reads and writes that come in parts, or fail in the middle.
use crate::arguments::{argument, argument_count};
use crate::input::Input;
use crate::output::write_out;
use crate::whole::{read_file, read_in};
use std::env::{Env, FillError};
use std::io::{Error, Read, Result, Write};
use std::test::Fail;

// The system's numbers for a device that fails, and for one that is full.
const FAILS: i32 = 5;

const FULL: i32 = 28;

// A reader of at most three bytes at a time, which fails where `good` reads were made.
#[derive(Drop)]
struct Parts<'a> {
    rest: &'a [u8],
    good: u32,
}

impl<'a> Read for Parts<'a> {
    fn read(&mut self, buf: &mut [u8]) -> Result<usize> {
        if self.good == 0 {
            return Err(Error::from_raw_os_error(FAILS));
        }
        self.good -= 1;
        let n = self.rest.len().min(buf.len()).min(3);
        buf[..n].copy_from_slice(&self.rest[..n]);
        self.rest = &self.rest[n..];
        Ok(n)
    }
}

// A writer that has room for so many bytes, and takes at most three at a time.
#[derive(Drop)]
struct Device {
    room: usize,
}

impl Write for Device {
    fn write(&mut self, buf: &[u8]) -> Result<usize> {
        if self.room == 0 {
            return Err(Error::from_raw_os_error(FULL));
        }
        let n = buf.len().min(self.room).min(3);
        self.room -= n;
        Ok(n)
    }

    fn flush(&mut self) -> Result<()> {
        Ok(())
    }
}

// A program's name and two arguments, the first of them no text.
struct Started;

const ARGUMENTS: [&[u8]; 3] = [b"program", b"\xff", b""];

impl Env for Started {
    fn arg(&self, i: usize, buf: &mut [u8]) -> std::result::Result<usize, FillError> {
        let Some(word) = ARGUMENTS.get(i) else {
            return Err(FillError::NotPresent);
        };
        let n = word.len();
        if n > buf.len() {
            return Err(FillError::TooLong);
        }
        buf[..n].copy_from_slice(word);
        Ok(n)
    }

    fn var(&self, _name: &str, _buf: &mut [u8]) -> std::result::Result<usize, FillError> {
        Err(FillError::NotPresent)
    }

    fn var_at(&self, _i: usize, _buf: &mut [u8]) -> std::result::Result<usize, FillError> {
        Err(FillError::NotPresent)
    }
}

fn in_parts(bytes: &[u8], good: u32) -> Parts<'_> {
    Parts { rest: bytes, good }
}

#[test]
fn files_are_read_whole_or_until_the_room_is_full(
    rt: HostRuntime,
) -> std::result::Result<(), Fail> {
    let mut room = [0u8; 10];
    assert_eq!(rt; read_file(&mut in_parts(b"abcdefgh", 9), &mut room)?, 8);
    assert_eq!(rt; &room[..], b"abcdefgh\0\0".as_slice());
    let mut short = [0u8; 4];
    assert_eq!(rt; read_file(&mut in_parts(b"abcdefgh", 9), &mut short)?, 4);
    assert_eq!(rt; &short[..], b"abcd".as_slice());
    Ok(())
}

#[test]
fn a_read_that_fails_is_told(rt: HostRuntime) {
    let mut room = [0u8; 10];
    let mut errors = Vec::new(rt.alloc());
    let got = read_in(
        &mut in_parts(b"abcdefgh", 2),
        &mut errors,
        b"program",
        &mut room,
    );
    assert_eq!(rt; got, None);
    assert_eq!(rt;
        errors.as_slice(),
        b"program: cannot read standard input: Input/output error\n".as_slice()
    );
}

#[test]
fn a_write_that_fails_is_told(rt: HostRuntime) {
    let mut errors = Vec::new(rt.alloc());
    assert!(rt;
        write_out(
            &mut Device { room: 8 },
            &mut errors,
            b"program",
            b"abcdefgh"
        )
    );
    assert_eq!(rt; errors.len(), 0);
    assert!(rt;
        !write_out(
            &mut Device { room: 7 },
            &mut errors,
            b"program",
            b"abcdefgh"
        )
    );
    assert_eq!(rt;
        errors.as_slice(),
        b"program: cannot write standard output: No space left on device\n".as_slice()
    );
    assert!(rt;
        !write_out(
            &mut Device { room: 7 },
            &mut Device { room: 4 },
            b"program",
            b"abcdefgh"
        )
    );
}

#[test]
fn texts_come_in_parts(rt: HostRuntime) {
    let mut room = [0u8; 4];
    let mut input = Input::new(in_parts(b"12\nabcdefghijkl\n0\n\n3\nab", 20));
    assert_eq!(rt; input.text(&mut room), Some(12));
    assert_eq!(rt; &room[..], b"abcd".as_slice());
    assert_eq!(rt; input.text(&mut room), Some(0));
    assert_eq!(rt; input.text(&mut room), None);
    assert_eq!(rt; Input::new(in_parts(b"1\na\n", 1)).text(&mut room), None);
    assert_eq!(rt; Input::new(in_parts(b"a", 0)).next_byte(), None);
}

#[test]
fn arguments_are_bytes(rt: HostRuntime) {
    let mut room = [9u8; 2];
    assert_eq!(rt; argument_count(&Started), 3);
    assert_eq!(rt; argument(&Started, 1, &mut room), 1);
    assert_eq!(rt; room, [255, 9]);
    assert_eq!(rt; argument(&Started, 0, &mut room), 0);
    assert_eq!(rt; argument(&Started, 2, &mut room), 0);
    assert_eq!(rt; argument(&Started, 3, &mut room), 0);
}
