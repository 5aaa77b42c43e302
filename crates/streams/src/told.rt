// What is told on standard error. Where it can't be told, there is nobody else to tell.
use std::fmt::InlineText;
use std::io::{Error, Result, Write};

// The system's words for an error come with its number behind them.
const NUMBER: &str = " (os error ";

// The longest of them take about 50 bytes.
const LONGEST: usize = 128;

// A line of its own.
pub fn tell(errors: &mut impl Write, line: &[u8]) {
    let _ = errors.write_all(line);
}

fn without_number(text: &str) -> &str {
    match text.rsplit_once(NUMBER) {
        Some((words, _)) => words,
        None => text,
    }
}

fn write_failure(
    errors: &mut impl Write,
    program: &[u8],
    what: &[u8],
    name: &[u8],
    why: &Error,
) -> Result<()> {
    let text = InlineText::<{ LONGEST }>::of(why);
    let words = without_number(text.as_str());
    errors.write_all(program)?;
    errors.write_all(b": cannot ")?;
    errors.write_all(what)?;
    errors.write_all(name)?;
    errors.write_all(b": ")?;
    errors.write_all(words.as_bytes())?;
    errors.write_all(b"\n")
}

// That a program cannot do something, with a name behind it, and why.
pub fn tell_failure(
    errors: &mut impl Write,
    program: &[u8],
    what: &[u8],
    name: &[u8],
    why: &Error,
) {
    let _ = write_failure(errors, program, what, name, why);
}
