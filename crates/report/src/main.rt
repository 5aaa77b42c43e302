// Reads a text from standard input and writes its report to standard output.
// With the argument --progress a search that takes long is told of on standard error while it lasts, in one line that is taken away at its end.
// Handed another argument, or where the input can't be read, it writes nothing to standard output, and a line to standard error. Where the report can't be written, a line there says so too.
#![tactic(auto)]

mod progress;

use progress::search_showing;
use reporting::{put_report, write_report};
use std::env::Env;
use std::io::{Read, Write};
use streams::arguments::{argument, argument_count};
use streams::output::write_out;
use streams::told::tell;
use streams::whole::read_in;

// Writes the report of a text to standard output. With progress, it is told how far the search is.
fn report(out: &mut impl Write, errors: &mut impl Write, text: &[u8], showing: bool) {
    let mut first = [0u16; 4096];
    let mut second = [0u16; 4096];
    let mut sheet = [0u8; 40967];
    let mut written = [0u8; 147457];
    let n = if showing {
        let found = search_showing(errors, text, &mut first, &mut second, &mut sheet);
        put_report(text, found, &sheet, &mut written)
    } else {
        write_report(text, &mut first, &mut second, &mut sheet, &mut written)
    };
    write_out(out, errors, b"report", &written[..n]);
}

// Whether the one argument asks for progress.
fn asks_progress(rt: &impl Env) -> bool {
    let mut room = [0u8; 4096];
    let n = argument(rt, 1, &mut room);
    &room[..n] == b"--progress".as_slice()
}

// Reads the text, and reports. The room has a byte more than the longest text, so a longer one is refused by the search itself.
fn answer(input: &mut impl Read, out: &mut impl Write, errors: &mut impl Write, showing: bool) {
    let mut text = [0u8; 16385];
    if let Some(n) = read_in(input, errors, b"report", &mut text) {
        report(out, errors, &text[..n], showing);
    }
}

// What takes much room stands in `answer`, so that whoever asks wrongly is told so with little.
fn main(rt: HostRuntime) {
    let mut errors = rt.stderr();
    match argument_count(&rt) {
        1 => answer(&mut rt.stdin(), &mut rt.stdout(), &mut errors, false),
        2 if asks_progress(&rt) => answer(&mut rt.stdin(), &mut rt.stdout(), &mut errors, true),
        _ => tell(&mut errors, b"usage: report [--progress] < TEXT\n"),
    }
}
