// Reads texts from standard input, and writes the report of each.
// A text comes as its length in digits, a newline, its bytes and a newline. At anything else the input ends.
#![tactic(auto)]

use reporting::write_report;
use std::io::Write;
use streams::input::Input;
use streams::output::write_out;

// Writes the report of a text; whether it could.
fn report(out: &mut impl Write, errors: &mut impl Write, text: &[u8]) -> bool {
    let mut first = [0u16; 4096];
    let mut second = [0u16; 4096];
    let mut sheet = [0u8; 40967];
    let mut written = [0u8; 147457];
    let n = write_report(text, &mut first, &mut second, &mut sheet, &mut written);
    write_out(out, errors, b"report_corpus", &written[..n])
}

// The room is for more than the longest text, so a text that is cut to it is refused all the same.
fn main(rt: HostRuntime) {
    let mut out = rt.stdout();
    let mut errors = rt.stderr();
    let mut room = [0u8; 32768];
    Input::new(rt.stdin()).each(|input| {
        let n = input.text(&mut room)?.min(room.len());
        report(&mut out, &mut errors, &room[..n]).then_some(())
    });
}
