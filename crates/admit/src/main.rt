// Tests a sheet for a model: `admit TEXT SHEET`, the paths of two files.
// It writes one line to standard output: `safe holds`, `trace holds`, the letter of the first failure, or `refused NUMBER PLACE`.
// Without two arguments, or where a file can't be read, it writes nothing there, and a line to standard error. Where it can't write its answer, a line there says so too.
// A program ends with status 0 whatever it found, so the line is the whole answer.
#![tactic(auto)]

use acceptance::test;
use std::io::Write;
use streams::arguments::argument_count;
use streams::files::read_argument;
use streams::output::write_out;
use streams::told::tell;
use wording::put_line;

// Writes the outcome's line to standard output.
fn answer(out: &mut impl Write, errors: &mut impl Write, text: &[u8], sheet: &[u8]) {
    let mut line = [0u8; 64];
    let n = put_line(&mut line, test(text, sheet));
    write_out(out, errors, b"admit", &line[..n]);
}

// The rooms have a byte more than the longest text and the longest sheet that the test takes, so it refuses a longer one itself.
fn main(rt: HostRuntime) {
    let mut errors = rt.stderr();
    if argument_count(&rt) != 3 {
        return tell(&mut errors, b"usage: admit TEXT SHEET\n");
    }
    let mut text = [0u8; 16385];
    let mut sheet = [0u8; 65537];
    let Some(n) = read_argument(&rt, &mut errors, b"admit", 1, &mut text) else {
        return;
    };
    let Some(m) = read_argument(&rt, &mut errors, b"admit", 2, &mut sheet) else {
        return;
    };
    answer(&mut rt.stdout(), &mut errors, &text[..n], &sheet[..m]);
}
