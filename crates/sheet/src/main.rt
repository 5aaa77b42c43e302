// Reads a text from standard input, searches its table of one row and writes the sheet to standard output.
// For a text that is refused it writes nothing there, and `refused NUMBER PLACE` to standard error; so too a line if it is handed an argument or can't read the input.
// Where the sheet can't be written, a line there says so too.
#![tactic(auto)]

use lines::Writer;
use refusals::Refusal;
use search::search;
use std::io::Write;
use streams::arguments::argument_count;
use streams::output::write_out;
use streams::told::tell;
use streams::values::put_refused;
use streams::whole::read_in;
use verdicts::finding::Finding;

// Tells a refusal. Its number and its place have at most 20 digits each.
fn tell_refused(errors: &mut impl Write, refusal: Refusal) {
    let mut line = [0u8; 64];
    let mut writer = Writer::new(&mut line);
    put_refused(&mut writer, refusal);
    let n = writer.len();
    tell(errors, &line[..n]);
}

// The sheet of a text.
fn answer(out: &mut impl Write, errors: &mut impl Write, text: &[u8]) {
    let mut first = [0u16; 4096];
    let mut second = [0u16; 4096];
    let mut sheet = [0u8; 40967];
    match search(text, &mut first, &mut second, &mut sheet) {
        Ok(Finding::Safe { length, .. } | Finding::Void { length } | Finding::Unsafe { length }) =>
            {
                let n = length.min(sheet.len());
                write_out(out, errors, b"sheet", &sheet[..n]);
            }
        Err(refusal) => tell_refused(errors, refusal),
    }
}

// The room has a byte more than the longest text, so a longer one is refused by the search itself.
fn main(rt: HostRuntime) {
    let mut errors = rt.stderr();
    if argument_count(&rt) != 1 {
        return tell(&mut errors, b"usage: sheet < TEXT > SHEET\n");
    }
    let mut text = [0u8; 16385];
    if let Some(n) = read_in(&mut rt.stdin(), &mut errors, b"sheet", &mut text) {
        answer(&mut rt.stdout(), &mut errors, &text[..n]);
    }
}
