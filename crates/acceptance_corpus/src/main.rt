// Reads pairs of a text and a sheet from standard input, and writes an answer line for each.
// Text and sheet each come as a length in digits, a newline, the bytes and a newline. At anything else the input ends.
// An answer is `safe holds`, `void`, `trace holds`, the letter of the condition that fails, or `refused NUMBER PLACE`.
#![tactic(auto)]

use acceptance::test;
use std::io::Write;
use streams::input::Input;
use streams::output::write_out;
use wording::put_line;

// Writes the answer line for a text and a sheet; whether it could.
fn answer(out: &mut impl Write, errors: &mut impl Write, text: &[u8], sheet: &[u8]) -> bool {
    let mut line = [0u8; 64];
    let end = put_line(&mut line, test(text, sheet));
    write_out(out, errors, b"acceptance_corpus", &line[..end])
}

// The rooms are for more than the longest text and the longest sheet, so one that is cut to them is refused all the same.
fn main(rt: HostRuntime) {
    let mut out = rt.stdout();
    let mut errors = rt.stderr();
    let mut text = [0u8; 32768];
    let mut sheet = [0u8; 131072];
    Input::new(rt.stdin()).each(|input| {
        let n = input.text(&mut text)?.min(text.len());
        let m = input.text(&mut sheet)?.min(sheet.len());
        answer(&mut out, &mut errors, &text[..n], &sheet[..m]).then_some(())
    });
}
