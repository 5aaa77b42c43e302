// Reads texts from standard input, and writes an answer line for each.
// A text comes as its length in digits, a newline, its bytes and a newline. At anything else the input ends.
// An answer is `refused NUMBER PLACE`, or `model` and the whole flat form.
#![tactic(auto)]

ghost use Rattle.streams.specs.Growth.{RoomFor, Grows};

use lines::Writer;
use reader::{Code, read};
use std::io::Write;
use streams::input::Input;
use streams::output::write_out;
use streams::values::{put_refused, put_values};

// Place and length of each name, one behind the other.
fn places_and_lengths(names: &[u16; 56]) -> [u16; 56] {
    let mut pairs = [0; 56];
    for i in 0..28 {
        pairs[2 * i] = names[i];
        pairs[2 * i + 1] = names[28 + i];
    }
    pairs
}

// The flat form, without a newline. Its counts are cut to what its arrays hold, so that a wrong one shows in the line.
fn put_model(out: &mut Writer, code: &Code)
    requires { RoomFor out.old 45030 }
    ensures { Grows out.old 45030 out.new }
{
    let k = code.commands.min(16);
    let names = (code.shared.min(28) + code.row.min(28) + k).min(28);
    let last = usize::from(code.ends[3 + k]).min(2048);
    let pairs = places_and_lengths(&code.names);
    put_values(out, b"model", &[code.shared, code.row, code.commands]);
    put_values(out, b" stars", &code.stars[..k]);
    put_values(out, b" names", &pairs[..2 * names]);
    put_values(out, b" ends", &code.ends[..4 + k]);
    put_values(out, b" code", &code.ops[..last]);
}

// The answer line for a text.
fn put_answer(out: &mut Writer, text: &[u8])
    requires { RoomFor out.old 45031 }
    ensures { Grows out.old 45031 out.new }
{
    match read(text) {
        Ok(code) => {
            put_model(out, &code);
            out.put(b"\n");
        }
        Err(refusal) => put_refused(out, refusal),
    }
}

// Writes the answer line for a text; whether it could. There is room for the longest: 2,143 numbers, each with a space and at most 20 digits, and 28 bytes beside them.
fn answer(out: &mut impl Write, errors: &mut impl Write, text: &[u8]) -> bool {
    let mut line = [0u8; 45031];
    let mut writer = Writer::new(&mut line);
    put_answer(&mut writer, text);
    let end = writer.len();
    write_out(out, errors, b"reader_corpus", &line[..end])
}

// The room is for more than the longest text, so a text that is cut to it is refused all the same.
fn main(rt: HostRuntime) {
    let mut out = rt.stdout();
    let mut errors = rt.stderr();
    let mut text = [0u8; 32768];
    Input::new(rt.stdin()).each(|input| {
        let n = input.text(&mut text)?.min(text.len());
        answer(&mut out, &mut errors, &text[..n]).then_some(())
    });
}
