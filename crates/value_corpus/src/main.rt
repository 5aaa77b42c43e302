// Reads texts, each with a state and a choice word, from standard input, and writes an answer line for each.
// A text comes as its length in digits, a newline, its bytes and a newline; the state and the word each as digits and a newline. At anything else the input ends.
// An answer is `refused NUMBER PLACE`, or `values`, the value and the passes of each expression in text order, `passes` and their sum.
#![tactic(auto)]

ghost use Rattle.std.specs.Prelude.{◌*◌, ◌≤◌, length};
ghost use Rattle.streams.specs.Growth.{RoomFor, Grows};

use evaluation::machine::value;
use lines::Writer;
use reader::{Code, read};
use std::io::Write;
use streams::input::Input;
use streams::output::write_out;
use streams::values::{put_refused, put_values};

// Where expressions are valued.
#[derive(Clone, Copy)]
struct Point {
    state: u32,
    word: u32,
}

// Nodes are the code words of the lowest six kinds.
fn is_node(op: u16) -> bool {
    op / 32 < 6
}

// The value and the passes of each expression among code words, which are nodes that stand together; all their passes.
fn put_segment(out: &mut Writer, words: &[u16], point: Point) -> usize
    requires { RoomFor out.old (42 * length words.now) }
    ensures { Grows out.old (42 * length words.now) out.new × (result ≤ length words.now) }
{
    let mut passes = 0;
    for code in words.split(|op| !is_node(*op)) {
        if !code.is_empty() {
            let valued = value(code, point.state, point.word);
            put_values(out, b"", &[valued.value as usize, valued.passes]);
            passes += valued.passes;
        }
    }
    passes
}

// The same of all segments, each of which begins where the one before it ends.
fn put_segments(out: &mut Writer, ops: &[u16; 2048], ends: &[u16], point: Point) -> usize
    requires { RoomFor out.old 86016 }
    ensures { Grows out.old 86016 out.new × (result ≤ 2048) }
{
    let mut passes = 0;
    let mut at = 0;
    for end in ends {
        let to = usize::from(*end).min(2048);
        if at < to {
            passes += put_segment(out, &ops[at..to], point);
            at = to;
        }
    }
    passes
}

// The values of a model's expressions, without a newline.
fn put_model(out: &mut Writer, code: &Code, point: Point)
    requires { RoomFor out.old 86050 }
    ensures { Grows out.old 86050 out.new }
{
    let segments = 4 + code.commands.min(16);
    out.put(b"values");
    let passes = put_segments(out, &code.ops, &code.ends[..segments], point);
    put_values(out, b" passes", &[passes]);
}

// The answer line for a text.
fn put_answer(out: &mut Writer, text: &[u8], point: Point)
    requires { RoomFor out.old 86051 }
    ensures { Grows out.old 86051 out.new }
{
    match read(text) {
        Ok(code) => {
            put_model(out, &code, point);
            out.put(b"\n");
        }
        Err(refusal) => put_refused(out, refusal),
    }
}

// Writes the answer line for a text; whether it could. There is room for the longest: an expression has a code word or more, of which there are 2,048,
// and two numbers, each with a space and at most 20 digits. Beside them stand `values`, ` passes`, one number and a newline.
fn answer(out: &mut impl Write, errors: &mut impl Write, text: &[u8], point: Point) -> bool {
    let mut line = [0u8; 86051];
    let mut writer = Writer::new(&mut line);
    put_answer(&mut writer, text, point);
    let end = writer.len();
    write_out(out, errors, b"value_corpus", &line[..end])
}

// A state is below 4,096 and a word below 256; greater numbers are cut.
fn point_at(state: usize, word: usize) -> Point {
    Point {
        state: state.min(4095) as u32,
        word: word.min(255) as u32,
    }
}

// The room is for more than the longest text, so a text that is cut to it is refused all the same.
fn main(rt: HostRuntime) {
    let mut out = rt.stdout();
    let mut errors = rt.stderr();
    let mut text = [0u8; 32768];
    Input::new(rt.stdin()).each(|input| {
        let n = input.text(&mut text)?.min(text.len());
        let state = input.number()?;
        let word = input.number()?;
        answer(&mut out, &mut errors, &text[..n], point_at(state, word)).then_some(())
    });
}
