// Searches models of eight states, an unsafe and a void one, with buffers that have just enough room, and then with one entry or one byte less in each of them in turn.
// It writes a line for each answer.
#![tactic(auto)]

ghost use Rattle.std.specs.Prelude.{◌≤◌, length};
ghost use Rattle.streams.specs.Growth.{RoomFor, Grows};

use lines::Writer;
use search::search;
use std::io::Write;
use streams::output::write_out;
use streams::values::{put_refused, put_values};
use verdicts::finding::{Finding, Searched};

const UNSAFE: &[u8] =
    b"shared m. row w x.\nstart m each not x.\nkeep 1 each not (w and x).\ncommand grant if m do\nfor 1 do w := *; x := * else skip end else skip.\n";

const VOID: &[u8] =
    b"shared m. row w x.\nstart 1 each 0.\nkeep 1 each not (w and x).\ncommand grant if m do\nfor 1 do w := *; x := * else skip end else skip.\n";

// The line of a verdict of at most 6 bytes, with the sheet's length.
fn put_verdict(out: &mut Writer, verdict: &[u8], n: usize)
    requires { (length verdict.now ≤ 6) × RoomFor out.old 50 }
    ensures { Grows out.old 50 out.new }
{
    put_values(out, verdict, &[n]);
    out.put(b"\n");
}

// The line of a verdict or a refusal.
fn put_found(out: &mut Writer, found: Searched)
    requires { RoomFor out.old 50 }
    ensures { Grows out.old 50 out.new }
{
    match found {
        Ok(Finding::Safe { length, .. }) => put_verdict(out, b"safe", length),
        Ok(Finding::Void { length }) => put_verdict(out, b"void", length),
        Ok(Finding::Unsafe { length }) => put_verdict(out, b"unsafe", length),
        Err(refusal) => put_refused(out, refusal),
    }
}

// Searches with what is lent, and writes the answer.
fn answer(
    out: &mut impl Write,
    errors: &mut impl Write,
    text: &[u8],
    first: &mut [u16],
    second: &mut [u16],
    sheet: &mut [u8],
) {
    let mut line = [0u8; 64];
    let mut writer = Writer::new(&mut line);
    put_found(&mut writer, search(text, first, second, sheet));
    let n = writer.len();
    write_out(out, errors, b"rooms", &line[..n]);
}

fn main(rt: HostRuntime) {
    let (out, errors) = (&mut rt.stdout(), &mut rt.stderr());
    for text in [UNSAFE, VOID] {
        answer(out, errors, text, &mut [9; 8], &mut [9; 8], &mut [9; 87]);
        answer(out, errors, text, &mut [9; 7], &mut [9; 8], &mut [9; 87]);
        answer(out, errors, text, &mut [9; 8], &mut [9; 7], &mut [9; 87]);
        answer(out, errors, text, &mut [9; 8], &mut [9; 8], &mut [9; 86]);
    }
}
