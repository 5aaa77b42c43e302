// Reads a text from standard input and writes to standard output what a search of its model needs: entries of a table, bytes of the sheet buffer, trials at most; or its refusal.
// Handed an argument, or where the input can't be read, it writes nothing there, and a line to standard error. Where the lines can't be written, a line there says so too.
#![tactic(auto)]

ghost use Rattle.io.specs.Counts.{IsPrefixLen};
ghost use Rattle.lines.specs.Puts.{Puts};
ghost use Rattle.lines.specs.Writers.{HasRoom, Writes};
ghost use Rattle.reserving.specs.Answers.{wording_of};
ghost use Rattle.reserve.specs.Lines.{lines_of};

use lines::Writer;
use refusals::Refusal;
use reserving::{Reservation, reserve};
use std::io::Write;
use streams::arguments::argument_count;
use streams::output::write_out;
use streams::told::tell;
use streams::whole::read_in;

// Room for three lines of a word of at most 7 bytes and a number of at most 20 digits.
type Lines = [u8; 96];

// The lines of what a search needs, or of the refusal.
#[tactic(auto, unfolding(crate::specs::Lines::lines_of, crate::specs::Lines::needs_lines, reserving::specs::Answers::wording_of, notation::specs::Bytes::bytes))]
fn put_needs(out: &mut Writer, needs: Result<Reservation, Refusal>)
    requires { HasRoom out.old (lines_of (wording_of needs)) }
    ensures { Writes out.old (lines_of (wording_of needs)) out.new }
{
    match needs {
        Ok(needs) => {
            out.put_number_line(b"entries", needs.entries);
            out.put_number_line(b"bytes", needs.bytes);
            out.put_number_line(b"trials", needs.trials);
        }
        Err(refusal) => out.put_refusal(refusal),
    }
}

// Puts the lines of a reservation at the front; how long they are.
fn put_reservation(lines: &mut Lines, needs: Result<Reservation, Refusal>) -> usize
    ensures puts { Puts lines.old 0 (lines_of (wording_of needs)) lines.new result }
    ensures within { IsPrefixLen result lines.new }
{
    let mut out = Writer::new(lines);
    put_needs(&mut out, needs);
    out.len()
}

// Writes the reservation of a text to standard output.
fn answer(out: &mut impl Write, errors: &mut impl Write, text: &[u8]) {
    let mut lines = [0u8; 96];
    let n = put_reservation(&mut lines, reserve(text));
    write_out(out, errors, b"reserve", &lines[..n]);
}

// The room has a byte more than the longest text, so a longer one is refused by the reader itself.
fn main(rt: HostRuntime) {
    let mut errors = rt.stderr();
    if argument_count(&rt) != 1 {
        return tell(&mut errors, b"usage: reserve < TEXT\n");
    }
    let mut text = [0u8; 16385];
    if let Some(n) = read_in(&mut rt.stdin(), &mut errors, b"reserve", &mut text) {
        answer(&mut rt.stdout(), &mut errors, &text[..n]);
    }
}
