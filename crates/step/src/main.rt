// Walks a trace step by step: `step TEXT SHEET`, the paths of two files.
// It opens a player on them and writes `opened PLACE STATE` to standard output; where the sheet is no trace that passes, the line of the test instead, and ends.
// Then bytes of standard input ask for moves: `f` forward, `b` back, `0` to the beginning. Every other byte is passed over.
// A move is answered at once, with the record after it: `moved PLACE STATE`, `end PLACE STATE` where it leads nowhere, `foreign PLACE STATE` if the record were none of the trace.
// Without two arguments, or where a file can't be read, it writes nothing to standard output, and a line to standard error. Where it can't write a line, one there says so too, and it ends.
#![tactic(auto)]

ghost use Rattle.std.specs.Prelude.{◌≡◌, ◌≤◌, length};
ghost use Rattle.std.proofs.lemmas.List.Edits.{sets};
ghost use Rattle.io.specs.Counts.{IsPrefixLen};
ghost use Rattle.lines.specs.Writers.{HasRoom, Writes};
ghost use Rattle.player.specs.Answers.{wording_of, opening_for};
ghost use Rattle.step.specs.Keys.{asked_by, record_then, GoesOn};
ghost use Rattle.step.specs.Lines.{record_line, line_of, opening_line};

use conditions::outcome::Declined;
use lines::Writer;
use player::moves::open_player;
use player::record::{Answer, Direction, Player};
use player::values::move_of;
use std::env::Env;
use std::fs::Files;
use std::io::{Read, Write};
use streams::arguments::argument_count;
use streams::files::read_argument;
use streams::output::write_out;
use streams::told::tell;
use wording::{Line, put_declined};

// More blocks than ever come: a thousand million of them each second would take 584 years.
const MOST_BLOCKS: u64 = u64::MAX;

// What a byte asks for, if for anything.
#[tactic(auto, unfolding(crate::specs::Keys::asked_by))]
fn asked_by(b: u8) -> Option<Direction>
    ensures { result ≡ asked_by b }
{
    match b {
        b'f' => Some(Direction::Forward),
        b'b' => Some(Direction::Back),
        b'0' => Some(Direction::Beginning),
        _ => None,
    }
}

// A word, a record's place and its state.
fn put_record(out: &mut Writer, title: &[u8], player: Player)
    requires { HasRoom out.old (record_line title.now player) }
    ensures { Writes out.old (record_line title.now player) out.new }
{
    out.put_numbers_line(title, player.place, player.state);
}

// The line of an answer, with the record after the move.
#[tactic(auto, unfolding(crate::specs::Lines::line_of, player::specs::Answers::wording_of, notation::specs::Bytes::bytes))]
fn put_move(out: &mut Writer, answer: Result<Answer, Declined>, player: Player)
    requires { HasRoom out.old (line_of (wording_of answer) player) }
    ensures { Writes out.old (line_of (wording_of answer) player) out.new }
{
    match answer {
        Ok(Answer::Moved) => put_record(out, b"moved", player),
        Ok(Answer::AtEnd) => put_record(out, b"end", player),
        Ok(Answer::Foreign) => put_record(out, b"foreign", player),
        Err(declined) => put_declined(out, declined),
    }
}

// The line of an opening.
#[tactic(auto, unfolding(crate::specs::Lines::opening_line, player::specs::Answers::opening_for, notation::specs::Bytes::bytes))]
fn put_opened(out: &mut Writer, opened: Result<Player, Declined>)
    requires { HasRoom out.old (opening_line (opening_for opened)) }
    ensures { Writes out.old (opening_line (opening_for opened)) out.new }
{
    match opened {
        Ok(player) => put_record(out, b"opened", player),
        Err(declined) => put_declined(out, declined),
    }
}

// Puts the line of an answer at the front, with the record after the move; how long it is. A word has at most 7 bytes and each number at most 20 digits, so there is room.
fn put_answer(line: &mut Line, answer: Result<Answer, Declined>, player: Player) -> usize
    ensures line_after { (line.new ≡ sets line.old 0 (line_of (wording_of answer) player)) × (result ≡ length (line_of (wording_of answer) player)) × (result ≤ 64) }
    ensures prefix_len { IsPrefixLen result line.new }
{
    let mut out = Writer::new(line);
    put_move(&mut out, answer, player);
    out.len()
}

// Puts the line of an opening at the front; how long it is.
fn put_opening(line: &mut Line, opened: Result<Player, Declined>) -> usize
    ensures line_after { (line.new ≡ sets line.old 0 (opening_line (opening_for opened))) × (result ≡ length (opening_line (opening_for opened))) × (result ≤ 64) }
    ensures prefix_len { IsPrefixLen result line.new }
{
    let mut out = Writer::new(line);
    put_opened(&mut out, opened);
    out.len()
}

// Writes the line of an answer; whether it could.
fn write_answer(
    out: &mut impl Write,
    errors: &mut impl Write,
    answer: Result<Answer, Declined>,
    player: Player,
) -> bool {
    let mut line = [0u8; 64];
    let n = put_answer(&mut line, answer, player);
    write_out(out, errors, b"step", &line[..n])
}

// Writes the line of an opening; whether it could.
fn write_opening(
    out: &mut impl Write,
    errors: &mut impl Write,
    opened: Result<Player, Declined>,
) -> bool {
    let mut line = [0u8; 64];
    let n = put_opening(&mut line, opened);
    write_out(out, errors, b"step", &line[..n])
}

// Makes the move that a byte asks for, if it asks for one, and writes its line; the record to go on from, unless the line could not be written.
#[tactic(auto, unfolding(crate::specs::Keys::record_then))]
fn answer_byte(
    out: &mut impl Write,
    errors: &mut impl Write,
    b: u8,
    player: Player,
    text: &[u8],
    sheet: &[u8],
) -> Option<Player>
    ensures { GoesOn result (record_then (asked_by b) text.now sheet.now player) }
{
    let Some(direction) = asked_by(b) else {
        return Some(player);
    };
    let moved = move_of(direction, player, text, sheet);
    let after = moved.player;
    if !write_answer(out, errors, moved.answer, after) {
        return None;
    }
    Some(after)
}

// Answers the bytes of standard input as they come, a block of them at a time. Nothing says that the input ends, so the blocks are counted.
fn walk(
    input: &mut impl Read,
    out: &mut impl Write,
    errors: &mut impl Write,
    first: Player,
    text: &[u8],
    sheet: &[u8],
) {
    let mut player = first;
    let mut block = [0u8; 65536];
    'blocks: for _ in 0..MOST_BLOCKS {
        let Ok(n) = input.read(&mut block) else {
            return;
        };
        if n == 0 {
            return;
        }
        'bytes: for b in &block[..n] {
            let Some(next) = answer_byte(out, errors, *b, player, text, sheet) else {
                return;
            };
            player = next;
        }
    }
}

// Opens a player, and walks where there is a trace.
fn play(
    input: &mut impl Read,
    out: &mut impl Write,
    errors: &mut impl Write,
    text: &[u8],
    sheet: &[u8],
) {
    let opened = open_player(text, sheet);
    if !write_opening(out, errors, opened) {
        return;
    }
    let Ok(player) = opened else {
        return;
    };
    walk(input, out, errors, player, text, sheet);
}

// Reads the text and the sheet into their rooms, and plays.
fn play_into<R: Env + Files>(
    rt: &R,
    input: &mut impl Read,
    out: &mut impl Write,
    errors: &mut impl Write,
    text: &mut [u8],
    sheet: &mut [u8],
) {
    let Some(n) = read_argument(rt, errors, b"step", 1, text) else {
        return;
    };
    let Some(m) = read_argument(rt, errors, b"step", 2, sheet) else {
        return;
    };
    play(input, out, errors, &text[..n], &sheet[..m]);
}

// The rooms have a byte more than the longest text and the longest sheet that the test takes, so it refuses a longer one itself.
fn main(rt: HostRuntime) {
    let mut errors = rt.stderr();
    if argument_count(&rt) != 3 {
        tell(&mut errors, b"usage: step TEXT SHEET\n");
        return;
    }
    let mut text = [0u8; 16385];
    let mut sheet = [0u8; 65537];
    play_into(
        &rt,
        &mut rt.stdin(),
        &mut rt.stdout(),
        &mut errors,
        &mut text,
        &mut sheet,
    );
}
