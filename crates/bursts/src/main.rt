// Counts the commands of a trace: `bursts TEXT SHEET WIDTH`, the paths of two files and a decimal number.
// For each command of the text's model, in the text's order, it writes a line to standard output: `NAME COUNT MOST PLACE`, how often the command occurs,
// the most times in WIDTH steps on end, and the number of the step where the first such stretch begins.
// Where the sheet is no trace that passes it writes the line of the test instead, and for a width of 0 or above 4,095 `refused 16 0`.
// Without three arguments, where WIDTH is no decimal number or where a file can't be read, it writes nothing to standard output, and a line to standard error.
// Where the lines can't be written, one there says so too.
#![tactic(auto)]

mod width;

ghost use Rattle.std.specs.Prelude.{◌≡◌, length};
ghost use Rattle.io.specs.Counts.{IsPrefixLen};
ghost use Rattle.sheets.specs.SheetTexts.{AreBytes};
ghost use Rattle.windows.specs.Questions.{wording_of};
ghost use Rattle.windows.specs.Promises.{counts_after};
ghost use Rattle.windows.specs.working.Surveying.{blanks};
ghost use Rattle.windows.specs.declared.record.Question.TheVariants.{Steps};
ghost use Rattle.lines.specs.Puts.{Puts};
ghost use Rattle.lines.specs.Writers.{HasRoom, Writes};
ghost use Rattle.bursts.specs.Lines.{burst_line};
ghost use Rattle.bursts.specs.working.Writing.{line_for, Listed, table_in, table_of, with_width, bursts_of};

use lines::Writer;
use names::name;
use reader::{Code, read};
use refusals::Reason;
use std::env::Env;
use std::fs::Files;
use std::io::Write;
use streams::arguments::{argument, argument_count};
use streams::files::read_argument;
use streams::output::write_out;
use streams::told::tell;
use width::width_in;
use windows::record::{Answer, Counts as CommandCounts, Question, Unanswered};
use windows::values::survey_of;
use wording::put_declined;

// Room for 16 lines, each a name of at most 16 bytes, three numbers of at most 20 digits behind spaces, and a newline.
type Lines = [u8; 1280];

// The line of a command: its name, how often it occurs, the most times in a stretch, and the place of the first such stretch.
fn put_burst_line(out: &mut Writer, called: &[u8], occurs: usize, most: usize, place: usize)
    requires { HasRoom out.old (burst_line called.now occurs most place) }
    ensures { Writes out.old (burst_line called.now occurs most place) out.new }
{
    out.put(called);
    out.put_number(occurs);
    out.put_number(most);
    out.put_number(place);
    out.put(b"\n");
}

// The line of what is answered about a command. Only a burst has one.
#[tactic(auto, using(lines::proofs::Writers::nothing), unfolding(crate::specs::working::Writing::line_for, windows::specs::Questions::wording_of))]
fn put_answer(out: &mut Writer, called: &[u8], occurs: usize, answer: Result<Answer, Unanswered>)
    requires { HasRoom out.old (line_for called.now occurs (wording_of answer)) }
    ensures { Writes out.old (line_for called.now occurs (wording_of answer)) out.new }
{
    match answer {
        Ok(Answer::Burst(most, place)) => put_burst_line(out, called, occurs, most, place),
        Ok(Answer::Steps(_)) => {}
        Err(Unanswered::Refused(_)) => {}
        Err(Unanswered::Declined(_)) => {}
    }
}

// The lines of the commands with these counts. Their names stand behind the others.
fn put_table(out: &mut Writer, text: &[u8], sheet: &[u8], code: &Code, counts: &[u16], width: usize)
    requires { Listed text.now code.now (length counts.now) × HasRoom out.old (table_in text.now code.now counts.now sheet.now width) }
    ensures { Writes out.old (table_in text.now code.now counts.now sheet.now width) out.new }
{
    let base = code.shared + code.row;
    'commands: for (k, n) in counts.iter().enumerate() {
        let reply = survey_of(text, sheet, Question::Burst(k, width));
        let called = name(text, &code.names, base + k);
        put_answer(out, called, usize::from(*n), reply.answer);
    }
}

// The lines of all commands of a trace that passes; a width out of range is refused.
fn put_commands(out: &mut Writer, text: &[u8], sheet: &[u8], counts: &CommandCounts, width: usize)
    requires { (counts.now ≡ counts_after Steps text.now sheet.now blanks) × HasRoom out.old (with_width width (table_of text.now sheet.now width)) }
    ensures { Writes out.old (with_width width (table_of text.now sheet.now width)) out.new }
{
    if width == 0 || 4095 < width {
        out.put_refusal(Reason::BadWidth.at(0));
        return;
    }
    let Ok(code) = read(text) else {
        return;
    };
    put_table(out, text, sheet, &code, &counts[..code.commands], width);
}

// All that is written of a text, a sheet and a width.
fn put_all(out: &mut Writer, text: &[u8], sheet: &[u8], width: usize)
    requires { HasRoom out.old (bursts_of text.now sheet.now width) }
    ensures { Writes out.old (bursts_of text.now sheet.now width) out.new × AreBytes sheet.now }
{
    let reply = survey_of(text, sheet, Question::Steps);
    match reply.answer {
        Ok(_) => put_commands(out, text, sheet, &reply.counts, width),
        Err(Unanswered::Refused(reason)) => out.put_refusal(reason.at(0)),
        Err(Unanswered::Declined(declined)) => put_declined(out, declined),
    }
}

// Puts it at the front; how long it is.
fn put_bursts(out: &mut Lines, text: &[u8], sheet: &[u8], width: usize) -> usize
    ensures puts { Puts out.old 0 (bursts_of text.now sheet.now width) out.new result × AreBytes sheet.now }
    ensures within { IsPrefixLen result out.new }
{
    let mut lines = Writer::new(out);
    put_all(&mut lines, text, sheet, width);
    lines.len()
}

// Writes the lines to standard output.
fn answer(out: &mut impl Write, errors: &mut impl Write, text: &[u8], sheet: &[u8], width: usize) {
    let mut lines = [0u8; 1280];
    let n = put_bursts(&mut lines, text, sheet, width);
    write_out(out, errors, b"bursts", &lines[..n]);
}

// Reads the text and the sheet into their rooms, and answers.
fn answer_into<R: Env + Files>(
    rt: &R,
    out: &mut impl Write,
    errors: &mut impl Write,
    text: &mut [u8],
    sheet: &mut [u8],
    width: usize,
) {
    let Some(n) = read_argument(rt, errors, b"bursts", 1, text) else {
        return;
    };
    let Some(m) = read_argument(rt, errors, b"bursts", 2, sheet) else {
        return;
    };
    answer(out, errors, &text[..n], &sheet[..m], width);
}

// The width that the third argument says.
fn width_given(rt: &impl Env) -> Option<usize> {
    let mut room = [0u8; 131072];
    let n = argument(rt, 3, &mut room);
    width_in(&room[..n])
}

// The rooms have a byte more than the longest text and the longest sheet that the test takes, so it refuses a longer one itself.
fn main(rt: HostRuntime) {
    let mut errors = rt.stderr();
    if argument_count(&rt) != 4 {
        tell(&mut errors, b"usage: bursts TEXT SHEET WIDTH\n");
        return;
    }
    let Some(width) = width_given(&rt) else {
        tell(&mut errors, b"bursts: WIDTH is no decimal number\n");
        return;
    };
    let mut text = [0u8; 16385];
    let mut sheet = [0u8; 65537];
    answer_into(
        &rt,
        &mut rt.stdout(),
        &mut errors,
        &mut text,
        &mut sheet,
        width,
    );
}
