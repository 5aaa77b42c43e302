// The run that a trace says: the verdict, the start state, and a line for each step.
ghost use Rattle.lines.specs.Writers.{HasRoom, Writes};
ghost use Rattle.reporting.specs.Reports.{step_line};
ghost use Rattle.reporting.specs.working.Writing.{run_of, Printable};

use lines::Writer;
use names::name;
use reader::Code;
use sheets::fields::{HEADER, two_at, wide};

// `step`, its number, the command's name, the choice word and the state after.
fn put_step(out: &mut Writer, number: usize, called: &[u8], chosen: usize, after: usize)
    requires { HasRoom out.old (step_line number called.now chosen after) }
    ensures { Writes out.old (step_line number called.now chosen after) out.new }
{
    out.put(b"step");
    out.put_number(number);
    out.put_word(called);
    out.put_number(chosen);
    out.put_number(after);
    out.put(b"\n");
}

// The verdict and the run of the trace that the sheet is. The commands' names stand behind the others.
pub fn put_run(out: &mut Writer, text: &[u8], code: &Code, sheet: &[u8])
    requires { Printable text.now code.now sheet.now × HasRoom out.old (run_of text.now sheet.now code.now) }
    ensures { Writes out.old (run_of text.now sheet.now code.now) out.new }
{
    let base = code.shared + code.row;
    let from = HEADER + 8;
    let steps = (sheet.len() - from) / 10;
    out.put_number_line(b"unsafe", steps);
    out.put_number_line(b"start", two_at(sheet, HEADER + 6));
    'steps: for i in 0..steps {
        let p = from + 10 * i + 6;
        let called = name(text, &code.names, base + wide(sheet[p]));
        put_step(out, i + 1, called, wide(sheet[p + 1]), two_at(sheet, p + 2));
    }
}
