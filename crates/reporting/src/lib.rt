// The report of a text: its counts, the verdict with the counts of the map or the first breaking run, or its refusal.
#![tactic(auto)]

mod run;

ghost use Rattle.std.specs.Prelude.{◌≡◌, length};
ghost use Rattle.std.proofs.lemmas.List.Edits.{sets};
ghost use Rattle.io.specs.Counts.{IsPrefixLen};
ghost use Rattle.lines.specs.Writers.{HasRoom, Writes};
ghost use Rattle.verdicts.specs.Left.{Leaves};
ghost use Rattle.verdicts.specs.working.Searching.{search_of};
ghost use Rattle.reporting.specs.working.Writing.{counts, safe_report, void_report, trace_report, MapShown, Printable};
ghost use Rattle.reporting.specs.working.Reporting.{report_of, Searched};

use counting::count_lines::put_count_lines;
use lines::Writer;
use reader::{Code, read};
use refusals::Refusal;
use run::put_run;
use search::search;
use sheets::fields::HEADER;
use verdicts::finding::Finding;

// Every text's search can do with a table of this size: 12 names have 4,096 states.
pub type Table = [u16; 4096];

// Room for every trace of 4,096 states: 10 bytes for each, and 7 more.
pub type Sheet = [u8; 40967];

// Room for every report: lines of 14, 12 and 11 bytes for counts, verdict and start state, and then
// at most 4,095 steps of 36 bytes each. A step has a number and a state of 4 digits, a name of 16 bytes and a word of 3 digits.
pub type Report = [u8; 147457];

// `model`, and how many shared names, row names and commands there are.
fn put_counts(out: &mut Writer, code: &Code)
    requires { HasRoom out.old (counts code.now) }
    ensures { Writes out.old (counts code.now) out.new }
{
    out.put(b"model");
    out.put_number(code.shared);
    out.put_number(code.row);
    out.put_number(code.commands);
    out.put(b"\n");
}

// The report of a safe model, whose map stands in the sheet.
fn put_safe(out: &mut Writer, code: &Code, sheet: &[u8])
    requires { MapShown code.now sheet.now × HasRoom out.old (safe_report code.now sheet.now) }
    ensures { Writes out.old (safe_report code.now sheet.now) out.new }
{
    put_counts(out, code);
    out.put(b"safe\n");
    let map = &sheet[HEADER + 6..];
    put_count_lines(out, map, code.shared + code.row, code.shared);
}

// The report of a void model.
fn put_void(out: &mut Writer, code: &Code)
    requires { HasRoom out.old (void_report code.now) }
    ensures { Writes out.old (void_report code.now) out.new }
{
    put_counts(out, code);
    out.put(b"void\n");
}

// The report of an unsafe model, whose trace is the sheet.
fn put_unsafe(out: &mut Writer, text: &[u8], code: &Code, sheet: &[u8])
    requires { Printable text.now code.now sheet.now × HasRoom out.old (trace_report text.now code.now sheet.now) }
    ensures { Writes out.old (trace_report text.now code.now sheet.now) out.new }
{
    put_counts(out, code);
    put_run(out, text, code, sheet);
}

// The report of a text, from what a search of it answered and left in the sheet. Only a text that was read has a finding.
fn put_found(out: &mut Writer, text: &[u8], found: Result<Finding, Refusal>, sheet: &Sheet)
    requires { Searched text.now found sheet.now × HasRoom out.old (report_of text.now) }
    ensures { Writes out.old (report_of text.now) out.new }
{
    let finding = match found {
        Ok(finding) => finding,
        Err(refusal) => {
            out.put_refusal(refusal);
            return;
        }
    };
    let code = read(text).unwrap();
    match finding {
        Finding::Safe { length, .. } => put_safe(out, &code, &sheet[..length]),
        Finding::Void { .. } => put_void(out, &code),
        Finding::Unsafe { length } => put_unsafe(out, text, &code, &sheet[..length]),
    }
}

// Puts it at the front of `out`; how long it is.
pub fn put_report(
    text: &[u8],
    found: Result<Finding, Refusal>,
    sheet: &Sheet,
    out: &mut Report,
) -> usize
    requires { Searched text.now found sheet.now }
    ensures out_after { (out.new ≡ sets out.old 0 (report_of text.now)) × (result ≡ length (report_of text.now)) }
    ensures within { IsPrefixLen result out.new }
{
    let mut report = Writer::new(out);
    put_found(&mut report, text, found, sheet);
    report.len()
}

// Writes the report of a text at the front of `out`; how long it is.
// Two tables and a sheet are lent to the search, and hold afterwards what it left there.
pub fn write_report(
    text: &[u8],
    first: &mut Table,
    second: &mut Table,
    sheet: &mut Sheet,
    out: &mut Report,
) -> usize
    ensures out_after { (out.new ≡ sets out.old 0 (report_of text.now)) × (result ≡ length (report_of text.now)) }
    ensures within { IsPrefixLen result out.new }
    ensures left { Leaves (search_of text.now first.old second.old sheet.old) first.new second.new sheet.new }
{
    let found = search(text, first, second, sheet);
    put_report(text, found, sheet, out)
}
