// The line that the answer of the test is written as.
#![tactic(auto)]

ghost use Rattle.std.specs.Prelude.{◌≡◌, ◌≤◌, length};
ghost use Rattle.std.proofs.lemmas.List.Edits.{sets};
ghost use Rattle.io.specs.Counts.{IsPrefixLen};
ghost use Rattle.lines.specs.Writers.{HasRoom, Writes};
ghost use Rattle.wording.specs.Lines.{line_of, line_of_declined};

use conditions::outcome::{Declined, Outcome, Tested};
use lines::Writer;

// Room for every line: a refusal's number and place have at most 20 digits each.
pub type Line = [u8; 64];

// The line of an outcome or a refusal.
#[tactic(auto, unfolding(crate::specs::Lines::spelt, lines::specs::Lines::line, lines::specs::Lines::others, notation::specs::Bytes::bytes, conditions::specs::Outcomes::wording_of))]
pub fn put_tested(out: &mut Writer, tested: Tested)
    requires { HasRoom out.old (line_of tested) }
    ensures { Writes out.old (line_of tested) out.new }
{
    match tested {
        Ok(Outcome::SafeHolds) => out.put(b"safe holds\n"),
        Ok(Outcome::Void) => out.put(b"void\n"),
        Ok(Outcome::TraceHolds) => out.put(b"trace holds\n"),
        Ok(Outcome::FailsA) => out.put(b"A\n"),
        Ok(Outcome::FailsB) => out.put(b"B\n"),
        Ok(Outcome::FailsC) => out.put(b"C\n"),
        Ok(Outcome::FailsD) => out.put(b"D\n"),
        Ok(Outcome::FailsE) => out.put(b"E\n"),
        Ok(Outcome::FailsF) => out.put(b"F\n"),
        Err(refusal) => out.put_refusal(refusal),
    }
}

// The line of what is told in place of an answer.
#[tactic(auto, unfolding(conditions::specs::Outcomes::wording_of_declined))]
pub fn put_declined(out: &mut Writer, declined: Declined)
    requires { HasRoom out.old (line_of_declined declined) }
    ensures { Writes out.old (line_of_declined declined) out.new }
{
    match declined {
        Declined::Refused(refusal) => put_tested(out, Err(refusal)),
        Declined::Tested(outcome) => put_tested(out, Ok(outcome)),
    }
}

// Puts the line of an outcome or a refusal at the front; how long it is.
pub fn put_line(line: &mut Line, tested: Tested) -> usize
    ensures line_after { (line.new ≡ sets line.old 0 (line_of tested)) × (result ≡ length (line_of tested)) × (result ≤ 64) }
    ensures prefix_len { IsPrefixLen result line.new }
{
    let mut out = Writer::new(line);
    put_tested(&mut out, tested);
    out.len()
}
