// Traces that pass: what whoever works on one has to know of its sheet.
#![tactic(auto)]

ghost use Rattle.std.specs.Prelude.{◌≡◌, ◌+◌, ◌*◌, ◌≤◌, length, IfOk};
ghost use Rattle.sheets.specs.SheetTexts.{AreBytes};
ghost use Rattle.traces.specs.working.Passing.{trace_passed, passed_steps_of};

use acceptance::test;
use conditions::outcome::{Declined, Outcome, Tested};
use sheets::fields::{HEADER, step_count};

// Whether what the test answers is that of a trace that passes.
pub fn trace_passed(tested: Tested) -> bool
    ensures { result ≡ trace_passed tested }
{
    matches!(tested, Ok(Outcome::TraceHolds))
}

// How many steps the trace has as which a sheet passes; else what is told in place of that. All of them stand in the sheet.
#[tactic(auto, unfolding(crate::specs::working::Passing::steps_after))]
pub fn passed_steps(text: &[u8], sheet: &[u8]) -> Result<usize, Declined>
    ensures value { result ≡ passed_steps_of text.now sheet.now }
    ensures there { IfOk result (λ n. (17 + 10 * n ≤ length sheet.now) × (length sheet.now ≤ 65536)) }
    ensures bytes { AreBytes sheet.now }
{
    let outcome = test(text, sheet)?;
    if !trace_passed(Ok(outcome)) {
        return Err(Declined::Tested(outcome));
    }
    Ok(step_count(sheet, HEADER + 8))
}
