// Bursts in a trace: its steps put in a lent list, and commands counted in windows of it.
#![tactic(auto)]

pub mod asking;
pub mod commands;
pub mod counting;
pub mod record;
pub mod values;

ghost use Rattle.std.specs.Prelude.{◌≡◌, [], ◌-◌, ◌*◌, ◌≤◌, length, take};
ghost use Rattle.sheets.specs.SheetTexts.{AreBytes};
ghost use Rattle.traces.specs.working.Passing.{header};
ghost use Rattle.windows.specs.working.Sliding.{commands_in, tally_of};
ghost use Rattle.windows.specs.working.Surveying.{step_at, filled, survey_of};

use asking::{answered, begin};
use commands::step_at;
use counting::{leaving, slide};
use record::{Question, Reply, Step, Tally};

// The list becomes as many first steps of the trace in a sheet.
#[tactic(auto, using(crate::proofs::Filled::filled_none, crate::proofs::Filled::filled_next))]
pub fn fill(list: &mut [Step], sheet: &[u8])
    requires { (length list.old ≤ 6551) × (10 * length list.old ≤ length sheet.now - 17) }
    ensures { list.new ≡ filled (step_at header sheet.now) list.old (length list.old) }
{
    for (i, step) in list.iter_mut().enumerate() {
        *step = step_at(sheet, i);
    }
}

// Steps counted from a tally on that has seen nothing: one pass, whatever the width is.
#[tactic(auto, using(crate::proofs::Tallies::leaving_le, crate::proofs::Tallies::tallied_zero, crate::proofs::Tallies::tallied_small, crate::proofs::Tallies::tallied_next, crate::proofs::Tallies::tallied_all))]
pub fn count(steps: &[Step], from: Tally) -> Tally
    requires { (length steps.now ≤ 6551) × (1 ≤ from.width) × (from ≡ tally_of from.command from.width []) }
    ensures { result ≡ tally_of from.command from.width (commands_in steps.now) }
{
    let mut t = from;
    for (i, step) in steps.iter().enumerate() {
        t = slide(t, *step, steps[leaving(from, i)]);
    }
    t
}

// What is answered to a question; the steps of a trace that passes are put in the list and counted there.
pub fn survey(list: &mut [Step], text: &[u8], sheet: &[u8], question: Question) -> Reply
    ensures { (list.new ≡ (survey_of question text.now sheet.now list.old).list)
        × (result ≡ (survey_of question text.now sheet.now list.old).reply)
        × AreBytes sheet.now }
{
    match begin(text, sheet, list.len(), question) {
        Ok(begun) => {
            let steps = &mut list[..begun.steps];
            fill(steps, sheet);
            let tally = count(steps, begun.from);
            let counts = begun.counts;
            Reply {
                answer: Ok(answered(question, begun.steps, tally)),
                counts,
            }
        }
        Err(unanswered) => Reply {
            answer: Err(unanswered),
            counts: [0; 16],
        },
    }
}
