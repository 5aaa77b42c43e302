// What comes before the windows are counted, and after: the test, the refusals and the count of each command; and the answer.
ghost use Rattle.std.specs.Prelude.{◌≡◌};
ghost use Rattle.sheets.specs.SheetTexts.{AreBytes};
ghost use Rattle.windows.specs.Questions.{fault_of, refusal_of};
ghost use Rattle.windows.specs.working.Surveying.{reason_for, tally_for, begin_of, answered_by};

use crate::commands::count_each;
use crate::counting::fresh_tally;
use crate::record::{Answer, Begun, Question, Tally, Unanswered};
use refusals::Reason;
use sheets::fields::{HEADER, wide};
use traces::passed_steps;

// What is wrong with a question by itself, if anything is.
#[tactic(auto, unfolding(crate::specs::Questions::fault_of, crate::specs::working::Surveying::reason_for, refusals::specs::Reasons::reason_of))]
fn fault(question: Question, commands: usize) -> Option<Reason>
    ensures { result ≡ reason_for (fault_of question commands) }
{
    match question {
        Question::Counts(room) if room < 16 => Some(Reason::NoRoom),
        Question::Burst(command, _) if commands <= command => Some(Reason::OutOfRange),
        Question::Burst(_, width) if width == 0 || 4095 < width => Some(Reason::BadWidth),
        _ => None,
    }
}

// The first reason for which a question is refused, if there is one.
#[tactic(auto, unfolding(crate::specs::Questions::refusal_of, crate::specs::working::Surveying::reason_for, refusals::specs::Reasons::reason_of))]
fn refusal(question: Question, commands: usize, places: usize, steps: usize) -> Option<Reason>
    ensures { result ≡ reason_for (refusal_of question commands places steps) }
{
    if places < steps {
        return Some(Reason::NoRoom);
    }
    fault(question, commands)
}

// The tally to begin with. Only of a burst it will tell anything.
#[tactic(auto, unfolding(crate::specs::working::Surveying::tally_for))]
fn tally_for(question: Question) -> Tally
    ensures { result ≡ tally_for question }
{
    match question {
        Question::Burst(command, width) => fresh_tally(command, width),
        _ => fresh_tally(0, 1),
    }
}

// The test comes first, then the refusals of the question.
#[tactic(auto, using(crate::proofs::AskLaws::begin_declined, crate::proofs::AskLaws::begin_refused))]
pub fn begin(
    text: &[u8],
    sheet: &[u8],
    places: usize,
    question: Question,
) -> Result<Begun, Unanswered>
    ensures { (result ≡ begin_of question text.now sheet.now places) × AreBytes sheet.now }
{
    let steps = passed_steps(text, sheet)?;
    // The last of the header's counts is that of the commands.
    let commands = wide(sheet[HEADER - 1]);
    match refusal(question, commands, places, steps) {
        Some(reason) => Err(Unanswered::Refused(reason)),
        None => Ok(Begun {
            steps,
            counts: count_each(sheet, steps),
            from: tally_for(question),
        }),
    }
}

// The answer, once all steps are counted: how many there are, or the burst that the tally tells.
#[tactic(auto, unfolding(crate::specs::working::Surveying::answered_by))]
pub fn answered(question: Question, steps: usize, tally: Tally) -> Answer
    ensures { result ≡ answered_by question steps tally }
{
    match question {
        Question::Burst(_, _) => Answer::Burst(tally.most, tally.place),
        _ => Answer::Steps(steps),
    }
}
