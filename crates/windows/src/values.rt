// A question for a caller that has no list to lend: one is lent from here, with a place for every step that a sheet can have.
ghost use Rattle.std.specs.Prelude.{◌≡◌};
ghost use Rattle.sheets.specs.SheetTexts.{AreBytes};
ghost use Rattle.windows.specs.working.Surveying.{blanks, survey_of};

use crate::record::{Question, Reply, Step};
use crate::survey;

// What is answered to a question.
#[tactic(auto, unfolding(crate::specs::working::Surveying::blanks))]
pub fn survey_of(text: &[u8], sheet: &[u8], question: Question) -> Reply
    ensures { (result ≡ (survey_of question text.now sheet.now blanks).reply)
        × AreBytes sheet.now }
{
    let blank = Step {
        command: 0,
        word: 0,
        after: 0,
    };
    let mut list = [blank; 6551];
    survey(&mut list, text, sheet, question)
}
