// Bursts in a trace for programs in C and Python: the steps go to a lent list, and each answer is one number.
ghost use Rattle.std.specs.Prelude.{◌≡◌, ◌≤◌, length};
ghost use Rattle.std.proofs.lemmas.List.Edits.{sets};
ghost use Rattle.sheets.specs.SheetTexts.{AreBytes};
ghost use Rattle.windows.specs.Questions.{wording_of};
ghost use Rattle.windows.specs.Promises.{answer_of, list_after, Bounded};
ghost use Rattle.windows.specs.declared.record.Question.TheVariants as Q;
ghost use Rattle.workbench.specs.Bursts.{survey_number, counts_told, counts_on};

use crate::no_room;
use packing::outcomes::declined_number;
use packing::pack;
use windows::record::{Answer, Counts, Question, Reply, Step, Unanswered};
use windows::survey;

// The number of an answer. A refusal of a question has no place.
#[tactic(auto, unfolding(crate::specs::Bursts::survey_number, windows::specs::Questions::wording_of, notation::specs::Bytes::bytes))]
fn answer_number(answer: Result<Answer, Unanswered>) -> u64
    requires { Bounded (wording_of answer) }
    ensures { result ≡ survey_number (wording_of answer) }
{
    match answer {
        Ok(Answer::Steps(n)) => pack(b'n', n),
        Ok(Answer::Burst(most, place)) => pack(b'b', most + 65536 * place),
        Err(Unanswered::Refused(reason)) => pack(reason.number(), 0),
        Err(Unanswered::Declined(declined)) => declined_number(declined),
    }
}

// The steps of a trace that passes.
#[unsafe(no_mangle)]
pub extern "C" fn nutseason_steps(text: &[u8], sheet: &[u8], list: &mut [Step]) -> u64
    ensures { (result ≡ survey_number (answer_of Q.Steps text.now sheet.now list.old))
        × (list.new ≡ list_after Q.Steps text.now sheet.now list.old)
        × AreBytes sheet.now }
{
    let reply = survey(list, text, sheet, Question::Steps);
    answer_number(reply.answer)
}

// Where a command occurs most in so many steps.
#[unsafe(no_mangle)]
pub extern "C" fn nutseason_burst(
    text: &[u8],
    sheet: &[u8],
    list: &mut [Step],
    command: u64,
    width: u64,
) -> u64
    ensures { (result ≡ survey_number (answer_of (Q.Burst command width) text.now sheet.now list.old))
        × (list.new ≡ list_after (Q.Burst command width) text.now sheet.now list.old)
        × AreBytes sheet.now }
{
    let question = Question::Burst(command as usize, width as usize);
    let reply = survey(list, text, sheet, question);
    answer_number(reply.answer)
}

// Puts the counts at the front of the list.
#[tactic(auto, using(crate::proofs::BurstsTold::copied))]
fn put_counts(entries: &mut [u16], counts: Counts)
    requires { (16 ≤ length entries.old) × (length counts ≡ 16) }
    ensures { entries.new ≡ sets entries.old 0 counts }
{
    entries[..16].copy_from_slice(&counts);
}

// The number of a reply, and its counts at the front of the list, where it has the number of steps.
#[tactic(auto, unfolding(crate::specs::Bursts::counts_told, crate::specs::Bursts::survey_number, windows::specs::Questions::wording_of))]
fn counts_number(reply: Reply, entries: &mut [u16]) -> u64
    requires { Bounded (wording_of reply.answer) × (length reply.counts ≡ 16) }
    ensures { (result ≡ (counts_told (wording_of reply.answer) reply.counts entries.old).number)
        × (entries.new ≡ (counts_told (wording_of reply.answer) reply.counts entries.old).entries) }
{
    match reply.answer {
        Ok(Answer::Steps(_)) if entries.len() < 16 => no_room(),
        Ok(Answer::Steps(_)) => {
            put_counts(entries, reply.counts);
            answer_number(reply.answer)
        }
        _ => answer_number(reply.answer),
    }
}

// How often each command occurs.
#[unsafe(no_mangle)]
pub extern "C" fn nutseason_counts(
    text: &[u8],
    sheet: &[u8],
    list: &mut [Step],
    entries: &mut [u16],
) -> u64
    ensures { (result ≡ (counts_on text.now sheet.now list.old entries.old).number)
        × (entries.new ≡ (counts_on text.now sheet.now list.old entries.old).entries)
        × (list.new ≡ list_after (Q.Counts (length entries.old)) text.now sheet.now list.old)
        × AreBytes sheet.now }
{
    let reply = survey(list, text, sheet, Question::Counts(entries.len()));
    counts_number(reply, entries)
}
