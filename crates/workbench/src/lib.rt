// The search, in one go and in portions, its reservation, players of traces and bursts in them for programs in C and Python: a slice is a pointer and a length there, and the answer is one number.
#![tactic(auto)]

mod bursts;
mod players;
mod portions;

ghost use Rattle.std.specs.Prelude.{◌≡◌, ◌+◌, ◌*◌, ◌≤◌};
ghost use Rattle.packing.specs.Packed.{packed};
ghost use Rattle.pauses.specs.Promises.{FinishBounded};
ghost use Rattle.reserving.specs.Answers as reservations;
ghost use Rattle.reserving.specs.Promises as reserving;
ghost use Rattle.sheets.specs.SheetTexts.{AreBytes};
ghost use Rattle.verdicts.specs.Answers.{wording_of};
ghost use Rattle.verdicts.specs.Left.{Leaves};
ghost use Rattle.verdicts.specs.Promises.{answer_of};
ghost use Rattle.verdicts.specs.working.Searching.{search_of};
ghost use Rattle.workbench.specs.Numbers.{search_number};
ghost use Rattle.workbench.specs.Needs.{told_of};

use packing::{pack, refusal_number};
use refusals::{Reason, Refusal};
use reserving::{Reservation, reserve};
use search::search;
use verdicts::finding::{Finding, Searched};

// The number where a lent list has no room for what is to be told in it.
#[tactic(auto, unfolding(refusals::specs::Reasons::number_of))]
fn no_room() -> u64
    ensures { result ≡ packed 8 0 }
{
    refusal_number(Reason::NoRoom.at(0))
}

// The number of a verdict: its letter, the sheet's length, and the number of trials above both. No sheet has more than 7 + 10 * 4096 bytes, and no search makes more than 4096 * 16 * 256 trials; of a position that was altered there may be four times as many.
fn verdict_number(letter: u8, length: usize, trials: usize) -> u64
    requires { (length ≤ 40967) × (trials ≤ 67108864) }
    ensures { result ≡ packed letter (length + 65536 * trials) }
{
    pack(letter, length + 65536 * trials)
}

// The number of an answer.
#[tactic(auto, unfolding(crate::specs::Numbers::search_number, verdicts::specs::Answers::wording_of, notation::specs::Bytes::bytes))]
pub fn finding_number(searched: Searched) -> u64
    requires { FinishBounded (wording_of searched) }
    ensures { result ≡ search_number (wording_of searched) }
{
    match searched {
        Ok(Finding::Safe { length, trials }) => verdict_number(b's', length, trials),
        Ok(Finding::Void { length }) => verdict_number(b'v', length, 0),
        Ok(Finding::Unsafe { length }) => verdict_number(b'u', length, 0),
        Err(refusal) => refusal_number(refusal),
    }
}

// The answer for a text, with what the search leaves in the lent buffers.
#[unsafe(no_mangle)]
pub extern "C" fn nutseason_search(
    text: &[u8],
    first: &mut [u16],
    second: &mut [u16],
    sheet: &mut [u8],
) -> u64
    ensures value { result ≡ search_number (answer_of (search_of text.now first.old second.old sheet.old)) }
    ensures left { Leaves (search_of text.now first.old second.old sheet.old) first.new second.new sheet.new }
    ensures bytes { AreBytes sheet.new }
{
    finding_number(search(text, first, second, sheet))
}

// The number of a reservation, whose three numbers go to the front of the lent list.
#[tactic(auto, unfolding(crate::specs::Needs::told_of, reserving::specs::Answers::wording_of, notation::specs::Bytes::bytes))]
fn reservation_number(reserved: Result<Reservation, Refusal>, needs: &mut [u64]) -> u64
    requires { reserving.Bounded (reservations.wording_of reserved) }
    ensures value { result ≡ (told_of (reservations.wording_of reserved) needs.old).number }
    ensures left { needs.new ≡ (told_of (reservations.wording_of reserved) needs.old).needs }
{
    match reserved {
        Ok(_) if needs.len() < 3 => no_room(),
        Ok(reservation) => {
            needs[0] = reservation.entries as u64;
            needs[1] = reservation.bytes as u64;
            needs[2] = reservation.trials as u64;
            pack(b'r', 0)
        }
        Err(refused) => refusal_number(refused),
    }
}

// The reservation for a text: the entries of one table, the bytes of the sheet buffer and the most trials, at the front of the lent list.
#[unsafe(no_mangle)]
pub extern "C" fn nutseason_reserve(text: &[u8], needs: &mut [u64]) -> u64
    ensures value { result ≡ (told_of (reserving.answer_for text.now) needs.old).number }
    ensures left { needs.new ≡ (told_of (reserving.answer_for text.now) needs.old).needs }
{
    reservation_number(reserve(text), needs)
}
