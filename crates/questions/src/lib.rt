// Questions to the map of a sheet: whether a state is a member.
#![tactic(auto)]

ghost use Rattle.std.specs.Prelude.{◌≡◌, Ok};
ghost use Rattle.sheets.specs.SheetTexts.{AreBytes};
ghost use Rattle.sheets.specs.working.FlatSystem.{system_at};
ghost use Rattle.questions.specs.working.Asking.{map_passed, asked_of, reached_of};

use acceptance::plans::read_table;
use acceptance::test_sheet;
use conditions::outcome::{Declined, Outcome};
use evaluation::numbers::power;
use evaluation::one_row::OneRow;
use refusals::Reason;
use sheets::fields::{HEADER, bytes_known, in_map};

// Whether an outcome is that of a map that passes.
fn map_passed(outcome: Outcome) -> bool
    ensures { result ≡ map_passed (Ok outcome) }
{
    matches!(outcome, Outcome::SafeHolds | Outcome::Void)
}

// The reply for a sheet and the flat form of a model: a map that passes is asked for the state's bit.
#[tactic(auto, using(crate::proofs::MapsAsked::asked_refused, crate::proofs::MapsAsked::asked_told, crate::proofs::MapsAsked::asked_beyond), unfolding(refusals::specs::Reasons::reason_of))]
fn asked(b: &[u8], table: &OneRow, state: usize) -> Result<bool, Declined>
    ensures { result ≡ asked_of (system_at table.now) b.now state }
{
    let outcome = test_sheet(b, table)?;
    if !map_passed(outcome) {
        return Err(Declined::Tested(outcome));
    }
    let states = power(table.plan.bits);
    if state >= states {
        return Err(Declined::Refused(Reason::OutOfRange.at(0)));
    }
    Ok(in_map(&b[HEADER + 6..], state))
}

// What a sheet's map answers to the question whether a state is a member. Its promises are about bytes, and what it is handed are bytes.
#[tactic(auto, using(crate::proofs::ReachedTexts::reached_read))]
pub fn reached(text: &[u8], sheet: &[u8], state: usize) -> Result<bool, Declined>
    ensures value { result ≡ reached_of text.now sheet.now state }
    ensures bytes { AreBytes sheet.now }
{
    bytes_known(sheet);
    let mut ops = [0u16; 2048];
    let table = read_table(text, &mut ops)?;
    asked(sheet, &table, state)
}
