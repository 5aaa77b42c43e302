// A search in portions over the flat form of a model. Position and tables come from outside: each call judges them before it goes on, and relies on no call before it.
ghost use Rattle.std.specs.Prelude.{◌≡◌, ◌^◌, ◌≤◌, length, Ok};
ghost use Rattle.exploration.specs.working.CodeTransitions.{transitions_at};
ghost use Rattle.exploration.specs.working.Pauses.{Judged};
ghost use Rattle.exploration.specs.working.Tables.{Ready};
ghost use Rattle.pauses.specs.working.Pausing.{open_for, portion_for, finish_in, finish_for, met_for};
ghost use Rattle.sheets.specs.Sheets.{sheet_room};
ghost use Rattle.sheets.specs.working.FlatSystem.{system_at};
ghost use Rattle.search.specs.working.Ends.{EndsWith};
ghost use Rattle.search.specs.working.Pausing.{pause_in, can_close, GoesOn, HoldsWith};

use crate::concluding::{conclude, search_roomy};
use crate::position::{Paused, Position};
use crate::room::{search_room, table_room};
use conditions::outcome::Declined;
use evaluation::numbers::power;
use evaluation::one_row::OneRow;
use refusals::Reason;
use tracing::recorded::is_recorded;
use traversal::exploring::{Reach, begin, explore};
use traversal::intact::can_go_on;
use verdicts::finding::{Finding, Searched};

// The start states are taken in.
pub fn open_code(table: &OneRow, first: &mut [u16], second: &mut [u16]) -> Paused
    ensures { HoldsWith (open_for (system_at table.now)) result first second }
{
    let states = power(table.plan.bits);
    table_room(states, first, second)?;
    let reach = begin(table, states, first, second);
    Ok(Position::from(reach))
}

// At most so many states more are expanded, unless the search has broken off.
fn go_on(table: &OneRow, reach: Reach, most: usize, first: &mut [u16], second: &mut [u16]) -> Reach
    requires { Judged (transitions_at table.now) (pause_in reach) first.old second.old }
    ensures { GoesOn (transitions_at table.now) most reach result first second }
{
    if reach.found {
        return reach;
    }
    let next = explore(table, first, second, reach.count, reach.head, most);
    Reach {
        trials: reach.trials + next.trials,
        ..next
    }
}

// A portion. A position that its tables do not bear out has nothing left to expand, so that whoever goes on to the end comes to one.
pub fn portion_code(
    table: &OneRow,
    reach: Reach,
    most: usize,
    first: &mut [u16],
    second: &mut [u16],
) -> Paused
    ensures { HoldsWith (portion_for (system_at table.now) (pause_in reach) most) result first second }
{
    let states = power(table.plan.bits);
    table_room(states, first, second)?;
    if !can_go_on(reach, states, first, second) {
        return Ok(Position::default());
    }
    let next = go_on(table, reach, most, first, second);
    Ok(Position::from(next))
}

// Whether the tables tell the sheet: they do where no state met breaks, and else where a run to the last of them is recorded.
fn can_close(table: &OneRow, states: usize, reach: Reach, first: &[u16], second: &[u16]) -> bool
    requires { (states ≡ 2 ^ table.now.plan.bits) × Ready (transitions_at table.now) first.now reach.count second.now }
    ensures { result ≡ can_close (transitions_at table.now) reach first.now second.now }
{
    if !reach.found {
        return true;
    }
    if reach.count == 0 {
        return false;
    }
    let last = first[reach.count - 1];
    is_recorded(table, states, second, last)
}

// All states that are left are expanded, and the search is concluded. Where the tables do not bear the position out, or do not tell the sheet, it is made from the beginning.
fn finish_roomy(
    table: &OneRow,
    states: usize,
    reach: Reach,
    first: &mut [u16],
    second: &mut [u16],
    sheet: &mut [u8],
) -> Finding
    requires { (states ≡ 2 ^ table.now.plan.bits) × (states ≤ length first.old) × (states ≤ length second.old) × (sheet_room (system_at table.now) ≤ length sheet.old) }
    ensures { EndsWith (finish_in (system_at table.now) (pause_in reach)) (Ok result) first second sheet }
{
    if !can_go_on(reach, states, first, second) {
        return search_roomy(table, states, first, second, sheet);
    }
    let all = go_on(table, reach, states, first, second);
    if !can_close(table, states, all, first, second) {
        return search_roomy(table, states, first, second, sheet);
    }
    conclude(table, states, all, first, second, sheet)
}

// A search finished. A call whose buffers have no room is refused and leaves them as they are.
pub fn finish_code(
    table: &OneRow,
    reach: Reach,
    first: &mut [u16],
    second: &mut [u16],
    sheet: &mut [u8],
) -> Searched
    ensures { EndsWith (finish_for (system_at table.now) (pause_in reach)) result first second sheet }
{
    let states = power(table.plan.bits);
    search_room(states, first, second, sheet)?;
    Ok(finish_roomy(table, states, reach, first, second, sheet))
}

// Whether a state is met.
pub fn met_code(
    table: &OneRow,
    state: usize,
    first: &[u16],
    second: &[u16],
) -> Result<bool, Declined>
    ensures { result ≡ met_for (system_at table.now) state first.now second.now }
{
    let states = power(table.plan.bits);
    table_room(states, first, second)?;
    if states <= state {
        return Err(Declined::Refused(Reason::OutOfRange.at(0)));
    }
    Ok(0 < second[state])
}
