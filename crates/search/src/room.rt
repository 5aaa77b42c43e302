// Whether what is lent has room. A call without room is refused, and leaves everything as it is.
ghost use Rattle.std.specs.Prelude.{◌≡◌, ◌+◌, ◌*◌, ◌≤◌, ◌&&◌, leb, length};
ghost use Rattle.search.specs.working.Ends.{room_told};

use refusals::{Reason, Refusal};
use sheets::fields::sheet_room;

// Each table has an entry for each state.
#[tactic(auto, unfolding(refusals::specs::Reasons::reason_of))]
pub fn table_room(states: usize, first: &[u16], second: &[u16]) -> Result<(), Refusal>
    ensures { result ≡ room_told (leb states (length first.now) && leb states (length second.now)) }
{
    if first.len() < states || second.len() < states {
        return Err(Reason::NoRoom.at(0));
    }
    Ok(())
}

// So it is, and the buffer has room for every sheet.
#[tactic(auto, unfolding(refusals::specs::Reasons::reason_of))]
pub fn search_room(
    states: usize,
    first: &[u16],
    second: &[u16],
    sheet: &[u8],
) -> Result<(), Refusal>
    requires { states ≤ 4096 }
    ensures { result ≡ room_told (leb states (length first.now) && (leb states (length second.now) && leb (7 + 10 * states) (length sheet.now))) }
{
    table_room(states, first, second)?;
    if sheet.len() < sheet_room(states) {
        return Err(Reason::NoRoom.at(0));
    }
    Ok(())
}
