// The search: the first breaking run of a model's table of one row, or the map of the states that its runs reach, or that none can begin.
#![tactic(auto)]

mod concluding;
mod portions;
pub mod position;
mod room;

ghost use Rattle.std.specs.Prelude.{◌≡◌};
ghost use Rattle.sheets.specs.SheetTexts.{AreBytes};
ghost use Rattle.sheets.specs.working.FlatSystem.{system_at};
ghost use Rattle.verdicts.specs.Left.{Leaves};
ghost use Rattle.verdicts.specs.working.Searching.{search_for, search_of};
ghost use Rattle.search.specs.working.Ends.{EndsWith};

use acceptance::plans::read_table;
use concluding::search_roomy;
use evaluation::numbers::power;
use evaluation::one_row::OneRow;
use room::search_room;
use verdicts::finding::Searched;

// The search over the flat form of a model. A call whose buffers have no room is refused and leaves them as they are.
fn search_code(table: &OneRow, first: &mut [u16], second: &mut [u16], sheet: &mut [u8]) -> Searched
    ensures { EndsWith (search_for (system_at table.now)) result first second sheet }
{
    let states = power(table.plan.bits);
    search_room(states, first, second, sheet)?;
    Ok(search_roomy(table, states, first, second, sheet))
}

// What the search answers for a text, with what it leaves in the lent buffers. What stands in the sheet buffer are bytes, as the test's promises ask.
pub fn search(text: &[u8], first: &mut [u16], second: &mut [u16], sheet: &mut [u8]) -> Searched
    ensures value { result ≡ (search_of text.now first.old second.old sheet.old).answer }
    ensures left { Leaves (search_of text.now first.old second.old sheet.old) first.new second.new sheet.new }
    ensures bytes { AreBytes sheet.new }
{
    let mut ops = [0u16; 2048];
    let table = read_table(text, &mut ops)?;
    search_code(&table, first, second, sheet)
}
