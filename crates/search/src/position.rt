// A search in portions: the position is handed back as a value, and the tables stay with the caller.
ghost use Rattle.std.specs.Prelude.{◌≡◌};
ghost use Rattle.pauses.specs.Held.{Holding};
ghost use Rattle.pauses.specs.working.Pausing.{open_of, portion_of, finish_of, met_of};
ghost use Rattle.sheets.specs.SheetTexts.{AreBytes};
ghost use Rattle.verdicts.specs.Left.{Leaves};
ghost use Rattle.search.specs.Answers.{pause_for, wording_of};

use crate::portions::{finish_code, met_code, open_code, portion_code};
use acceptance::plans::read_table;
use conditions::outcome::Declined;
use refusals::Refusal;
use traversal::exploring::Reach;
use verdicts::finding::Searched;

// How many states were expanded and how many were met, whether the last of them violates `keep`, and how many trials were made.
#[derive(Clone, Copy, Debug, Default, PartialEq, Eq)]
pub struct Position {
    pub expanded: usize,
    pub met: usize,
    pub broke: bool,
    pub trials: usize,
}

// A position, unless the call is refused.
pub type Paused = Result<Position, Refusal>;

// How far the loops went is a position, and back.
impl From<Reach> for Position {
    ghost from_gives = { λ reach position. position ≡ record { expanded = reach.head; met = reach.count; broke = reach.found; trials = reach.trials } };

    fn from(reach: Reach) -> Position {
        Position {
            expanded: reach.head,
            met: reach.count,
            broke: reach.found,
            trials: reach.trials,
        }
    }
}

impl From<Position> for Reach {
    ghost from_gives = { λ position reach. reach ≡ record { count = position.met; found = position.broke; head = position.expanded; trials = position.trials } };

    fn from(position: Position) -> Reach {
        Reach {
            count: position.met,
            found: position.broke,
            head: position.expanded,
            trials: position.trials,
        }
    }
}

// Opens a search: the start states are taken in, up to the first that violates `keep`.
pub fn open(text: &[u8], first: &mut [u16], second: &mut [u16]) -> Paused
    ensures result_value { wording_of result ≡ (open_of text.now first.old second.old).answer }
    ensures left { Holding (open_of text.now first.old second.old) first.new second.new }
{
    let mut ops = [0u16; 2048];
    let table = read_table(text, &mut ops)?;
    open_code(&table, first, second)
}

// Whether a state has been met by the search that the tables hold, which the tables alone tell.
// Yes and no mean something where the tables are as a call for the same text left them (`MetTells`).
pub fn met(state: usize, text: &[u8], first: &[u16], second: &[u16]) -> Result<bool, Declined>
    ensures { result ≡ met_of text.now state first.now second.now }
{
    let mut ops = [0u16; 2048];
    let table = read_table(text, &mut ops)?;
    met_code(&table, state, first, second)
}

impl Position {
    // Expands so many states more at most, in the order in which they were met; the next position.
    // What is promised of it holds where position and tables are as a call for the same text left them (`Unaltered`); of others only what holds of all (`AnyHeld`).
    pub fn portion(
        self,
        states: usize,
        text: &[u8],
        first: &mut [u16],
        second: &mut [u16],
    ) -> Paused
        ensures result_value { wording_of result ≡ (portion_of text.now (pause_for self) states first.old second.old).answer }
        ensures left { Holding (portion_of text.now (pause_for self) states first.old second.old) first.new second.new }
    {
        let mut ops = [0u16; 2048];
        let table = read_table(text, &mut ops)?;
        portion_code(&table, Reach::from(self), states, first, second)
    }

    // Finishes the search: expands what is left, writes the sheet, clears the tables.
    // Of position and tables that are as a call for the same text left them it is promised that this is what a search in one go leaves (`PortionsAgree`); of others only what holds of all (`AnyLeft`).
    pub fn finish(
        self,
        text: &[u8],
        first: &mut [u16],
        second: &mut [u16],
        sheet: &mut [u8],
    ) -> Searched
        ensures value { result ≡ (finish_of text.now (pause_for self) first.old second.old sheet.old).answer }
        ensures left { Leaves (finish_of text.now (pause_for self) first.old second.old sheet.old) first.new second.new sheet.new }
        ensures bytes { AreBytes sheet.new }
    {
        let mut ops = [0u16; 2048];
        let table = read_table(text, &mut ops)?;
        finish_code(&table, Reach::from(self), first, second, sheet)
    }
}
