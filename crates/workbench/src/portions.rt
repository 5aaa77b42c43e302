// A search in portions, and questions about states, for programs in C and Python. A position is a number too.
ghost use Rattle.std.specs.Prelude.{◌≡◌, ◌≤◌};
ghost use Rattle.pauses.specs.Held.{Holding};
ghost use Rattle.pauses.specs.Promises.{Bounded, met_reply};
ghost use Rattle.pauses.specs.working.Pausing.{open_of, portion_of, finish_of};
ghost use Rattle.questions.specs.Answers as questions;
ghost use Rattle.questions.specs.Promises as asking;
ghost use Rattle.search.specs.Answers.{pause_for, wording_of};
ghost use Rattle.sheets.specs.SheetTexts.{AreBytes};
ghost use Rattle.verdicts.specs.Left.{Leaves};
ghost use Rattle.verdicts.specs.Promises.{answer_of};
ghost use Rattle.workbench.specs.Numbers.{search_number};
ghost use Rattle.workbench.specs.Positions.{position_number, paused_number, pause_at, reply_number};

use crate::finding_number;
use conditions::outcome::Declined;
use packing::outcomes::declined_number;
use packing::{pack, refusal_number};
use questions::reached;
use search::position::{Paused, Position, met, open};

// The number of a position.
#[tactic(auto, unfolding(crate::specs::Positions::position_number, notation::specs::Bytes::bytes))]
fn position_number(position: Position) -> u64
    requires { (position.expanded ≤ 4096) × (position.met ≤ 4096) × (position.trials ≤ 67108864) }
    ensures { result ≡ position_number (pause_for position) }
{
    let above = 2 * (position.expanded + 8192 * (position.met + 8192 * position.trials));
    if position.broke {
        return pack(b'e', 1 + above);
    }
    if position.met <= position.expanded {
        return pack(b'e', above);
    }
    pack(b'p', above)
}

// The number of an answer that may be a position.
#[tactic(auto, unfolding(crate::specs::Positions::paused_number, search::specs::Answers::wording_of))]
fn paused_number(paused: Paused) -> u64
    requires { Bounded (wording_of paused) }
    ensures { result ≡ paused_number (wording_of paused) }
{
    match paused {
        Ok(position) => position_number(position),
        Err(refusal) => refusal_number(refusal),
    }
}

// The position that a number stands for. Every number stands for one: what it says is judged by the call that it is handed to.
#[tactic(auto, unfolding(crate::specs::Positions::pause_at))]
fn position_at(number: u64) -> Position
    ensures { pause_for result ≡ pause_at number }
{
    Position {
        expanded: (number / 512 % 8192) as usize,
        met: (number / 4194304 % 8192) as usize,
        broke: number / 256 % 2 == 1,
        trials: (number / 34359738368) as usize,
    }
}

// The number of a reply.
#[tactic(auto, unfolding(crate::specs::Positions::reply_number, questions::specs::Answers::wording_of, notation::specs::Bytes::bytes))]
fn reply_number(reply: Result<bool, Declined>) -> u64
    requires { asking.Bounded (questions.wording_of reply) }
    ensures { result ≡ reply_number (questions.wording_of reply) }
{
    match reply {
        Ok(true) => pack(b'y', 0),
        Ok(false) => pack(b'n', 0),
        Err(declined) => declined_number(declined),
    }
}

// A search opened: its position.
#[unsafe(no_mangle)]
pub extern "C" fn nutseason_open(text: &[u8], first: &mut [u16], second: &mut [u16]) -> u64
    ensures value { result ≡ paused_number (open_of text.now first.old second.old).answer }
    ensures left { Holding (open_of text.now first.old second.old) first.new second.new }
{
    paused_number(open(text, first, second))
}

// A portion of so many states: the next position.
#[unsafe(no_mangle)]
pub extern "C" fn nutseason_portion(
    position: u64,
    states: u64,
    text: &[u8],
    first: &mut [u16],
    second: &mut [u16],
) -> u64
    ensures value { result ≡ paused_number (portion_of text.now (pause_at position) states first.old second.old).answer }
    ensures left { Holding (portion_of text.now (pause_at position) states first.old second.old) first.new second.new }
{
    let from = position_at(position);
    paused_number(from.portion(states as usize, text, first, second))
}

// Whether a state has been met. The tables tell it; the position is taken along so that all calls of a search are alike.
#[unsafe(no_mangle)]
pub extern "C" fn nutseason_met(
    position: u64,
    state: u64,
    text: &[u8],
    first: &[u16],
    second: &[u16],
) -> u64
    ensures { result ≡ reply_number (met_reply text.now state first.now second.now) }
{
    reply_number(met(state as usize, text, first, second))
}

// A search finished: the answer, with what is left in the lent buffers.
#[unsafe(no_mangle)]
pub extern "C" fn nutseason_finish(
    position: u64,
    text: &[u8],
    first: &mut [u16],
    second: &mut [u16],
    sheet: &mut [u8],
) -> u64
    ensures value { result ≡ search_number (answer_of (finish_of text.now (pause_at position) first.old second.old sheet.old)) }
    ensures left { Leaves (finish_of text.now (pause_at position) first.old second.old sheet.old) first.new second.new sheet.new }
    ensures bytes { AreBytes sheet.new }
{
    let from = position_at(position);
    finding_number(from.finish(text, first, second, sheet))
}

// Whether a state is a member of the map that a sheet has.
#[unsafe(no_mangle)]
pub extern "C" fn nutseason_reached(text: &[u8], sheet: &[u8], state: u64) -> u64
    ensures value { result ≡ reply_number (asking.reply_to text.now sheet.now state) }
    ensures bytes { AreBytes sheet.now }
{
    reply_number(reached(text, sheet, state as usize))
}
