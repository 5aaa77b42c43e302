// Opening, and moves of a record that is lent or comes by value: the test comes first, then the record is held against the sheet.
ghost use Rattle.std.specs.Prelude.{◌≡◌, ◌+◌, ◌*◌, ◌≤◌, length, IfSome};
ghost use Rattle.sheets.specs.SheetTexts.{AreBytes};
ghost use Rattle.player.specs.Places.{leads};
ghost use Rattle.player.specs.declared.record.Direction.TheVariants.{Forward, Back, Beginning};
ghost use Rattle.traces.specs.working.Passing.{header};
ghost use Rattle.player.specs.working.Playing.{record_at, move_of, open_of};

use crate::record::{Answer, Direction, Move, Player};
use conditions::outcome::Declined;
use sheets::fields::{HEADER, two_at};
use traces::passed_steps;

// The record at a place of the trace in a sheet. The start state ends ten bytes before the state after the first step, and so on from step to step.
fn record_at(sheet: &[u8], place: usize) -> Player
    requires { (17 + 10 * place ≤ length sheet.now) × (length sheet.now ≤ 65536) }
    ensures { result ≡ record_at header sheet.now place }
{
    let state = two_at(sheet, HEADER + 6 + 10 * place);
    Player { place, state }
}

// Where a move leads from a place of a trace, whose last place is told. Only behind the last and before the first there is none.
#[tactic(auto, unfolding(crate::specs::Places::leads))]
fn leads(direction: Direction, last: usize, place: usize) -> Option<usize>
    requires { place ≤ last }
    ensures value { result ≡ leads direction last place }
    ensures within { IfSome result (λ k. k ≤ last) }
{
    match direction {
        Direction::Forward if place < last => Some(place + 1),
        Direction::Back if 0 < place => Some(place - 1),
        Direction::Beginning => Some(0),
        _ => None,
    }
}

// A move in a direction: what the test says where the sheet is no trace that passes; else the record is held against the trace, and goes where the move leads.
#[tactic(auto, using(crate::proofs::MoveLaws::move_declined))]
pub fn moved(
    player: &mut Player,
    text: &[u8],
    sheet: &[u8],
    direction: Direction,
) -> Result<Answer, Declined>
    ensures { (player.new ≡ (move_of direction text.now sheet.now player.old).player)
        × (result ≡ (move_of direction text.now sheet.now player.old).answer)
        × AreBytes sheet.now }
{
    let last = passed_steps(text, sheet)?;
    let place = player.place;
    if last < place || *player != record_at(sheet, place) {
        return Ok(Answer::Foreign);
    }
    match leads(direction, last, place) {
        Some(place) => {
            *player = record_at(sheet, place);
            Ok(Answer::Moved)
        }
        None => Ok(Answer::AtEnd),
    }
}

// A move in a direction, of a record by value: it is lent from here, and goes back with the answer.
fn moved_from(text: &[u8], sheet: &[u8], mut player: Player, direction: Direction) -> Move
    ensures { (result ≡ move_of direction text.now sheet.now player) × AreBytes sheet.now }
{
    let answer = moved(&mut player, text, sheet, direction);
    Move { player, answer }
}

// One step on.
pub fn forward_from(text: &[u8], sheet: &[u8], player: Player) -> Move
    ensures { (result ≡ move_of Forward text.now sheet.now player) × AreBytes sheet.now }
{
    moved_from(text, sheet, player, Direction::Forward)
}

// One step back.
pub fn back_from(text: &[u8], sheet: &[u8], player: Player) -> Move
    ensures { (result ≡ move_of Back text.now sheet.now player) × AreBytes sheet.now }
{
    moved_from(text, sheet, player, Direction::Back)
}

// To the beginning.
pub fn beginning_from(text: &[u8], sheet: &[u8], player: Player) -> Move
    ensures { (result ≡ move_of Beginning text.now sheet.now player) × AreBytes sheet.now }
{
    moved_from(text, sheet, player, Direction::Beginning)
}

// A player opened on a sheet: a record at the beginning of its trace.
#[tactic(auto, using(crate::proofs::MoveLaws::open_declined, crate::proofs::MoveLaws::opens))]
pub fn open_player(text: &[u8], sheet: &[u8]) -> Result<Player, Declined>
    ensures { (result ≡ open_of text.now sheet.now) × AreBytes sheet.now }
{
    passed_steps(text, sheet)?;
    Ok(record_at(sheet, 0))
}
