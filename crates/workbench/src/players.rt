// A player of a trace for programs in C and Python: its record is the first two entries of a lent list, place and state.
ghost use Rattle.std.specs.Prelude.{◌≡◌, ◌≤◌, length};
ghost use Rattle.player.specs.Answers.{wording_of, opening_for};
ghost use Rattle.player.specs.Promises.{opening_of, Bounded, BoundedOpening};
ghost use Rattle.player.specs.declared.record.Direction.TheVariants.{Forward, Back, Beginning};
ghost use Rattle.sheets.specs.SheetTexts.{AreBytes};
ghost use Rattle.workbench.specs.Players.{with_player, opening_told, answer_number, move_told};

use crate::no_room;
use conditions::outcome::Declined;
use packing::outcomes::declined_number;
use packing::pack;
use player::moves::open_player;
use player::record::{Answer, Direction, Move, Player};
use player::values::move_of;

// Puts a record at the front of the list.
fn put_player(entries: &mut [u64], player: Player)
    requires { 2 ≤ length entries.old }
    ensures { entries.new ≡ with_player entries.old player }
{
    entries[0] = player.place as u64;
    entries[1] = player.state as u64;
}

// The number of what opening answers; a record goes to the front of the list.
#[tactic(auto, unfolding(crate::specs::Players::opening_told, player::specs::Answers::opening_for, notation::specs::Bytes::bytes))]
fn opened_number(opened: Result<Player, Declined>, entries: &mut [u64]) -> u64
    requires { BoundedOpening (opening_for opened) }
    ensures value { result ≡ (opening_told (opening_for opened) entries.old).number }
    ensures left { entries.new ≡ (opening_told (opening_for opened) entries.old).entries }
{
    match opened {
        Ok(_) if entries.len() < 2 => no_room(),
        Ok(player) => {
            put_player(entries, player);
            pack(b'o', 0)
        }
        Err(declined) => declined_number(declined),
    }
}

// The number of a move's answer.
#[tactic(auto, unfolding(crate::specs::Players::answer_number, player::specs::Answers::wording_of, notation::specs::Bytes::bytes))]
fn answer_number(answer: Result<Answer, Declined>) -> u64
    requires { Bounded (wording_of answer) }
    ensures { result ≡ answer_number (wording_of answer) }
{
    match answer {
        Ok(Answer::Moved) => pack(b'm', 0),
        Ok(Answer::AtEnd) => pack(b'e', 0),
        Ok(Answer::Foreign) => pack(b'f', 0),
        Err(declined) => declined_number(declined),
    }
}

// The number of a move's answer, with the record after it at the front of the list.
fn moved_number(moved: Move, entries: &mut [u64]) -> u64
    requires { (2 ≤ length entries.old) × Bounded (wording_of moved.answer) }
    ensures value { result ≡ answer_number (wording_of moved.answer) }
    ensures left { entries.new ≡ with_player entries.old moved.player }
{
    put_player(entries, moved.player);
    answer_number(moved.answer)
}

// A player opened on a sheet.
#[unsafe(no_mangle)]
pub extern "C" fn nutseason_player(text: &[u8], sheet: &[u8], entries: &mut [u64]) -> u64
    ensures value { result ≡ (opening_told (opening_of text.now sheet.now) entries.old).number }
    ensures left { entries.new ≡ (opening_told (opening_of text.now sheet.now) entries.old).entries }
    ensures bytes { AreBytes sheet.now }
{
    opened_number(open_player(text, sheet), entries)
}

// A move of the record that the list has.
#[tactic(auto, unfolding(crate::specs::Players::move_told))]
fn moved_in(direction: Direction, text: &[u8], sheet: &[u8], entries: &mut [u64]) -> u64
    ensures value { result ≡ (move_told direction text.now sheet.now entries.old).number }
    ensures left { entries.new ≡ (move_told direction text.now sheet.now entries.old).entries }
    ensures bytes { AreBytes sheet.now }
{
    if entries.len() < 2 {
        return opened_number(open_player(text, sheet), entries);
    }
    let player = Player {
        place: entries[0] as usize,
        state: entries[1] as usize,
    };
    moved_number(move_of(direction, player, text, sheet), entries)
}

// One step on.
#[unsafe(no_mangle)]
pub extern "C" fn nutseason_forward(text: &[u8], sheet: &[u8], entries: &mut [u64]) -> u64
    ensures value { result ≡ (move_told Forward text.now sheet.now entries.old).number }
    ensures left { entries.new ≡ (move_told Forward text.now sheet.now entries.old).entries }
    ensures bytes { AreBytes sheet.now }
{
    moved_in(Direction::Forward, text, sheet, entries)
}

// One step back.
#[unsafe(no_mangle)]
pub extern "C" fn nutseason_back(text: &[u8], sheet: &[u8], entries: &mut [u64]) -> u64
    ensures value { result ≡ (move_told Back text.now sheet.now entries.old).number }
    ensures left { entries.new ≡ (move_told Back text.now sheet.now entries.old).entries }
    ensures bytes { AreBytes sheet.now }
{
    moved_in(Direction::Back, text, sheet, entries)
}

// To the beginning.
#[unsafe(no_mangle)]
pub extern "C" fn nutseason_beginning(text: &[u8], sheet: &[u8], entries: &mut [u64]) -> u64
    ensures value { result ≡ (move_told Beginning text.now sheet.now entries.old).number }
    ensures left { entries.new ≡ (move_told Beginning text.now sheet.now entries.old).entries }
    ensures bytes { AreBytes sheet.now }
{
    moved_in(Direction::Beginning, text, sheet, entries)
}
