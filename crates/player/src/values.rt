// The moves for a caller that has no record to lend: the record comes by value, is lent from here, and goes back with the answer.
ghost use Rattle.std.specs.Prelude.{◌≡◌};
ghost use Rattle.sheets.specs.SheetTexts.{AreBytes};
ghost use Rattle.player.specs.declared.record.Direction.TheVariants.{Forward, Back, Beginning};
ghost use Rattle.player.specs.working.Playing.{move_of};

use crate::record::{Direction, Move, Player};
use crate::{back, beginning, forward};

// One step on.
pub fn forward_of(player: Player, text: &[u8], sheet: &[u8]) -> Move
    ensures { (result ≡ move_of Forward text.now sheet.now player) × AreBytes sheet.now }
{
    let mut lent = player;
    let answer = forward(&mut lent, text, sheet);
    Move {
        player: lent,
        answer,
    }
}

// One step back.
pub fn back_of(player: Player, text: &[u8], sheet: &[u8]) -> Move
    ensures { (result ≡ move_of Back text.now sheet.now player) × AreBytes sheet.now }
{
    let mut lent = player;
    let answer = back(&mut lent, text, sheet);
    Move {
        player: lent,
        answer,
    }
}

// To the beginning.
pub fn beginning_of(player: Player, text: &[u8], sheet: &[u8]) -> Move
    ensures { (result ≡ move_of Beginning text.now sheet.now player) × AreBytes sheet.now }
{
    let mut lent = player;
    let answer = beginning(&mut lent, text, sheet);
    Move {
        player: lent,
        answer,
    }
}

// A move in a direction.
pub fn move_of(direction: Direction, player: Player, text: &[u8], sheet: &[u8]) -> Move
    ensures { (result ≡ move_of direction text.now sheet.now player) × AreBytes sheet.now }
{
    match direction {
        Direction::Forward => forward_of(player, text, sheet),
        Direction::Back => back_of(player, text, sheet),
        Direction::Beginning => beginning_of(player, text, sheet),
    }
}
