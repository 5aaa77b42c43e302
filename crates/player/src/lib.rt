// A player that walks a trace forward and back. Whoever plays it lends its record, and a move changes it in place.
#![tactic(auto)]

pub mod moves;
pub mod record;
pub mod values;

ghost use Rattle.std.specs.Prelude.{◌≡◌};
ghost use Rattle.sheets.specs.SheetTexts.{AreBytes};
ghost use Rattle.player.specs.declared.record.Direction.TheVariants.{Forward, Back, Beginning};
ghost use Rattle.player.specs.working.Playing.{move_of};

use conditions::outcome::Declined;
use moves::{back_from, beginning_from, forward_from};
use record::{Answer, Player};

// One step on.
pub fn forward(player: &mut Player, text: &[u8], sheet: &[u8]) -> Result<Answer, Declined>
    ensures { (player.new ≡ (move_of Forward text.now sheet.now player.old).player)
        × (result ≡ (move_of Forward text.now sheet.now player.old).answer)
        × AreBytes sheet.now }
{
    let moved = forward_from(text, sheet, *player);
    *player = moved.player;
    moved.answer
}

// One step back.
pub fn back(player: &mut Player, text: &[u8], sheet: &[u8]) -> Result<Answer, Declined>
    ensures { (player.new ≡ (move_of Back text.now sheet.now player.old).player)
        × (result ≡ (move_of Back text.now sheet.now player.old).answer)
        × AreBytes sheet.now }
{
    let moved = back_from(text, sheet, *player);
    *player = moved.player;
    moved.answer
}

// To the beginning.
pub fn beginning(player: &mut Player, text: &[u8], sheet: &[u8]) -> Result<Answer, Declined>
    ensures { (player.new ≡ (move_of Beginning text.now sheet.now player.old).player)
        × (result ≡ (move_of Beginning text.now sheet.now player.old).answer)
        × AreBytes sheet.now }
{
    let moved = beginning_from(text, sheet, *player);
    *player = moved.player;
    moved.answer
}
