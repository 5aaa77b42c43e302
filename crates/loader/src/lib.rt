// The reader and the acceptance test for the loader at the dockside, which is written in C.
// A slice is a pointer and a length there, and each answer is one number.
#![tactic(auto)]

ghost use Rattle.std.specs.Prelude.{◌≡◌, ◌+◌, ◌≤◌};
ghost use Rattle.acceptance.specs.Promises.{answer_to};
ghost use Rattle.sheets.specs.SheetTexts.{AreBytes};
ghost use Rattle.packing.specs.Outcomes.{test_number};
ghost use Rattle.loader.specs.Numbers.{model_number, read_number};
ghost use Rattle.loader.specs.Promises.{reading_to};

use acceptance::test;
use packing::outcomes::tested_number;
use packing::{pack, refusal_number};
use reader::read;

// The answer to a text and a sheet.
#[unsafe(no_mangle)]
pub extern "C" fn nutseason_test(text: &[u8], sheet: &[u8]) -> u64
    ensures value { result ≡ test_number (answer_to text.now sheet.now) }
    ensures bytes { AreBytes sheet.now }
{
    tested_number(test(text, sheet))
}

// The number of a model with these counts.
fn model_number(shared: usize, row: usize, commands: usize) -> u64
    requires { (shared + row ≤ 12) × (commands ≤ 16) }
    ensures { result ≡ model_number shared row commands }
{
    pack(b'm', shared + 256 * row + 65536 * commands)
}

// The counts of the model that a text says, or the text's first refusal.
#[unsafe(no_mangle)]
#[tactic(auto, unfolding(crate::specs::Numbers::read_number, reader::specs::Answers::wording_of))]
pub extern "C" fn nutseason_read(text: &[u8]) -> u64
    ensures { result ≡ read_number (reading_to text.now) }
{
    match read(text) {
        Ok(code) => model_number(code.shared, code.row, code.commands),
        Err(refusal) => refusal_number(refusal),
    }
}
