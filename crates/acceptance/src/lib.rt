// The acceptance test: whether a sheet is evidence for the model that a text says.
#![tactic(auto)]

pub mod plans;

ghost use Rattle.std.specs.Prelude.{◌≡◌};
ghost use Rattle.sheets.specs.SheetTexts.{AreBytes};
ghost use Rattle.sheets.specs.working.FlatSystem.{system_at};
ghost use Rattle.conditions.specs.working.Judging.{outcome_of};
ghost use Rattle.acceptance.specs.working.Test.{test_of};

use conditions::maps::test_map;
use conditions::outcome::Tested;
use conditions::traces::test_trace;
use evaluation::one_row::OneRow;
use plans::read_table;
use sheets::fields::{HEADER, bytes_known};
use sheets::shapes::{Shape, shape_of};

// The outcome for a sheet and the flat form of a model.
pub fn test_sheet(b: &[u8], table: &OneRow) -> Tested
    ensures { result ≡ outcome_of (system_at table.now) b.now }
{
    match shape_of(b, table)? {
        Shape::Map => Ok(test_map(&b[HEADER + 6..], table)),
        Shape::Trace => Ok(test_trace(b, HEADER, table)),
    }
}

// What the test answers for a text and a sheet. Its promises are about bytes, and what it is handed are bytes.
pub fn test(text: &[u8], sheet: &[u8]) -> Tested
    ensures value { result ≡ test_of text.now sheet.now }
    ensures bytes { AreBytes sheet.now }
{
    bytes_known(sheet);
    let mut ops = [0u16; 2048];
    let table = read_table(text, &mut ops)?;
    test_sheet(sheet, &table)
}
