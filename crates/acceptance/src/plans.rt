// A text read into what the test and the search go by: the model's code words, and its plan.
ghost use Rattle.std.specs.Prelude.{◌≡◌, replicate};
ghost use Rattle.acceptance.specs.working.Test.{ReadInto, TableOf};

use evaluation::one_row::OneRow;
use evaluation::plan::Plan;
use reader::read_into;
use refusals::Refusal;

// Reads a text into an array of zeros and a plan; where it is refused, the array has zeros again.
#[tactic(auto, using(crate::proofs::TestTexts::few_bits_lem))]
pub fn read_plan(text: &[u8], ops: &mut [u16; 2048]) -> Result<Plan, Refusal>
    requires { ops.old ≡ replicate 2048 0 }
    ensures { ReadInto text.now result ops.new }
{
    let mut names = [0u16; 56];
    let mut ends = [0u16; 20];
    let mut stars = [0u16; 16];
    let counts = read_into(text, &mut names, ops, &mut ends, &mut stars)?;
    Ok(Plan {
        ends,
        stars,
        shared: counts.shared,
        row: counts.row,
        commands: counts.commands,
        bits: counts.shared + counts.row,
    })
}

// Reads a text into the table of one row, whose code words go to an array of zeros.
pub fn read_table<'a>(text: &[u8], ops: &'a mut [u16; 2048]) -> Result<OneRow<'a>, Refusal>
    requires { ops.old ≡ replicate 2048 0 }
    ensures { TableOf text.now result }
{
    let plan = read_plan(text, ops)?;
    Ok(OneRow { ops, plan })
}
