// The reader of model texts: a text says a model, or has a first refusal with its place.
#![tactic(auto)]

mod clauses;
mod commands;
mod model;

ghost use Rattle.std.specs.Prelude.{◌≡◌};
ghost use Rattle.reader.specs.Read.{reading_of, read_code};
ghost use Rattle.reader.specs.working.Commands.{arrays, at_exit};
ghost use Rattle.reader.specs.working.Whole.{zeros, counted, arrays_in};

use model::model as whole;
use refusals::{Reason, Refusal};
use statements::cursor::Ledger;

const MAX_TEXT: usize = 16384;

// A model in its flat form. Segment i of the code ends before ends[i]: the two expressions of `start`, the two of `keep`, and then the commands.
// Command k has stars[k] stars. Name i, counted over shared names, row names and commands, begins at names[i] in the text and is names[28 + i] bytes long.
#[derive(Drop)]
pub struct Code {
    pub ops: [u16; 2048],
    pub ends: [u16; 20],
    pub stars: [u16; 16],
    pub names: [u16; 56],
    pub shared: usize,
    pub row: usize,
    pub commands: usize,
}

// Reads the text into arrays of zeros, and counts the names of its model; where it is refused, the arrays are zeros again.
pub fn read_into(
    text: &[u8],
    names: &mut [u16; 56],
    ops: &mut [u16; 2048],
    ends: &mut [u16; 20],
    stars: &mut [u16; 16],
) -> Result<Ledger, Refusal>
    requires { arrays names.old ops.old ends.old stars.old ≡ zeros }
    ensures told { result ≡ counted (reading_of text.now) }
    ensures stored { at_exit names ops ends stars ≡ arrays_in (read_code text.now) }
{
    if MAX_TEXT < text.len() {
        return Err(Reason::TextTooLong.at(MAX_TEXT));
    }
    let told = whole(text, names, ops, ends, stars);
    if told.is_err() {
        *names = [0; 56];
        *ops = [0; 2048];
        *ends = [0; 20];
        *stars = [0; 16];
    }
    told
}

// The model that the text says, or its first refusal.
pub fn read(text: &[u8]) -> Result<Code, Refusal>
    ensures { result ≡ reading_of text.now }
{
    let mut ops = [0u16; 2048];
    let mut names = [0u16; 56];
    let mut ends = [0u16; 20];
    let mut stars = [0u16; 16];
    let counts = read_into(text, &mut names, &mut ops, &mut ends, &mut stars)?;
    Ok(Code {
        ops,
        ends,
        stars,
        names,
        shared: counts.shared,
        row: counts.row,
        commands: counts.commands,
    })
}
