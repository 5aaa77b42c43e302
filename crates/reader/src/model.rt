// A whole text: declarations, clauses and commands, and nothing after the last.
ghost use Rattle.std.specs.Prelude.{◌≡◌, true, false, ◌<◌, ◌≤◌, length};
ghost use Rattle.notation.specs.Texts.{longest_text};
ghost use Rattle.lexer.specs.working.Kinds.{kind_number};
ghost use Rattle.lexer.specs.working.Pieces.{NAME};
ghost use Rattle.statements.specs.working.Cursors.{Ready, reached};
ghost use Rattle.reader.specs.working.Clauses.{reached_with, Listing, NamesSay};
ghost use Rattle.reader.specs.working.Commands.{at_entry, at_exit};
ghost use Rattle.reader.specs.working.Whole.{head_at, HeadsSay, ClausesSay, ModelSays};

use crate::clauses::{clause, name_list};
use crate::commands::commands;
use lexer::pieces::{Kind, piece_at};
use refusals::Refusal;
use statements::cursor::{Cursor, Ledger, Parsed};

// A sign, names to declare, and a full stop.
pub fn declaration(
    text: &[u8],
    names: &mut [u16; 56],
    c: &mut Cursor,
    l: &mut Ledger,
    rows: bool,
    kind: Kind,
) -> Parsed
    requires { Listing text.now names.old l.old rows c.old × (kind_number kind < NAME) }
    ensures { NamesSay text.now names.old l.old rows c.old (head_at text.now names.old l.old rows (kind_number kind) c.old) names.new (reached_with result c.new l.new) }
{
    c.expect(text, kind)?;
    name_list(text, names, c, l, rows)?;
    c.expect(text, Kind::Dot)
}

// The shared names and the row names, and where the reading stands after them.
pub fn declarations(text: &[u8], names: &mut [u16; 56]) -> Result<(Cursor, Ledger), Refusal>
    requires { (length text.now ≤ longest_text) × (length names.old ≡ 56) }
    ensures { HeadsSay text.now names.old names.new result }
{
    let mut c = Cursor {
        next: piece_at(text, 0),
        emitted: 0,
        items: 0,
        nodes: 0,
        stars: 0,
    };
    let mut l = Ledger {
        shared: 0,
        row: 0,
        commands: 0,
    };
    declaration(text, names, &mut c, &mut l, false, Kind::Shared)?;
    declaration(text, names, &mut c, &mut l, true, Kind::Row)?;
    Ok((c, l))
}

// `start` and `keep`.
pub fn clauses(
    text: &[u8],
    names: &[u16; 56],
    ops: &mut [u16; 2048],
    ends: &mut [u16; 20],
    c: &mut Cursor,
    l: Ledger,
) -> Parsed
    requires { Ready text.now l 0 c.old }
    ensures { ClausesSay text.now names.now l c.old ops.old ends.old ops.new ends.new (reached result c.new) }
{
    clause(text, names, ops, ends, c, l, Kind::Start, 0)?;
    clause(text, names, ops, ends, c, l, Kind::Keep, 2)
}

// The whole text, and how many names of each kind it declares.
pub fn model(
    text: &[u8],
    names: &mut [u16; 56],
    ops: &mut [u16; 2048],
    ends: &mut [u16; 20],
    stars: &mut [u16; 16],
) -> Result<Ledger, Refusal>
    requires { (length text.now ≤ longest_text) × (length names.old ≡ 56) }
    ensures { ModelSays text.now (at_entry names ops ends stars) (at_exit names ops ends stars) result }
{
    let (mut c, mut l) = declarations(text, names)?;
    clauses(text, names, ops, ends, &mut c, l)?;
    if c.next.kind != Kind::Command {
        return Err(c.next.misplaced());
    }
    commands(text, names, ops, ends, stars, &mut c, &mut l)?;
    if c.next.kind != Kind::Finish {
        return Err(c.next.misplaced());
    }
    Ok(l)
}
