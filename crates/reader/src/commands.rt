// Commands.
ghost use Rattle.std.specs.Prelude.{◌≡◌, ◌<◌};
ghost use Rattle.notation.specs.Tokens.{COMMAND};
ghost use Rattle.lexer.specs.working.Kinds.{kind_number};
ghost use Rattle.statements.specs.working.Cursors.{Ready, reached};
ghost use Rattle.reader.specs.working.Clauses.{reached_with};
ghost use Rattle.reader.specs.working.Commands.{Naming, TitleSays, BodySays, CommandsSay, at_entry, at_exit, one_at, commands_at};

use lexer::names::{declare, find_name};
use lexer::pieces::Kind;
use refusals::Reason;
use statements::cursor::{Cursor, Ledger, Parsed, Scope};
use statements::expressions::{MAX_DEPTH, or_level};
use statements::items::{DONE, OTHERWISE, WHEN, items, mark};

const MAX_COMMANDS: usize = 16;

// `command` and its name.
pub fn title(text: &[u8], names: &mut [u16; 56], c: &mut Cursor, l: &mut Ledger) -> Parsed
    requires { Naming text.now names.old l.old c.old × (kind_number c.old.next.kind ≡ COMMAND) }
    ensures { TitleSays text.now names.old l.old c.old names.new (reached_with result c.new l.new) }
{
    let k = l.commands;
    if MAX_COMMANDS <= k {
        return Err(Reason::TooMany.at(c.next.start));
    }
    c.stars = 0;
    c.pass(text);
    let w = c.next;
    if w.kind != Kind::Name {
        return Err(w.misplaced());
    }
    let n = l.shared + l.row + k;
    if find_name(text, names, 0, n, w).is_some() {
        return Err(Reason::Redeclared.at(w.start));
    }
    declare(names, n, w);
    c.pass(text);
    l.commands += 1;
    Ok(())
}

// `if`, a shared expression, `do`, items, `else`, items, full stop.
pub fn body(
    text: &[u8],
    names: &[u16; 56],
    ops: &mut [u16; 2048],
    c: &mut Cursor,
    l: Ledger,
) -> Parsed
    requires { Ready text.now l 3 c.old }
    ensures { BodySays text.now names.now l c.old ops.old ops.new (reached result c.new) }
{
    c.expect(text, Kind::If)?;
    let sc = Scope {
        rows: false,
        stars: true,
    };
    or_level(text, names, ops, MAX_DEPTH, c, sc, l)?;
    mark(text, ops, c, Kind::Do, WHEN)?;
    items(text, names, ops, c, l, false)?;
    mark(text, ops, c, Kind::Else, OTHERWISE)?;
    items(text, names, ops, c, l, false)?;
    mark(text, ops, c, Kind::Dot, DONE)
}

// A command. Its end and its number of stars are stored.
pub fn command(
    text: &[u8],
    names: &mut [u16; 56],
    ops: &mut [u16; 2048],
    ends: &mut [u16; 20],
    stars: &mut [u16; 16],
    c: &mut Cursor,
    l: &mut Ledger,
) -> Parsed
    requires { Naming text.now names.old l.old c.old × (kind_number c.old.next.kind ≡ COMMAND) }
    ensures { CommandsSay text.now l.old c.old (at_entry names ops ends stars) (one_at text.now names.old l.old c.old) (at_exit names ops ends stars) (reached_with result c.new l.new) }
{
    let k = l.commands;
    title(text, names, c, l)?;
    body(text, names, ops, c, *l)?;
    ends[4 + k] = c.emitted as u16;
    stars[k] = c.stars as u16;
    Ok(())
}

// Commands, one or more: the next piece is `command`.
pub fn commands(
    text: &[u8],
    names: &mut [u16; 56],
    ops: &mut [u16; 2048],
    ends: &mut [u16; 20],
    stars: &mut [u16; 16],
    c: &mut Cursor,
    l: &mut Ledger,
) -> Parsed
    requires { Naming text.now names.old l.old c.old × (kind_number c.old.next.kind ≡ COMMAND) }
    ensures { CommandsSay text.now l.old c.old (at_entry names ops ends stars) (commands_at text.now names.old l.old c.old) (at_exit names ops ends stars) (reached_with result c.new l.new) }
{
    'each: loop {
        command(text, names, ops, ends, stars, c, l)?;
        if c.next.kind != Kind::Command {
            return Ok(());
        }
    }
}
