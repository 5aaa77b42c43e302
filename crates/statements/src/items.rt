// Items, one or more, joined by semicolons, in a command and inside `for`.
ghost use Rattle.std.specs.Prelude.{◌≡◌, ◌<◌, true, false, OnErr};
ghost use Rattle.notation.specs.Tokens.{FOR};
ghost use Rattle.lexer.specs.working.Kinds.{kind_number};
ghost use Rattle.lexer.specs.working.Pieces.{NAME};
ghost use Rattle.statements.specs.working.Cursors.{Ready, reached};
ghost use Rattle.statements.specs.working.Items.{Skipped, Marked, SaysAssign, SaysItem, SaysItems};

use crate::cursor::{Cursor, Ledger, Parsed, Scope};
use crate::expressions::{MAX_DEPTH, or_level};
use crate::names::{first_target, visible};
use lexer::names::find_name;
use lexer::pieces::Kind;
use refusals::Reason;

const MAX_ITEMS: usize = 256;

// The code words.
const STORE: u16 = 192;

pub const WHEN: u16 = 224;

pub const OTHERWISE: u16 = 256;

pub const DONE: u16 = 288;

const PASS: u16 = 320;

// A sign that has to stand here, and then this code word.
#[tactic(auto, unfolding(crate::specs::working::Items::Marked, crate::specs::working::Cursors::Expected))]
pub fn mark(text: &[u8], ops: &mut [u16; 2048], c: &mut Cursor, kind: Kind, code: u16) -> Parsed
    requires { c.old.emitted < 2048 }
    ensures says { Marked text.now (kind_number kind) code c.old ops.old ops.new (reached result c.new) }
    ensures kept { OnErr result (c.new ≡ c.old) }
{
    c.expect(text, kind)?;
    c.emit(ops, code);
    Ok(())
}

// `skip`.
#[tactic(auto, unfolding(crate::specs::working::Items::Skipped))]
fn skip_item(text: &[u8], ops: &mut [u16; 2048], c: &mut Cursor) -> Parsed
    requires { c.old.emitted < 2048 }
    ensures { Skipped text.now c.old ops.old ops.new (reached result c.new) }
{
    if MAX_ITEMS <= c.items {
        return Err(Reason::TooMany.at(c.next.start));
    }
    c.items += 1;
    c.pass(text);
    c.emit(ops, PASS);
    Ok(())
}

// An assignment to a row name, if `rows`, or else to a shared name.
fn assignment(
    text: &[u8],
    names: &[u16; 56],
    ops: &mut [u16; 2048],
    c: &mut Cursor,
    l: Ledger,
    rows: bool,
) -> Parsed
    requires { Ready text.now l 0 c.old × (kind_number c.old.next.kind ≡ NAME) }
    ensures { SaysAssign text.now names.now l rows c.old ops.old ops.new (reached result c.new) }
{
    let t = c.next;
    let from = first_target(rows, l);
    let to = visible(rows, l);
    let Some(i) = find_name(text, names, from, to, t) else {
        return Err(Reason::Undeclared.at(t.start));
    };
    if MAX_ITEMS <= c.items {
        return Err(Reason::TooMany.at(t.start));
    }
    c.items += 1;
    c.pass(text);
    c.expect(text, Kind::Assign)?;
    let sc = Scope { rows, stars: true };
    or_level(text, names, ops, MAX_DEPTH, c, sc, l)?;
    c.emit(ops, STORE + i as u16);
    Ok(())
}

// `skip`, or an assignment to a row name.
fn row_item(
    text: &[u8],
    names: &[u16; 56],
    ops: &mut [u16; 2048],
    c: &mut Cursor,
    l: Ledger,
) -> Parsed
    requires { Ready text.now l 0 c.old }
    ensures { SaysItem text.now names.now l true c.old ops.old ops.new (reached result c.new) }
{
    match c.next.kind {
        Kind::Skip => skip_item(text, ops, c),
        Kind::Name => assignment(text, names, ops, c, l, true),
        _ => Err(c.next.misplaced()),
    }
}

// Row items joined by semicolons.
fn row_items(
    text: &[u8],
    names: &[u16; 56],
    ops: &mut [u16; 2048],
    c: &mut Cursor,
    l: Ledger,
) -> Parsed
    requires { Ready text.now l 0 c.old }
    ensures { SaysItems text.now names.now l true c.old ops.old ops.new (reached result c.new) }
{
    row_item(text, names, ops, c, l)?;
    'rows: while c.next.kind == Kind::Semi {
        c.pass(text);
        row_item(text, names, ops, c, l)?;
    }
    Ok(())
}

// `for`: its condition and its two branches.
fn for_item(
    text: &[u8],
    names: &[u16; 56],
    ops: &mut [u16; 2048],
    c: &mut Cursor,
    l: Ledger,
) -> Parsed
    requires { Ready text.now l 0 c.old × (kind_number c.old.next.kind ≡ FOR) }
    ensures { SaysItem text.now names.now l false c.old ops.old ops.new (reached result c.new) }
{
    if MAX_ITEMS <= c.items {
        return Err(Reason::TooMany.at(c.next.start));
    }
    c.items += 1;
    c.pass(text);
    let sc = Scope {
        rows: true,
        stars: true,
    };
    or_level(text, names, ops, MAX_DEPTH, c, sc, l)?;
    mark(text, ops, c, Kind::Do, WHEN)?;
    row_items(text, names, ops, c, l)?;
    mark(text, ops, c, Kind::Else, OTHERWISE)?;
    row_items(text, names, ops, c, l)?;
    mark(text, ops, c, Kind::End, DONE)
}

// `skip`, an assignment to a shared name, or `for`.
fn item(text: &[u8], names: &[u16; 56], ops: &mut [u16; 2048], c: &mut Cursor, l: Ledger) -> Parsed
    requires { Ready text.now l 0 c.old }
    ensures { SaysItem text.now names.now l false c.old ops.old ops.new (reached result c.new) }
{
    match c.next.kind {
        Kind::Skip => skip_item(text, ops, c),
        Kind::Name => assignment(text, names, ops, c, l, false),
        Kind::For => for_item(text, names, ops, c, l),
        _ => Err(c.next.misplaced()),
    }
}

// Items joined by semicolons: row items, if `rows`, or else items.
pub fn items(
    text: &[u8],
    names: &[u16; 56],
    ops: &mut [u16; 2048],
    c: &mut Cursor,
    l: Ledger,
    rows: bool,
) -> Parsed
    requires { Ready text.now l 0 c.old }
    ensures { SaysItems text.now names.now l rows c.old ops.old ops.new (reached result c.new) }
{
    if rows {
        return row_items(text, names, ops, c, l);
    }
    item(text, names, ops, c, l)?;
    'list: while c.next.kind == Kind::Semi {
        c.pass(text);
        item(text, names, ops, c, l)?;
    }
    Ok(())
}
