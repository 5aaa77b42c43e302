// Declarations, and the clauses `start` and `keep`.
ghost use Rattle.std.specs.Prelude.{◌≡◌, ◌+◌, ◌<◌};
ghost use Rattle.lexer.specs.working.Kinds.{kind_number};
ghost use Rattle.lexer.specs.working.Pieces.{NAME};
ghost use Rattle.statements.specs.working.Cursors.{Ready, reached};
ghost use Rattle.reader.specs.working.Clauses.{reached_with, Listing, NameSays, NamesSay, list_at, SegmentSays, ClauseSays};

use lexer::names::{declare, find_name};
use lexer::pieces::Kind;
use refusals::Reason;
use statements::cursor::{Cursor, Ledger, Parsed, Scope};
use statements::expressions::{MAX_DEPTH, or_level};

const MAX_SHARED: usize = 8;

const MAX_ROW: usize = 10;

const MAX_NAMES: usize = 12;

// A name to declare, as a row name if `rows`, or else as a shared name.
pub fn declare_name(
    text: &[u8],
    names: &mut [u16; 56],
    c: &mut Cursor,
    l: &mut Ledger,
    rows: bool,
) -> Parsed
    requires { Listing text.now names.old l.old rows c.old × (kind_number c.old.next.kind ≡ NAME) }
    ensures { NameSays text.now names.old l.old rows c.old names.new (reached_with result c.new l.new) }
{
    let t = c.next;
    let n = l.shared + l.row;
    if find_name(text, names, 0, n, t).is_some() {
        return Err(Reason::Redeclared.at(t.start));
    }
    if MAX_NAMES <= n {
        return Err(Reason::TooMany.at(t.start));
    }
    if rows {
        if MAX_ROW <= l.row {
            return Err(Reason::TooMany.at(t.start));
        }
        declare(names, n, t);
        c.pass(text);
        l.row += 1;
        return Ok(());
    }
    if MAX_SHARED <= l.shared {
        return Err(Reason::TooMany.at(t.start));
    }
    declare(names, n, t);
    c.pass(text);
    l.shared += 1;
    Ok(())
}

// Names to declare, none or more.
pub fn name_list(
    text: &[u8],
    names: &mut [u16; 56],
    c: &mut Cursor,
    l: &mut Ledger,
    rows: bool,
) -> Parsed
    requires { Listing text.now names.old l.old rows c.old }
    ensures { NamesSay text.now names.old l.old rows c.old (list_at text.now names.old l.old rows c.old) names.new (reached_with result c.new l.new) }
{
    'listed: while c.next.kind == Kind::Name {
        declare_name(text, names, c, l, rows)?;
    }
    Ok(())
}

// A sign and the expression after it, whose end is stored as that of segment i.
pub fn segment(
    text: &[u8],
    names: &[u16; 56],
    ops: &mut [u16; 2048],
    ends: &mut [u16; 20],
    c: &mut Cursor,
    l: Ledger,
    rows: bool,
    kind: Kind,
    i: usize,
) -> Parsed
    requires { Ready text.now l 0 c.old × ((kind_number kind < NAME) × (i < 20)) }
    ensures { SegmentSays text.now names.now l rows (kind_number kind) i c.old ops.old ends.old ops.new ends.new (reached result c.new) }
{
    c.expect(text, kind)?;
    let sc = Scope { rows, stars: false };
    or_level(text, names, ops, MAX_DEPTH, c, sc, l)?;
    ends[i] = c.emitted as u16;
    Ok(())
}

// `start` or `keep`, whose two expressions are the segments i and i + 1.
pub fn clause(
    text: &[u8],
    names: &[u16; 56],
    ops: &mut [u16; 2048],
    ends: &mut [u16; 20],
    c: &mut Cursor,
    l: Ledger,
    kind: Kind,
    i: usize,
) -> Parsed
    requires { Ready text.now l 0 c.old × ((kind_number kind < NAME) × (i < 19)) }
    ensures { ClauseSays text.now names.now l (kind_number kind) i c.old ops.old ends.old ops.new ends.new (reached result c.new) }
{
    segment(text, names, ops, ends, c, l, false, kind, i)?;
    segment(text, names, ops, ends, c, l, true, Kind::Each, i + 1)?;
    c.expect(text, Kind::Dot)
}
