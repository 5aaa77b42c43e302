// Expressions: the readers of its three levels, which call each other. Parentheses and `not` call back with what is left of the depth.
ghost use Rattle.std.specs.Prelude.{◌≡◌, ◌≤◌, ◌<◌};
ghost use Rattle.notation.specs.Tokens.{NOT, OPEN};
ghost use Rattle.notation.specs.Rules.{depth_limit};
ghost use Rattle.lexer.specs.working.Kinds.{kind_number};
ghost use Rattle.statements.specs.working.Cursors.{Ready, reached};
ghost use Rattle.statements.specs.working.Expressions.{SaysExpr, SaysOperand, factor_at, and_at, or_at, Leaf};

use crate::cursor::{Cursor, Ledger, Parsed, Scope};
use crate::names::visible;
use lexer::names::find_name;
use lexer::pieces::Kind;
use refusals::Reason;

pub const MAX_DEPTH: usize = 16;

const MAX_NODES: usize = 1024;

const MAX_STARS: usize = 8;

// The code words.
const PUSH: u16 = 0;

const LOAD: u16 = 32;

const CHOOSE: u16 = 64;

const NEGATE: u16 = 96;

const BOTH: u16 = 128;

const EITHER: u16 = 160;

// A node that is one token, whose code word this is, after which so many stars are counted.
#[tactic(auto, unfolding(crate::specs::working::Expressions::Leaf))]
#[inline(always)]
fn leaf(text: &[u8], ops: &mut [u16; 2048], c: &mut Cursor, code: u16, stars: usize) -> Parsed
    requires { c.old.emitted < 2048 }
    ensures { Leaf text.now c.old code stars ops.old ops.new (reached result c.new) }
{
    if MAX_NODES <= c.nodes {
        return Err(Reason::TooMany.at(c.next.start));
    }
    c.nodes += 1;
    c.stars = stars;
    c.pass(text);
    c.emit(ops, code);
    Ok(())
}

// A constant, a star or a name, or what is refused.
fn operand(
    text: &[u8],
    names: &[u16; 56],
    ops: &mut [u16; 2048],
    depth: usize,
    c: &mut Cursor,
    sc: Scope,
    l: Ledger,
) -> Parsed
    requires { Ready text.now l 0 c.old × ((kind_number c.old.next.kind ≡ NOT → ⊥) × (kind_number c.old.next.kind ≡ OPEN → ⊥)) }
    ensures { SaysOperand text.now names.now l c.old ops.old (factor_at text.now names.now sc l depth c.old) ops.new (reached result c.new) }
{
    let t = c.next;
    let s = c.stars;
    match t.kind {
        Kind::Zero => leaf(text, ops, c, PUSH, s),
        Kind::One => leaf(text, ops, c, PUSH + 1, s),
        Kind::Star => {
            if !sc.stars {
                return Err(Reason::StarBarred.at(t.start));
            }
            if MAX_STARS <= s {
                return Err(Reason::TooMany.at(t.start));
            }
            leaf(text, ops, c, CHOOSE + s as u16, s + 1)
        }
        Kind::Name => {
            let limit = visible(sc.rows, l);
            let Some(i) = find_name(text, names, 0, limit, t) else {
                return Err(Reason::Undeclared.at(t.start));
            };
            leaf(text, ops, c, LOAD + i as u16, s)
        }
        _ => Err(t.misplaced()),
    }
}

// An operand, `not` and a factor, or an expression in parentheses.
#[cycle(and_level_factor_or_level)]
fn factor(
    text: &[u8],
    names: &[u16; 56],
    ops: &mut [u16; 2048],
    depth: usize,
    c: &mut Cursor,
    sc: Scope,
    l: Ledger,
) -> Parsed
    requires { (depth ≤ depth_limit) × Ready text.now l 0 c.old }
    ensures { SaysExpr text.now names.now l c.old ops.old (factor_at text.now names.now sc l depth c.old) ops.new (reached result c.new) }
{
    match c.next.kind {
        Kind::Open => {
            if depth == 0 {
                return Err(Reason::TooMany.at(c.next.start));
            }
            c.pass(text);
            or_level(text, names, ops, depth - 1, c, sc, l)?;
            c.expect(text, Kind::Close)
        }
        Kind::Not => {
            if depth == 0 {
                return Err(Reason::TooMany.at(c.next.start));
            }
            if MAX_NODES <= c.nodes {
                return Err(Reason::TooMany.at(c.next.start));
            }
            c.nodes += 1;
            c.pass(text);
            factor(text, names, ops, depth - 1, c, sc, l)?;
            c.emit(ops, NEGATE);
            Ok(())
        }
        _ => operand(text, names, ops, depth, c, sc, l),
    }
}

// Factors joined by `and`.
#[cycle(and_level_factor_or_level)]
fn and_level(
    text: &[u8],
    names: &[u16; 56],
    ops: &mut [u16; 2048],
    depth: usize,
    c: &mut Cursor,
    sc: Scope,
    l: Ledger,
) -> Parsed
    requires { (depth ≤ depth_limit) × Ready text.now l 0 c.old }
    ensures { SaysExpr text.now names.now l c.old ops.old (and_at text.now names.now sc l depth c.old) ops.new (reached result c.new) }
{
    factor(text, names, ops, depth, c, sc, l)?;
    'ands: while c.next.kind == Kind::And {
        if MAX_NODES <= c.nodes {
            return Err(Reason::TooMany.at(c.next.start));
        }
        c.nodes += 1;
        c.pass(text);
        factor(text, names, ops, depth, c, sc, l)?;
        c.emit(ops, BOTH);
    }
    Ok(())
}

// The same one level up, joined by `or`.
#[cycle(and_level_factor_or_level)]
pub fn or_level(
    text: &[u8],
    names: &[u16; 56],
    ops: &mut [u16; 2048],
    depth: usize,
    c: &mut Cursor,
    sc: Scope,
    l: Ledger,
) -> Parsed
    requires { (depth ≤ depth_limit) × Ready text.now l 0 c.old }
    ensures { SaysExpr text.now names.now l c.old ops.old (or_at text.now names.now sc l depth c.old) ops.new (reached result c.new) }
{
    and_level(text, names, ops, depth, c, sc, l)?;
    'ors: while c.next.kind == Kind::Or {
        if MAX_NODES <= c.nodes {
            return Err(Reason::TooMany.at(c.next.start));
        }
        c.nodes += 1;
        c.pass(text);
        and_level(text, names, ops, depth, c, sc, l)?;
        c.emit(ops, EITHER);
    }
    Ok(())
}
