// Pieces of a text: the next token, with its place, or what is no token.
ghost use Rattle.std.specs.Prelude.{◌≡◌, ℕ, ◌+◌, ◌≤◌, ◌<◌, ◌^◌, length, drop};
ghost use Rattle.notation.specs.working.Lexing.{span};
ghost use Rattle.lexer.specs.working.Kinds.{kind_number};
ghost use Rattle.lexer.specs.working.Pieces.{BAD, piece_of, misplaced, blanks, byte_piece, word_piece, mark_end, mark_piece, piece_at};

use crate::bytes::{byte_at, is_blank, is_word};
use crate::words::{reserved_at, reserved_in_other_case};
use refusals::{Reason, Refusal};

// The longest word that is a token.
const MAX_WORD: usize = 16;

// The kinds: the signs by their numbers, then a name, a byte or word that is refused, and the end of the text.
#[derive(Clone, Copy, PartialEq, Eq)]
pub enum Kind {
    Shared = 0,
    Row = 1,
    Start = 2,
    Keep = 3,
    Each = 4,
    Command = 5,
    If = 6,
    Do = 7,
    Else = 8,
    For = 9,
    End = 10,
    Skip = 11,
    And = 12,
    Or = 13,
    Not = 14,
    Zero = 15,
    One = 16,
    Star = 17,
    Dot = 18,
    Semi = 19,
    Assign = 20,
    Open = 21,
    Close = 22,
    Other = 23,
    Name = 24,
    Bad = 25,
    Finish = 26,
}

// What a reserved word in another case is: nothing that the notation uses.
const RECASED: Kind = Kind::Other;

// What stands from start to end.
#[derive(Clone, Copy)]
pub struct Piece {
    pub kind: Kind,
    pub start: usize,
    pub end: usize,
}

impl Piece {
    // The refusal where the piece may not stand.
    pub fn misplaced(self) -> Refusal
        ensures { result ≡ misplaced self }
    {
        if self.kind == Kind::Bad {
            return Reason::NoToken.at(self.start);
        }
        Reason::Unexpected.at(self.start)
    }
}

// The first place from `at` on that holds no blank.
fn skip_blanks(text: &[u8], at: usize) -> usize
    ensures { result ≡ at + blanks (drop at text.now) }
{
    let mut i = at;
    while i < text.len() && is_blank(text[i]) {
        i += 1;
    }
    i
}

// The end of the word that begins at `from`.
fn word_end(text: &[u8], from: usize) -> usize
    requires { from ≤ length text.now }
    ensures { (result ≡ from + span (drop from text.now)) × (result ≤ length text.now) }
{
    for i in from..text.len() {
        if !is_word(text[i]) {
            return i;
        }
    }
    text.len()
}

// Kinds are told apart first, and a piece is made of one last: a piece that is handed on is copied with the bytes between its fields.

// The kind of a word of the one byte b; none is reserved.
fn byte_kind(b: u8) -> Kind
    ensures { (s e : ℕ) → piece_of (kind_number result) s e ≡ byte_piece b s e }
{
    if b.is_ascii_alphabetic() {
        return Kind::Name;
    }
    match b {
        b'0' => Kind::Zero,
        b'1' => Kind::One,
        _ => Kind::Other,
    }
}

// The kind of the word from s to e.
fn word_kind(text: &[u8], s: usize, e: usize) -> Kind
    requires { (s < e) × (e ≤ length text.now) }
    ensures { piece_of (kind_number result) s e ≡ word_piece text.now s e }
{
    let n = e - s;
    let b = text[s];
    if n < 2 {
        return byte_kind(b);
    }
    if MAX_WORD < n {
        return Kind::Bad;
    }
    if let Some(kind) = reserved_at(text, s, e) {
        return kind;
    }
    if !b.is_ascii_alphabetic() {
        return Kind::Other;
    }
    if reserved_in_other_case(text, s, e) {
        return RECASED;
    }
    Kind::Name
}

// The piece that the word from s to e is.
fn word_piece(text: &[u8], s: usize, e: usize) -> Piece
    requires { (s < e) × (e ≤ length text.now) }
    ensures { result ≡ word_piece text.now s e }
{
    let kind = word_kind(text, s, e);
    Piece {
        kind,
        start: s,
        end: e,
    }
}

// The kind of the mark b, with the byte after it, or 0.
fn mark_kind(b: u8, next: u8) -> Kind
    ensures { (s : ℕ) → piece_of (kind_number result) s (mark_end (kind_number result) s) ≡ mark_piece b next s }
{
    match b {
        b'.' => Kind::Dot,
        b';' => Kind::Semi,
        b'(' => Kind::Open,
        b')' => Kind::Close,
        b'*' => Kind::Star,
        b'=' => Kind::Other,
        b':' => {
            if next == b'=' {
                return Kind::Assign;
            }
            Kind::Other
        }
        _ => Kind::Bad,
    }
}

// The piece that the mark b is at s, with the byte after it, or 0.
fn mark_piece(b: u8, next: u8, s: usize) -> Piece
    requires { s + 2 < 2 ^ 64 }
    ensures { result ≡ mark_piece b next s }
{
    let kind = mark_kind(b, next);
    let end = if kind == Kind::Assign { s + 2 } else { s + 1 };
    Piece {
        kind,
        start: s,
        end,
    }
}

// The next piece from `at` on.
pub fn piece_at(text: &[u8], at: usize) -> Piece
    ensures { result ≡ piece_at text.now at }
{
    let s = skip_blanks(text, at);
    let n = text.len();
    if n <= s {
        return Piece {
            kind: Kind::Finish,
            start: n,
            end: n,
        };
    }
    let b = text[s];
    if is_word(b) {
        let e = word_end(text, s);
        return word_piece(text, s, e);
    }
    let next = byte_at(text, s + 1);
    mark_piece(b, next, s)
}
