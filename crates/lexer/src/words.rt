// The reserved words, and the look-up among them.
ghost use Rattle.std.specs.Prelude.{◌≡◌, ◌≤◌, length};
ghost use Rattle.std.specs.List.{list_any};
ghost use Rattle.std.proofs.Math.Seq.{slice};
ghost use Rattle.notation.specs.Bytes.{same_word, in_lower_case, upper_letter};
ghost use Rattle.notation.specs.Tokens.{reserved, word_in};
ghost use Rattle.lexer.specs.working.Pieces.{found, kind_in, is_in, other_case};

use crate::pieces::Kind;

// How many words are reserved.
const WORDS: usize = 15;

// The letters of the longest.
const LONGEST: usize = 7;

// With the kinds of their pieces.
static RESERVED: [(&[u8], Kind); WORDS] = [
    (b"shared", Kind::Shared),
    (b"row", Kind::Row),
    (b"start", Kind::Start),
    (b"keep", Kind::Keep),
    (b"each", Kind::Each),
    (b"command", Kind::Command),
    (b"if", Kind::If),
    (b"do", Kind::Do),
    (b"else", Kind::Else),
    (b"for", Kind::For),
    (b"end", Kind::End),
    (b"skip", Kind::Skip),
    (b"and", Kind::And),
    (b"or", Kind::Or),
    (b"not", Kind::Not),
];

// Whether the two are the same, byte by byte: to compare words as short as these in groups of bytes takes longer.
fn same(word: &[u8], other: &[u8]) -> bool
    ensures { result ≡ same_word word.now other.now }
{
    if word.len() != other.len() {
        return false;
    }
    for (i, b) in word.iter().enumerate() {
        if *b != other[i] {
            return false;
        }
    }
    true
}

// The kind of the word, if it is one of the words.
#[tactic(auto, unfolding(crate::specs::working::Pieces::kind_in))]
fn kind_in(words: &[(&[u8], Kind)], word: &[u8]) -> Option<Kind>
    ensures { result ≡ kind_in word.now words.now }
{
    words
        .iter()
        .find(|(other, _)| same(word, other))
        .map(|(_, kind)| *kind)
}

// The kind of the reserved word from s to e.
pub fn reserved_at(text: &[u8], s: usize, e: usize) -> Option<Kind>
    requires { (s ≤ e) × (e ≤ length text.now) }
    ensures { result ≡ found (word_in (slice s e text.now) reserved 0) }
{
    kind_in(&RESERVED, &text[s..e])
}

// Whether the word in lower case is the other.
fn same_in_lower_case(word: &[u8], other: &[u8]) -> bool
    ensures { result ≡ same_word (in_lower_case word.now) other.now }
{
    if word.len() != other.len() {
        return false;
    }
    for (i, b) in word.iter().enumerate() {
        if b.to_ascii_lowercase() != other[i] {
            return false;
        }
    }
    true
}

// Whether the word in lower case is one of the words.
#[tactic(auto, unfolding(crate::specs::working::Pieces::is_in))]
fn is_among(words: &[(&[u8], Kind)], word: &[u8]) -> bool
    ensures { result ≡ is_in (in_lower_case word.now) words.now }
{
    words
        .iter()
        .any(|(other, _)| same_in_lower_case(word, other))
}

// Whether the word has a letter of upper case.
fn has_upper(word: &[u8]) -> bool
    ensures { result ≡ list_any upper_letter word.now }
{
    word.iter().any(|b| b.is_ascii_uppercase())
}

// Whether the word from s to e is reserved but for case, and not in lower case. Most words have no letter of upper case, and are not looked up again.
pub fn reserved_in_other_case(text: &[u8], s: usize, e: usize) -> bool
    requires { (s ≤ e) × (e ≤ length text.now) }
    ensures { result ≡ other_case (slice s e text.now) }
{
    if LONGEST < e - s {
        return false;
    }
    let word = &text[s..e];
    has_upper(word) && is_among(&RESERVED, word)
}
