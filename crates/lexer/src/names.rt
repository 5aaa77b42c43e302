// The declared names, by their places in the text: name i begins at names[i] and is names[28 + i] bytes long.
ghost use Rattle.std.specs.Prelude.{◌≡◌, ◌+◌, ◌-◌, ◌≤◌, ◌<◌, ◌^◌, length, take, drop, set};
ghost use Rattle.std.specs.Int.{from_le_bytes, w64};
ghost use Rattle.std.proofs.Math.Seq.{slice};
ghost use Rattle.notation.specs.Bytes.{in_lower_case, same_word};
ghost use Rattle.notation.specs.Texts.{place_of};
ghost use Rattle.lexer.specs.working.Kinds.{kind_number};
ghost use Rattle.lexer.specs.working.Pieces.{NAME, name_in, Fresh};
ghost use Rattle.lexer.specs.working.Names.{Ending, same_first, left_to_compare, word_at, words_in, name_found};

use crate::bytes::byte_at;
use crate::pieces::Piece;

// The eight bytes from i on as one number.
fn eight(text: &[u8], i: usize) -> u64
    requires { i + 8 ≤ length text.now }
    ensures { result ≡ from_le_bytes w64 (take 8 (drop i text.now)) }
{
    u64::from_le_bytes(text[i..i + 8].try_into().unwrap())
}

// How many of the first k bytes from b on are left to compare with those from a on: eight fewer where the last eight are the same as written.
fn left_to_compare(text: &[u8], a: usize, b: usize, k: usize) -> usize
    requires { (a + k ≤ length text.now) × (b + k ≤ length text.now) }
    ensures { result ≡ left_to_compare text.now a b k }
{
    if k < 8 {
        return k;
    }
    let m = k - 8;
    if eight(text, b + m) == eight(text, a + m) {
        return m;
    }
    k
}

// Whether the n bytes from b on are those from a on but for case, compared from the end, where names that look alike differ.
fn same_bytes(text: &[u8], a: usize, b: usize, n: usize) -> bool
    requires { (a + n ≤ length text.now) × (b + n ≤ length text.now) }
    ensures { result ≡ same_first text.now a b n }
{
    let mut k = n;
    while 0 < k {
        let m = left_to_compare(text, a, b, k);
        if m == k {
            k -= 1;
            if !text[b + k].eq_ignore_ascii_case(&text[a + k]) {
                return false;
            }
        } else {
            k = m;
        }
    }
    true
}

// Whether the word from s to e is the name i, where `lower` and `upper` are its last byte in both cases. That byte is compared first: most names differ there.
fn is_name(
    text: &[u8],
    names: &[u16; 56],
    i: usize,
    s: usize,
    e: usize,
    lower: u8,
    upper: u8,
) -> bool
    requires { (i < 28) × Ending text.now s e lower upper }
    ensures { result ≡ same_word (in_lower_case (slice s e text.now)) (word_at text.now names.now i) }
{
    let a = usize::from(names[i]);
    let n = usize::from(names[28 + i]);
    if e - s != n {
        return false;
    }
    let y = byte_at(text, a + (n - 1));
    if y != lower && y != upper {
        return false;
    }
    same_bytes(text, a, s, n)
}

// The first of the names from..to that the piece t is.
pub fn find_name(text: &[u8], names: &[u16; 56], from: usize, to: usize, t: Piece) -> Option<usize>
    requires { (from ≤ to) × ((to ≤ 28) × (Fresh text.now t × (kind_number t.kind ≡ NAME))) }
    ensures { result ≡ name_found to (from + place_of (name_in text.now t).word (words_in text.now names.now from (to - from))) }
{
    let s = t.start;
    let e = t.end;
    let last = text[e - 1];
    let lower = last.to_ascii_lowercase();
    let upper = last.to_ascii_uppercase();
    for i in from..to {
        if is_name(text, names, i, s, e, lower, upper) {
            return Some(i);
        }
    }
    None
}

// The piece t as the name i.
pub fn declare(names: &mut [u16; 56], i: usize, t: Piece)
    requires { (i < 28) × ((t.start ≤ t.end) × (t.end < 2 ^ 16)) }
    ensures { names.new ≡ set (set names.old i t.start) (28 + i) (t.end - t.start) }
{
    let s = t.start;
    let n = t.end - s;
    names[i] = s as u16;
    names[28 + i] = n as u16;
}
