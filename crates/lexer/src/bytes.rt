// The bytes that a text may have.
ghost use Rattle.std.specs.Prelude.{◌≡◌, get_or, ◌<◌};
ghost use Rattle.notation.specs.Bytes.{blank_byte, word_byte};

// A space or a newline.
pub fn is_blank(b: u8) -> bool
    ensures { result ≡ blank_byte b }
{
    matches!(b, b' ' | b'\n')
}

// A letter, a digit or an underscore; most are small letters.
pub fn is_word(b: u8) -> bool
    ensures { result ≡ word_byte b }
{
    if b'a' <= b {
        return b <= b'z';
    }
    if b == b'_' {
        return true;
    }
    if b < b'0' {
        return false;
    }
    if b <= b'9' {
        return true;
    }
    if b < b'A' {
        return false;
    }
    b <= b'Z'
}

// The byte at i, or 0 past the end.
pub fn byte_at(text: &[u8], i: usize) -> u8
    ensures { result ≡ get_or text.now i 0 }
{
    text.get(i).copied().unwrap_or(0)
}
