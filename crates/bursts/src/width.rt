// A width as the digits of a decimal number.
ghost use Rattle.std.specs.Prelude.{◌≡◌, ◌+◌, ◌-◌, ◌*◌, ◌≤◌};
ghost use Rattle.bursts.specs.Widths.{capped, width_in};

// The most that a width is told apart up to: every number above 4,095 is refused alike.
const MOST: usize = 4096;

// n with one digit more behind it.
fn with_digit(n: usize, b: u8) -> usize
    requires { (n ≤ 4096) × (48 ≤ b) }
    ensures { result ≡ capped (n * 10 + (b - 48)) }
{
    MOST.min(n * 10 + usize::from(b - b'0'))
}

// The width that bytes say: at least one digit and nothing else.
#[tactic(auto, using(crate::proofs::WidthDigits::empty_unread))]
pub fn width_in(bytes: &[u8]) -> Option<usize>
    ensures { result ≡ width_in bytes.now }
{
    if bytes.is_empty() {
        return None;
    }
    let mut n: usize = 0;
    'digits: for b in bytes {
        if !b.is_ascii_digit() {
            return None;
        }
        n = with_digit(n, *b);
    }
    Some(n)
}
