// Numbers in a sheet's bytes, how long a map is, and its members: what the crates above need of sheets too.
ghost use Rattle.std.specs.Prelude.{◌≡◌, ◌+◌, ◌*◌, ◌/◌, ◌<◌, ◌≤◌, length};
ghost use Rattle.meaning.specs.Evidence.{in_map};
ghost use Rattle.sheets.specs.Sheets.{map_length};
ghost use Rattle.sheets.specs.SheetTexts.{two_at, AreBytes};
ghost use Rattle.sheets.specs.working.SheetReading.{step_count};

// How many bytes a header has: six, and three counts.
pub const HEADER: usize = 9;

// That what was handed over are bytes: to have read one of them tells it of all.
pub fn bytes_known(b: &[u8])
    ensures { AreBytes b.now }
{
    if b.len() == 0 {
        return;
    }
    let first = b[0];
}

// A byte as a number.
pub fn wide(x: u8) -> usize
    ensures { (result ≡ x) × (result < 256) }
{
    x as usize
}

// The two-byte number at p.
#[tactic(auto, unfolding(crate::specs::SheetTexts::two_at))]
pub fn two_at(b: &[u8], p: usize) -> usize
    requires { p + 2 ≤ length b.now }
    ensures { (result ≡ two_at b.now p) × (result < 65536) }
{
    usize::from(u16::from_le_bytes([b[p], b[p + 1]]))
}

// How many bytes a map has.
#[tactic(auto, unfolding(crate::specs::Sheets::map_length))]
pub fn map_length(states: usize) -> usize
    ensures { result ≡ map_length states }
{
    (states / 8).max(1)
}

// How many bytes the longest sheet has that a search of so many states writes: behind the header a start of 8, and a step of 10 to every state but one.
pub fn sheet_room(states: usize) -> usize
    requires { states ≤ 4096 }
    ensures { result ≡ 7 + 10 * states }
{
    HEADER - 2 + 10 * states
}

// Whether state s is a member of a map.
#[tactic(auto, unfolding(meaning::specs::Evidence::in_map, meaning::specs::Bits::bit))]
pub fn in_map(map: &[u8], s: usize) -> bool
    requires { s / 8 < length map.now }
    ensures { result ≡ in_map map.now s }
{
    (map[s / 8] >> (s % 8)) % 2 == 1
}

// How many records of steps are begun from p on.
#[tactic(auto, unfolding(crate::specs::working::SheetReading::step_count))]
pub fn step_count(b: &[u8], p: usize) -> usize
    requires { (p ≤ length b.now) × (length b.now ≤ 65536) }
    ensures { (result ≡ step_count b.now p) × (p + 10 * result < length b.now + 10) }
{
    (b.len() - p).div_ceil(10)
}
