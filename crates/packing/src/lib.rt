// An answer as one number for C: its low byte says which answer it is, and what is above that byte is a place or a length.
#![tactic(auto)]

pub mod outcomes;

ghost use Rattle.std.specs.Prelude.{◌≡◌, ◌≤◌};
ghost use Rattle.packing.specs.Packed.{packed, most_above};
ghost use Rattle.refusals.specs.Reasons.{number_of};

use refusals::Refusal;

pub fn pack(low: u8, above: usize) -> u64
    requires { above ≤ most_above }
    ensures { result ≡ packed low above }
{
    low as u64 + 256 * (above as u64)
}

// A refusal: its reason's number, with its place above.
pub fn refusal_number(refusal: Refusal) -> u64
    requires { refusal.place ≤ most_above }
    ensures { result ≡ packed (number_of refusal.reason) refusal.place }
{
    pack(refusal.reason.number(), refusal.place)
}
