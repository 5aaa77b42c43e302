// Why something is refused, and where: what an entry point hands back in place of an answer.
#![tactic(auto)]

ghost use Rattle.std.specs.Prelude.{◌≡◌};
ghost use Rattle.refusals.specs.Reasons.{number_of};

// The reasons, with the numbers by which programs and callers in C tell them.
#[derive(Clone, Copy, Debug, PartialEq, Eq)]
pub enum Reason {
    TextTooLong = 1,
    NoToken = 2,
    Unexpected = 3,
    Redeclared = 4,
    Undeclared = 5,
    StarBarred = 6,
    TooMany = 7,
    NoRoom = 8,
    Malformed = 9,
    OutOfRange = 10,
    BadWidth = 16,
}

// A reason, and the place of a text or a sheet that it is told of.
#[derive(Clone, Copy, Debug, PartialEq, Eq)]
pub struct Refusal {
    pub reason: Reason,
    pub place: usize,
}

impl Reason {
    #[tactic(auto, unfolding(crate::specs::Reasons::number_of))]
    pub fn number(self) -> u8
        ensures { result ≡ number_of self }
    {
        self as u8
    }

    // The refusal for this reason at a place.
    pub fn at(self, place: usize) -> Refusal
        ensures { result ≡ record { reason = self; place = place } }
    {
        Refusal {
            reason: self,
            place: place,
        }
    }
}
