// An answer of the test as one number.
ghost use Rattle.std.specs.Prelude.{◌≡◌};
ghost use Rattle.conditions.specs.Outcomes.{wording_of, wording_of_declined};
ghost use Rattle.acceptance.specs.Promises.{Bounded};
ghost use Rattle.packing.specs.Outcomes.{test_number};

use crate::{pack, refusal_number};
use conditions::outcome::{Declined, Outcome, Tested};

// The number of an outcome.
#[tactic(auto, unfolding(crate::specs::Outcomes::test_number, conditions::specs::Outcomes::wording_of, notation::specs::Bytes::bytes))]
pub fn outcome_number(outcome: Outcome) -> u64
    ensures { result ≡ test_number (wording_of (Ok outcome)) }
{
    match outcome {
        Outcome::SafeHolds => pack(b's', 0),
        Outcome::Void => pack(b'v', 0),
        Outcome::TraceHolds => pack(b't', 0),
        Outcome::FailsA => pack(b'A', 0),
        Outcome::FailsB => pack(b'B', 0),
        Outcome::FailsC => pack(b'C', 0),
        Outcome::FailsD => pack(b'D', 0),
        Outcome::FailsE => pack(b'E', 0),
        Outcome::FailsF => pack(b'F', 0),
    }
}

// The number of what the test answers.
#[tactic(auto, unfolding(crate::specs::Outcomes::test_number, conditions::specs::Outcomes::wording_of))]
pub fn tested_number(tested: Tested) -> u64
    requires { Bounded (wording_of tested) }
    ensures { result ≡ test_number (wording_of tested) }
{
    match tested {
        Ok(outcome) => outcome_number(outcome),
        Err(refusal) => refusal_number(refusal),
    }
}

// The number of what is told in place of an answer.
#[tactic(auto, unfolding(crate::specs::Outcomes::test_number, conditions::specs::Outcomes::wording_of, conditions::specs::Outcomes::wording_of_declined))]
pub fn declined_number(declined: Declined) -> u64
    requires { Bounded (wording_of_declined declined) }
    ensures { result ≡ test_number (wording_of_declined declined) }
{
    match declined {
        Declined::Tested(outcome) => outcome_number(outcome),
        Declined::Refused(refusal) => refusal_number(refusal),
    }
}
