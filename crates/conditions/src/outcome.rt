// What the test of a sheet answers, and what is told where it gives no answer to what was asked.
ghost use Rattle.std.specs.Prelude.{◌≡◌};
ghost use Rattle.conditions.specs.declared.outcome.Declined.TheVariants.{Refused};

use refusals::Refusal;

// The sheet holds, as a map of a model that can start, as a map of a void model or as a trace; or it fails by the condition of that letter.
#[derive(Clone, Copy, Debug, PartialEq, Eq)]
pub enum Outcome {
    SafeHolds,
    Void,
    TraceHolds,
    FailsA,
    FailsB,
    FailsC,
    FailsD,
    FailsE,
    FailsF,
}

// The outcome of a test, unless the text or the sheet is refused.
pub type Tested = Result<Outcome, Refusal>;

// What is told in place of an answer: a refusal of the text, of the sheet or of what was asked, or the outcome of a sheet that is not of the kind asked for.
#[derive(Clone, Copy, Debug, PartialEq, Eq)]
pub enum Declined {
    Refused(Refusal),
    Tested(Outcome),
}

impl From<Refusal> for Declined {
    ghost from_gives = { λ refusal declined. declined ≡ Refused refusal };

    fn from(refusal: Refusal) -> Declined {
        Declined::Refused(refusal)
    }
}
