// A step of a trace as a lent list has it, what is asked of the list, and what is answered.
ghost use Rattle.std.specs.Prelude.{◌≡◌};
ghost use Rattle.windows.specs.declared.record.Unanswered.TheVariants as U;

use conditions::outcome::Declined;
use refusals::Reason;

// One step: its command, its choice word and the state after it.
#[repr(C)]
#[derive(Clone, Copy)]
pub struct Step {
    pub command: u8,
    pub word: u8,
    pub after: u16,
}

// How often each command occurs, by its number. No model has more commands.
pub type Counts = [u16; 16];

// What is asked: the steps; how often each command occurs, for whoever has room for so many counts; or where a command occurs most in so many steps.
#[derive(Clone, Copy, Debug, PartialEq, Eq)]
pub enum Question {
    Steps,
    Counts(usize),
    Burst(usize, usize),
}

// What is answered: how many steps there are; or the most times, and the first place where that is reached.
#[derive(Clone, Copy, Debug, PartialEq, Eq)]
pub enum Answer {
    Steps(usize),
    Burst(usize, usize),
}

// Why there is no answer: what is told where the sheet is no trace that passes; or the reason for which the question is refused, whose place is always 0.
#[derive(Clone, Copy, Debug, PartialEq, Eq)]
pub enum Unanswered {
    Declined(Declined),
    Refused(Reason),
}

impl From<Declined> for Unanswered {
    ghost from_gives = { λ declined unanswered. unanswered ≡ U.Declined declined };

    fn from(declined: Declined) -> Unanswered {
        Unanswered::Declined(declined)
    }
}

// A command counted over the steps seen so far: in the last of them, which a window of this width shows, and the most in any window, with its first place.
#[derive(Clone, Copy)]
pub struct Tally {
    pub command: usize,
    pub width: usize,
    pub seen: usize,
    pub here: usize,
    pub most: usize,
    pub place: usize,
}

// What comes of a question before the windows are counted: how many steps to put in the list, how often each command occurs in them, and the tally to begin with.
#[derive(Clone, Copy)]
pub struct Begun {
    pub steps: usize,
    pub counts: Counts,
    pub from: Tally,
}

// The answer, and how often each command occurs in the steps that are put in the list.
#[derive(Clone, Copy)]
pub struct Reply {
    pub answer: Result<Answer, Unanswered>,
    pub counts: Counts,
}
