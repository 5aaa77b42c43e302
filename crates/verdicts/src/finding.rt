// What the search answers.
use refusals::Refusal;

// The model is safe, void or unsafe, and the sheet has so many bytes; with safe the number of trials.
#[derive(Clone, Copy, Debug, PartialEq, Eq)]
pub enum Finding {
    Safe { length: usize, trials: usize },
    Void { length: usize },
    Unsafe { length: usize },
}

// What the search finds, unless the text or the room is refused.
pub type Searched = Result<Finding, Refusal>;
