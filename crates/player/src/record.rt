// The record of a player, and what is answered to whoever opens or moves it.
use conditions::outcome::Declined;

// Where a player stands on a trace: how many of its steps lie behind, and the state there.
#[derive(Clone, Copy, Debug, PartialEq, Eq)]
pub struct Player {
    pub place: usize,
    pub state: usize,
}

// Where a move goes: one step on, one step back, or to the beginning.
#[derive(Clone, Copy, Debug, PartialEq, Eq)]
pub enum Direction {
    Forward,
    Back,
    Beginning,
}

// What a move answers: it moved; it is at an end; or the record is not one of this trace.
#[derive(Clone, Copy, Debug, PartialEq, Eq)]
pub enum Answer {
    Moved,
    AtEnd,
    Foreign,
}

// A record after a move, and the answer; or what is told in its place where the sheet is no trace that passes.
#[derive(Clone, Copy, Debug, PartialEq, Eq)]
pub struct Move {
    pub player: Player,
    pub answer: Result<Answer, Declined>,
}
