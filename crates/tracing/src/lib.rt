// The way back through the states that the search met: whether a run is recorded, and its trace.
#![tactic(auto)]

pub mod recorded;
pub mod traces;
