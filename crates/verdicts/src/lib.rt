// What the search answers; what a call of it leaves is defined beside it.
#![tactic(auto)]

pub mod finding;
