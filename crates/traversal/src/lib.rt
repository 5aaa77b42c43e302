// The way through the states of a model's flat form, breadth first, and whether it can be gone on.
#![tactic(auto)]

pub mod exploring;
pub mod intact;
