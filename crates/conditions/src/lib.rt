// The conditions on a sheet's contents, over the flat form of a model: A, B and C on a map, D, E and F on a trace.
#![tactic(auto)]

pub mod maps;
pub mod outcome;
pub mod traces;
