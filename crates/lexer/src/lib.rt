// The pieces of a text, words and marks, and the look-up of words among the declared names.
#![tactic(auto)]

mod bytes;
pub mod names;
pub mod pieces;
mod words;
