// Expressions and items, read by recursive descent into code words.
#![tactic(auto)]

pub mod cursor;
pub mod expressions;
pub mod items;
mod names;
