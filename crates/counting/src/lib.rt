// How many members a map has, in all and for each setting of the shared names, and the lines that tell it.
#![tactic(auto)]

pub mod count_lines;
mod members;
