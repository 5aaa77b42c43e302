// Input and output of the programs: whole files and corpora come in, and what is written goes out whole or is told.
#![tactic(auto)]

pub mod arguments;
pub mod files;
pub mod input;
pub mod output;
#[cfg(test)]
mod tests;
pub mod told;
pub mod values;
pub mod whole;
