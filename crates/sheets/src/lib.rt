// Sheets of evidence: numbers in their bytes, and what the first pass over them finds.
#![tactic(auto)]

pub mod fields;
pub mod shapes;
