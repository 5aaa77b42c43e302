// The evaluation of a model's code: with one choice word, with 64 words at once, and the table of one row that is computed by both.
#![tactic(auto)]

mod kinds;
pub mod lanes;
pub mod machine;
pub mod numbers;
pub mod one_row;
pub mod plan;
