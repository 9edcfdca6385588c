// The standings of a book's lines: armed or resting.
#![tactic(auto)]

pub mod tables;
pub mod turns;
