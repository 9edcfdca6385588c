// Sets of small numbers in few words: columns of marks, and sets of the numbers from 1 to 128.
#![tactic(auto)]

mod bits;
pub mod marks;
pub mod numbers;
