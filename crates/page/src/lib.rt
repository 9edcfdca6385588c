// A page of rows of bytes: reads each row as a line, and enters it in an open book of letter cells.
#![tactic(auto)]

mod drafts;
mod entering;
pub mod faults;
mod fields;
pub mod pages;
mod rows;
