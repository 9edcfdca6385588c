// Finders: the part that spots keywords. One published meaning for them all, and the row finder.
#![tactic(auto)]

pub mod finding;
pub mod replays;
pub mod rows;
