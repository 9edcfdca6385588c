// The bench: feed, arm, rest, clear and the standing question, over any kind of cell and any lawful finder.
#![tactic(auto)]

pub mod benches;
mod desks;
mod lines;
mod recent;
pub mod states;
