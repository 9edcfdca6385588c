// The start book: an open book takes lines, a sealed book tells them.
#![tactic(auto)]

pub mod entering;
pub mod entries;
mod filling;
pub mod ledgers;
pub mod open;
pub mod rows;
pub mod sealed;
mod tables;
pub mod telling;
