// The look-back ring: at each tick, which prefixes of lines end.
#![tactic(auto)]

mod distances;
pub mod links;
pub mod lookbacks;
