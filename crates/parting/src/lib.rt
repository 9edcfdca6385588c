// A book and its two parts: three benches side by side, and the promise that nothing is added, lost or shifted.
#![tactic(auto)]

pub mod commands;
pub mod runs;
