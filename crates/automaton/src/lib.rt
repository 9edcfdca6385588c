// The keyword automaton: a finder over letter cells.
#![tactic(auto)]

pub mod letters;
mod linking;
mod memory;
mod tables;
mod trie;
