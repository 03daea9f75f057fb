// Calls of the program that are stopped at any moment, and what goes on from them.
#![tactic(auto)]

pub mod law;
mod names;
pub mod runs;
pub mod stopping;
