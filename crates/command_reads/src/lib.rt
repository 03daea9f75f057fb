// What a command reads of its files, and what they stand for or the first refusal, in the one order of all checks.
#![tactic(auto)]

pub mod begun;
pub mod driven;
pub mod files;
pub mod judge;
pub mod merged;
pub mod netlist;
pub mod observed;
pub mod planned;
pub mod rated;
pub mod reweighed;
mod sample;
pub mod supposed;
mod tables;
