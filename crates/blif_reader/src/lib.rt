// Reads netlists from the bytes of BLIF files.
#![tactic(auto)]

mod clocks;
mod counts;
mod drivers;
mod found;
mod netlist;
mod nets;
mod outputs;
mod parts;
mod read;
mod rows;
mod sizes;
mod steps;
pub mod walk_faults;

pub use read::read_blif;
