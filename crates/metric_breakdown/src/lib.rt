//! The metrics of a plan by each reading of it: for each safety goal, without each alarm point, by each alone, for other intervals.
#![tactic(auto)]

mod breakdown;
mod fan_out;
mod share;
mod sums;
mod text;
mod worker;

pub use breakdown::write_breakdown;
