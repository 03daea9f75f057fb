//! Runs in which no alarm comes in time, though an observation net differs: what they contradict isn't proved.
#![tactic(auto)]

mod chance;
mod faults;
mod follow;
mod judge;
mod law;
mod look;

pub use faults::contradicted;
pub use law::contradicted_is_open;
