//! What a run shows of a simulated fault: the first cycle of each safety goal and of each alarm point.
#![tactic(auto)]

pub mod late;
mod law;

pub use law::{decided_lanes_may_leave, first_cycles_decide, shown_runs_decide};
