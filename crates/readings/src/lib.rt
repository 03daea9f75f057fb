//! One campaign, every reading: the metrics for each safety goal, without each alarm, by each alone and for other intervals.
#![tactic(auto)]

mod law;

pub use law::{
    one_simulation_gives_all, rows_give_readings, stuck_at_is_excited, transients_are_excited,
};
