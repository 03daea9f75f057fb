//! The planes of danger and of notice of every reading of a plan, by one simulation.
#![tactic(auto)]

mod add;
mod cycles;
mod late;
mod law;
mod notice;
mod planes;
pub mod reading;
mod runs;
mod simulator;

pub use cycles::FaultCycles;
pub use law::{list_gives_readings, pairs_give_plans};
pub use planes::ReadingPlanes;
pub use reading::{Reading, coverage_list, reading_list};
pub use runs::loaded_readings;
pub use simulator::ReadingSimulator;
