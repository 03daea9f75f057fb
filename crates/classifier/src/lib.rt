// What faulty circuits show over the runs of a workload: the planes of danger and of notice.
#![tactic(auto)]

mod batch;
mod batch_simulator;
mod decided;
mod followed;
mod narrow;
mod noise;
mod outcome;
mod points;
mod reached;
mod run;
mod see;
mod simulator;

pub use batch::{batch_outcome, quad_outcomes};
pub use batch_simulator::BatchSimulator;
pub use outcome::loaded_outcome;
pub use points::{differing, differs_at};
pub use simulator::{LaneFaults, Simulator};
