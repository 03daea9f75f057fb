// Many faulty circuits at once, of which only what differs from the golden run is simulated.
#![tactic(auto)]

mod cone;
mod cycle;
mod difference;
mod drop;
mod flip;
mod force;
mod golden_cycle;
mod group;
mod lanes;
mod latches;
mod list;
mod nets;
mod note;
mod pace;
mod picks;
mod program;
mod shown;
mod sources;
mod sweep;
mod table;
mod take;
mod values;
mod walk;

pub use lanes::{DifferentialLanes, DifferentialLanes4};
pub use picks::Picks;
