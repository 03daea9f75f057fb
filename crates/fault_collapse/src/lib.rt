// The outcomes of all faults, by simulating one of each group of equal ones.
#![tactic(auto)]

mod chosen;
mod outcomes;
mod planes;
mod simulate;
mod spread;

pub use outcomes::{OutcomeList, collapsed_outcomes};
pub use planes::collapsed_planes;
