// The golden run, which is the run without faults, as simulations beside it read it.
#![tactic(auto)]

mod gate;
mod golden;
mod make;
mod rows;
mod simulation;
mod source;
mod values;
mod walk;
mod wiring;

pub use golden::Golden;
