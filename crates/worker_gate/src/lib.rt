//! What a worker tells between a draw and the simulation of the batch that it drew. A gate has no answer, so no result can hang on it.
#![tactic(auto)]

mod gate;
mod pair;

pub use gate::{Gate, NoGate};
pub use pair::PairGate;

#[cfg(test)]
mod tests;
