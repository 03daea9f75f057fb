//! The pairs of a latent and a detected fault, by the rows of a result file.
#![tactic(auto)]

mod choice;
mod law;
mod pairs;

pub use law::pairs_are_placed;
pub use pairs::{PairRefusal, Pairs};
