//! Work that several threads share in rounds: which worker takes what, once for each analysis of all faults.
#![tactic(auto)]

mod crew;
mod rounds;

pub use crew::{hired, work_all};
pub use rounds::{Rounds, WorkerShare};
