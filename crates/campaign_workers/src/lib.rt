//! The workers of a campaign: each draws up to four batches, simulates them together and posts their rows, until there is none left.
#![tactic(auto)]

mod crew;
mod fan_out;
mod outcome;
mod round;
mod worker;

pub use crew::{Crew, NoCrew};
pub use fan_out::{Finished, campaign};
