//! Laws of campaigns: of the workers, of what readers of a report lean on, and of the generated campaign. Nothing here computes.
#![tactic(auto)]

pub mod crew;
pub mod report;
pub mod sample;
