//! A whole campaign, from a plan to its report.
#![tactic(auto)]

mod campaign;
pub mod law;
mod over;
mod run;
mod tell;

pub use campaign::Campaign;
pub use run::{End, Ran, Text, run_campaign};
