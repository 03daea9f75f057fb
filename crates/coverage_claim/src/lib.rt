//! What a safety mechanism is claimed to cover for every workload, and the rules that prove a claim.
#![tactic(auto)]

mod law;
mod parts;

pub use law::{largest_sets_are_one, longer_windows_prove, rules_are_sound};
pub use parts::{Held, Site};
