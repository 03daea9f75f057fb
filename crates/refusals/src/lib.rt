// How a call ends, the lines of refusals, and the texts of `check`, `audit`, `shard` and `merge`.
#![tactic(auto)]

pub mod audit_text;
pub mod check_text;
mod lines;
mod refusal;
pub mod refuse;
pub mod refused;
pub mod share_text;
pub mod status;
mod walk;
