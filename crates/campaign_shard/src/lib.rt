//! One part of a campaign, on one seat: it draws each batch, and simulates and posts those of its part alone.
#![tactic(auto)]

mod law;
mod over;
mod part;
mod run;
mod seat;

pub use law::{stopped_parts_merge, unposted_draws_leave_no_row};
pub use part::{PartCampaign, Shard};
pub use run::run_part;
