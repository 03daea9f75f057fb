//! The bounds between which the metrics of a campaign end, whatever its missing batches give.
#![tactic(auto)]

mod law;
mod metrics;
mod missing;
mod sums;
mod text;
pub mod words;

pub use law::{bounds_hold, bounds_narrow, targets_stand};
use metric_sums::{Fraction, Sums};
pub use text::write_progress;

/// What the faults of missing batches are taken to be.
#[derive(Clone, Copy, Debug, PartialEq, Eq)]
pub enum End {
    /// Noticed, and not dangerous.
    Best,
    /// Dangerous.
    Worst,
    /// Latent, where they are in a safety mechanism, and else dangerous.
    MostLatent,
}

/// The least and the greatest value of a metric, where it has one.
#[derive(Clone, Copy, Debug, PartialEq, Eq)]
pub struct Ends {
    pub least: Option<Fraction>,
    pub greatest: Option<Fraction>,
}

/// The five sums over all batches at each end, in units of 10^-6 FIT.
#[derive(Clone, Copy, Debug, PartialEq, Eq)]
pub struct EndSums {
    pub best: Sums,
    pub worst: Sums,
    pub most_latent: Sums,
}

/// How a target stands: whatever the missing batches give, it is met, or it is missed; or the bounds allow both.
#[derive(Clone, Copy, Debug, PartialEq, Eq)]
pub enum Standing {
    Met,
    Missed,
    Open,
}
