//! What a proved claim says of runs, faults and metrics.
#![tactic(auto)]

mod law;

pub use law::{alarms_come, faults_lie_within, metric_is_at_least, unreached_is_not_dangerous};
