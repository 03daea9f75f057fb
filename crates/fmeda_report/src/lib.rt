// The report of a campaign.
#![tactic(auto)]

mod faults;
mod law;
mod metrics;
mod parts;
mod planes;
mod report;
mod sizes;
mod space;
mod tally;
mod words;

pub use law::rows_report_truly;
pub use metrics::write_metrics;
pub use report::{write_report, write_report_of_rows, write_summary};
pub use space::{ReportSpace, Tallies};
