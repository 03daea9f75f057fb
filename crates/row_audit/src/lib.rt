//! The kept rows of a campaign, judged anew by simulations that are simpler than the campaign's: every table is evaluated in every cycle.
#![tactic(auto)]

mod alarms;
mod audit;
mod bench;
mod circuits;
mod every_table;
mod judge;
mod kernel;
mod law;
mod one_circuit;
mod points;
mod run;
mod see;
mod simulated;
mod watcher;

pub use audit::{audited, first_false_row};
pub use kernel::Kernel;
pub use law::each_first_is_each;
pub use simulated::Simulated;
