//! Sets of pairs of a golden value and one with faults, and what a table leaves of them.
#![tactic(auto)]

mod law;
mod pairs;
mod table;
mod values;

pub use law::tables_are_rules;
pub use pairs::PairSet;
pub use table::TableRule;
