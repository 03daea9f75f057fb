//! The tables of a campaign: that of its faults, as a CSV text, and that of the rows of its rates file with the nets that they take.
#![tactic(auto)]

mod counts;
mod faults;
pub mod fields;
mod look;
mod parts;
pub mod row;
pub mod words;

pub use faults::write_fault_table;
pub use parts::PartTable;
