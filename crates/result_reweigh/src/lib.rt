//! The rows of a result file by other failure rates.
#![tactic(auto)]

mod law;
mod rows;

pub use law::reweighs_are_lawful;
pub use rows::reweighed_rows;
