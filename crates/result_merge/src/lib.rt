//! Result files of one plan, merged, and the parts of a campaign.
#![tactic(auto)]

mod law;
mod merge;
mod table;

pub use law::{merges_are_lawful, unions_are_lawful};
pub use merge::{MergeRefusal, merge_rows};
pub use table::PlanesTable;
