// The text of `classes`.
#![tactic(auto)]

mod table;

pub use table::write_classes;
