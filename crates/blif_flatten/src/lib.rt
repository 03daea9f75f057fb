// The flattened main model over numbered names.
#![tactic(auto)]

mod acts;
mod bound;
pub mod flat;
pub mod flatten;
pub mod marks;
mod names;
mod place;
mod places;
pub mod sorts;
pub mod table;
mod walk;
mod walked;
