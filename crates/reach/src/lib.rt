// Which faults can change the points at all.
#![tactic(auto)]

mod cone;
mod points;
mod search;

pub use points::{Reach, Sort};
