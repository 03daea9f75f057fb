// Nets by their names, and their drivers.
#![tactic(auto)]

pub mod copies;
pub mod drivers;
