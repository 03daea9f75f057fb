// Stuck-at faults that are equal to one another by structure, each with the one that stands for all.
#![tactic(auto)]

mod collapse;
mod fixed;
mod links;
mod looks;
mod numbers;

pub use collapse::Collapse;
