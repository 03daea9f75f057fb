// Many faulty circuits at once, one in each bit of a word.
#![tactic(auto)]

mod cycle;
mod gate;
mod kernel;
mod lanes;
mod load;
mod source;
mod walk;

pub use lanes::{Lanes, Lanes4};
