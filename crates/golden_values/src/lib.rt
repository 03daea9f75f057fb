//! What the golden run tells of a fault before it is simulated: whether some run excites it.
#![tactic(auto)]

mod values;

pub use values::GoldenValues;
