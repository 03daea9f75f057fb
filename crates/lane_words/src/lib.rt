//! Words whose bits are many circuits: the gates of a netlist, the faults of each lane, and what these do to nets and latches.
#![tactic(auto)]

pub mod arm;
pub mod flip;
pub mod force;
pub mod gate;
pub mod program;
mod quad;
pub mod table;
mod word;

pub use quad::Quad;
pub use word::{Word, word_at};
