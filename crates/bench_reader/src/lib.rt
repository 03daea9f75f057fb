// Reads netlists from the bytes of `.bench` files.
#![tactic(auto)]

mod cells;
mod copies;
pub mod gate;
mod gather;
mod line;
mod names;
mod netlist;
mod nets;
mod parts;
mod read;
mod says;
mod statement;
mod token;

use fm_base::Name;
pub use read::read_bench;

/// The kinds of refusal, in the order in which they are looked for.
#[derive(Drop)]
pub enum BenchKind {
    BadLine,
    BadGate,
    BadCount,
    TooWide,
    TooLarge,
    TwoDrivers,
    Undriven(Name),
}

/// The line and the kind of the refusal of a netlist file.
#[derive(Drop)]
pub struct BenchFault {
    pub line: u32,
    pub kind: BenchKind,
}
