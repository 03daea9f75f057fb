//! The table of latencies, as a CSV text: of each fault whether it is excited, when it is first seen, and which interval would do.
#![tactic(auto)]

mod fan_out;
mod latency;
mod row;
mod runs;
mod shows;
mod table;
mod worker;

pub use table::write_latencies;
