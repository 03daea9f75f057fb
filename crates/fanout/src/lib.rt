// Who reads each net.
#![tactic(auto)]

mod edge;
mod fanout;
mod fill;

pub use fanout::Fanout;
