// What faults are simulated on.
#![tactic(auto)]

mod seen;
mod stretches;
mod testbench;

pub use seen::SeenValues;
pub use stretches::STRETCH;
pub use testbench::Testbench;
