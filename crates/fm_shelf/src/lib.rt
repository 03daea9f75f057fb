// Files and output as the program sees them: traits, the fakes that tests use, the system's own, and calls over whole files and lines.
#![tactic(auto)]

pub mod files;
pub mod lines;
pub mod memory;
pub mod paged;
pub mod past;
pub mod real;
pub mod shelf;
pub mod sure;
pub mod whole;
