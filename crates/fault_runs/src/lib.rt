// Many faulty circuits followed through a run, and what the run shows of each fault.
#![tactic(auto)]

mod draw;
mod first;
mod leaving;
mod members;
mod over;
mod paths;
mod points;
mod record;
mod resting;
mod run;
mod see;
mod start;
mod stretch;
mod whole;

pub use draw::FaultDraw;
pub use first::FirstCycles;
pub use leaving::LeavingRule;
pub use paths::PointPaths;
pub use record::{AlarmCycles, FaultRecords};
pub use run::follow_run;
pub use start::start_run;
pub use stretch::follow_stretch;
