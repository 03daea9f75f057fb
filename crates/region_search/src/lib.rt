//! The search for what proves a claim: what it keeps from one step to the next, and what it knows at its end.
#![tactic(auto)]

mod begin;
mod frames;
mod law;
mod near;
mod refute;
mod search;
mod truth;
mod watch;
mod window;

pub use begin::Beginning;
pub use frames::FrameSets;
pub use law::{cuts_keep_search, settled_sets};
pub use refute::{PairAt, Trial};
pub use search::{Search, TablePlace};
pub use truth::placed_tables;
pub use watch::Watchers;
