//! The pure machine of a campaign: workers claim numbers, post them to a history and look at it. Its laws hold over every list of events.
#![tactic(auto)]

mod event;
mod laws;
mod machine;

pub use event::Event;
pub use laws::{
    claims_are_disjoint, history_is_claimed, history_is_whole, history_only_grows,
    sums_are_from_scratch,
};
pub use machine::{Core, StepRefusal, step};
