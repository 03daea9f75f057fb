//! What is answered to each fault and to each part of a netlist, for every workload.
#![tactic(auto)]

mod alone;
mod answers;
mod ask;
mod faults;
mod inquiry;
mod nets;
mod parts;

pub use answers::{Answers, NoAnswers, PartAnswer};
pub use ask::answers_to;
pub use claim_search::Contradiction;
pub use inquiry::Inquiry;
