//! The search for an answer to a claim.
#![tactic(auto)]

mod answer;
mod faults;
mod hypotheses;
mod lead;
mod question;
mod sites;
mod window;

pub use answer::{Answer, answer_by_cases, answer_claim};
pub use faults::FaultAnswer;
pub use hypotheses::Contradiction;
pub use lead::{LeadIn, lead_in};
pub use question::{Posed, Question, Searched};
pub use sites::AnswerSearch;
pub use window::WindowSearch;
