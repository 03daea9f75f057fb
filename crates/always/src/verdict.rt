// How a fault stands for every workload.
ghost use Rattle.std.specs.Prelude.{◌≡◌, ◌<◌, length};
ghost use Rattle.campaign_plan.specs.Analysis.{fault_count};
ghost use Rattle.always.specs.Verdict.{verdict_at, verdict_for as verdict_by, waits as waits_until};

use campaign_plan::Plan;
use circuit::parts::Fault;
use claim_search::{Answer, FaultAnswer};

/// How a fault stands for every workload.
#[derive(Clone, Copy, Debug, PartialEq, Eq)]
pub enum Verdict {
    /// No path leads from it to an observation net.
    NoPath,
    /// An alarm comes in time, and before the first cycle no observation net differs.
    Alarmed,
    /// An alarm comes in time, but an observation net may differ before the first cycle.
    Early,
    /// It isn't proved.
    Open,
}

// Whether a fault is a flip or a pulse that does nothing before a cycle.
fn waits(from: u32, fault: Fault) -> bool
    ensures { result ≡ waits_until from fault }
{
    match fault {
        Fault::Stuck(_, _) => false,
        Fault::Flip(_, cycle) => from <= cycle,
        Fault::Pulse(_, cycle) => from <= cycle,
    }
}

// How a fault stands, by what was answered to it.
fn verdict_for(from: u32, fault: Fault, answer: FaultAnswer) -> Verdict
    ensures { result ≡ verdict_by from fault answer }
{
    match answer {
        FaultAnswer::NoPath => Verdict::NoPath,
        FaultAnswer::OfClaim(Answer::Alarmed) => Verdict::Alarmed,
        FaultAnswer::OfClaim(Answer::Early) => {
            if waits(from, fault) {
                Verdict::Alarmed
            } else {
                Verdict::Early
            }
        }
        FaultAnswer::OfClaim(Answer::Open) => Verdict::Open,
        FaultAnswer::OfClaim(Answer::NoRuns) => Verdict::Open,
    }
}

/// How fault `i` of a plan stands, by what was answered to each fault, where cycle `from` is the first that is spoken of.
pub(crate) fn verdict_of(plan: &Plan, from: u32, answers: &[FaultAnswer], i: u32) -> Verdict
    requires fault { i < fault_count plan.now }
    requires answers { length answers.now ≡ fault_count plan.now }
    ensures { result ≡ verdict_at plan.now from answers.now i }
{
    verdict_for(from, plan.faults().fault(i), answers[i as usize])
}
