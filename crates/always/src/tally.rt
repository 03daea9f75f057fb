// How many faults of a part stand in each way.
ghost use Rattle.std.specs.Prelude.{◌≡◌, length};
ghost use Rattle.campaign_plan.specs.Analysis.{fault_count};
ghost use Rattle.always.specs.Tally.{IsTallySmall, no_tally, tally_below, with_verdict};
ghost use Rattle.always.specs.Verdict.{verdict_at};

use crate::verdict::{Verdict, verdict_of};
use campaign_plan::Plan;
use claim_search::FaultAnswer;

/// How many faults there are, and how many of them stand in each way.
#[derive(Clone, Copy)]
pub(crate) struct Tally {
    pub(crate) faults: u32,
    pub(crate) no_path: u32,
    pub(crate) alarmed: u32,
    pub(crate) early: u32,
    pub(crate) left_open: u32,
}

impl Tally {
    // No fault.
    fn none() -> Tally
        ensures { result ≡ no_tally }
    {
        Tally {
            faults: 0,
            no_path: 0,
            alarmed: 0,
            early: 0,
            left_open: 0,
        }
    }

    // Counts one fault more.
    fn add(&mut self, verdict: Verdict)
        requires { IsTallySmall self.old }
        ensures { self.new ≡ with_verdict verdict self.old }
    {
        self.faults += 1;
        match verdict {
            Verdict::NoPath => self.no_path += 1,
            Verdict::Alarmed => self.alarmed += 1,
            Verdict::Early => self.early += 1,
            Verdict::Open => self.left_open += 1,
        }
    }
}

/// How many faults of a part there are, and how many of them stand in each way.
pub(crate) fn tally_part(plan: &Plan, from: u32, answers: &[FaultAnswer], number: u32) -> Tally
    requires answers { length answers.now ≡ fault_count plan.now }
    ensures { result ≡ tally_below plan.now (verdict_at plan.now from answers.now) number (fault_count plan.now) }
{
    let mut tally = Tally::none();
    for i in 0..plan.faults().len() {
        if plan.part_of_fault(i) == number {
            tally.add(verdict_of(plan, from, answers, i));
        }
    }
    tally
}
