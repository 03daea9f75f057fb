// How many faults are free, and what they weigh.
ghost use Rattle.std.specs.Prelude.{◌≡◌, ◌<◌, ◌≤◌, ◌^◌, length};
ghost use Rattle.campaign_plan.specs.Analysis.{batch_count, fault_count};
ghost use Rattle.campaign_plan.specs.Batches.{class_of_fault as class_by_planes};
ghost use Rattle.fmeda_report.specs.Tallies.{planes_in_order};
ghost use Rattle.metric_coverage.specs.Amounts.{IsAmountSmall, amount_below, no_amount, with_free};
ghost use Rattle.metric_coverage.specs.Freed.{evidence_at, free_by};

use crate::free::{FreeFaults, class_of_fault, is_free};
use campaign_plan::{Outcome, Plan};
use coverage::Evidence;

/// How many faults there are, and what the permanent and the transient ones of them weigh, in units of 10^-6 FIT.
#[derive(Clone, Copy)]
pub(crate) struct Amount {
    pub(crate) faults: u32,
    pub(crate) permanent: u64,
    pub(crate) transient: u64,
}

impl Amount {
    // No fault.
    fn none() -> Amount
        ensures { result ≡ no_amount }
    {
        Amount {
            faults: 0,
            permanent: 0,
            transient: 0,
        }
    }

    // Counts one fault more.
    fn add(&mut self, permanent: bool, weight: u64)
        requires small { IsAmountSmall self.old }
        requires weight { weight ≤ 10 ^ 18 }
        ensures { self.new ≡ with_free permanent weight self.old }
    {
        self.faults += 1;
        if permanent {
            self.permanent += weight;
        } else {
            self.transient += weight;
        }
    }
}

/// How many faults of a plan are free, and what they weigh, by the evidence of each fault and the planes of each batch.
pub(crate) fn free_amount(
    plan: &Plan,
    free: FreeFaults,
    evidence: &[Evidence],
    planes: &[Outcome],
) -> Amount
    requires evidence { length evidence.now ≡ fault_count plan.now }
    requires planes { length planes.now ≡ batch_count plan.now }
    ensures { result ≡ amount_below plan.now (free_by free (evidence_at evidence.now) (class_by_planes plan.now (planes_in_order planes.now))) (fault_count plan.now) }
{
    let mut amount = Amount::none();
    for i in 0..plan.faults().len() {
        let class = class_of_fault(plan, planes, i);
        if is_free(free, evidence[i as usize], class) {
            amount.add(plan.faults().fault(i).permanent(), plan.weight(i));
        }
    }
    amount
}
