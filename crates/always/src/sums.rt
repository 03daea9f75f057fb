// The sums where the open faults are dangerous, and no others.
ghost use Rattle.std.specs.Prelude.{◌≡◌, ◌<◌, length};
ghost use Rattle.campaign_plan.specs.Analysis.{fault_count};
ghost use Rattle.campaign_plan.specs.Laws.{fault_share};
ghost use Rattle.metric_sums.specs.Totals.{AreConsistent, sums_by};
ghost use Rattle.fm_base.specs.Lists.{below};
ghost use Rattle.always.specs.Steps.{covers as covers_by, open_class as class_by};
ghost use Rattle.always.specs.Verdict.{verdict_at};

use crate::verdict::{Verdict, verdict_of};
use campaign_plan::{Plan, class_with};
use claim_search::FaultAnswer;
use metric_sums::{Class, Sums};

/// Which differences count.
#[derive(Clone, Copy, Debug, PartialEq, Eq)]
pub(crate) enum Counting {
    /// All, so an early fault is dangerous.
    All,
    /// Those from the first cycle on that is spoken of.
    Later,
}

// Whether a fault that stands so isn't dangerous.
fn covers(counting: Counting, verdict: Verdict) -> bool
    ensures { result ≡ covers_by counting verdict }
{
    match verdict {
        Verdict::NoPath => true,
        Verdict::Alarmed => true,
        Verdict::Early => counting == Counting::Later,
        Verdict::Open => false,
    }
}

// The class of fault `i`.
fn open_class(plan: &Plan, from: u32, answers: &[FaultAnswer], counting: Counting, i: u32) -> Class
    requires fault { i < fault_count plan.now }
    requires answers { length answers.now ≡ fault_count plan.now }
    ensures { result ≡ class_by plan.now counting (verdict_at plan.now from answers.now) i }
{
    let is_covered = covers(counting, verdict_of(plan, from, answers, i));
    class_with(plan, i, !is_covered, true)
}

// What fault `i` adds to the sums.
fn open_share(plan: &Plan, from: u32, answers: &[FaultAnswer], counting: Counting, i: u32) -> Sums
    requires fault { i < fault_count plan.now }
    requires answers { length answers.now ≡ fault_count plan.now }
    ensures { result ≡ fault_share plan.now (class_by plan.now counting (verdict_at plan.now from answers.now)) i }
{
    let class = open_class(plan, from, answers, counting, i);
    Sums::of_fault(class, plan.faults().fault(i).permanent(), plan.weight(i))
}

/// The sums over all faults, where each that isn't covered is dangerous, and no other.
pub(crate) fn open_sums(plan: &Plan, from: u32, answers: &[FaultAnswer], counting: Counting) -> Sums
    requires answers { length answers.now ≡ fault_count plan.now }
    ensures sums { result ≡ sums_by (fault_share plan.now (class_by plan.now counting (verdict_at plan.now from answers.now))) (below (fault_count plan.now)) }
    ensures consistent { AreConsistent result }
{
    let mut sums = Sums::none();
    for i in 0..plan.faults().len() {
        sums = sums.plus(&open_share(plan, from, answers, counting, i));
    }
    sums
}
