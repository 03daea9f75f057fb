// What the faults of each part amount to.
ghost use Rattle.std.specs.Prelude.{◌≡◌, ◌+◌, ◌≤◌, ◌<◌, ◌^◌, ℕ, length};
ghost use Rattle.metric_sums.specs.Metrics.{fraction};
ghost use Rattle.campaign_plan.specs.Analysis.{batch_count, part_count};
ghost use Rattle.fmeda_report.specs.Tallies.{empty_tally, one_more_fault, planes_in_order, tally_at, with_fault, AreAmountsSmall, AreTallied, IsSmall};

use crate::planes::class_of_fault;
use campaign_plan::{Outcome, Plan};
use metric_sums::{Class, Fraction};

// How many faults, and their weights in units of 10^-6 FIT, added up.
#[derive(Clone, Copy)]
pub(crate) struct Amount {
    pub(crate) faults: u32,
    pub(crate) weight: u64,
}

impl Amount {
    // No fault.
    fn none() -> Amount
        ensures { result ≡ record { faults = 0; weight = 0 } }
    {
        Amount {
            faults: 0,
            weight: 0,
        }
    }

    // Counts one fault of this weight more.
    fn add(&mut self, weight: u64)
        requires small { IsSmall self.old }
        requires light { weight ≤ 10 ^ 18 }
        ensures { self.new ≡ one_more_fault weight self.old }
    {
        self.faults += 1;
        self.weight += weight;
    }
}

// What the faults of a part amount to, in all and by their class.
#[derive(Clone, Copy)]
pub(crate) struct Tally {
    pub(crate) all: Amount,
    pub(crate) safe: Amount,
    pub(crate) detected: Amount,
    pub(crate) residual: Amount,
    pub(crate) single_point: Amount,
    pub(crate) latent: Amount,
    pub(crate) outside: Amount,
}

impl Tally {
    // No fault.
    pub(crate) fn none() -> Tally
        ensures { result ≡ empty_tally }
    {
        Tally {
            all: Amount::none(),
            safe: Amount::none(),
            detected: Amount::none(),
            residual: Amount::none(),
            single_point: Amount::none(),
            latent: Amount::none(),
            outside: Amount::none(),
        }
    }

    // Counts one fault of this class and weight more.
    fn add(&mut self, class: Class, weight: u64)
        requires small { AreAmountsSmall self.old }
        requires light { weight ≤ 10 ^ 18 }
        ensures { self.new ≡ with_fault class weight self.old }
    {
        self.all.add(weight);
        match class {
            Class::Safe => self.safe.add(weight),
            Class::Detected => self.detected.add(weight),
            Class::Residual => self.residual.add(weight),
            Class::SinglePoint => self.single_point.add(weight),
            Class::Latent => self.latent.add(weight),
            Class::Outside => self.outside.add(weight),
        }
    }

    // Measured coverage: the detected weight over the detected, residual and single-point weight.
    pub(crate) fn coverage(&self) -> Option<Fraction>
        requires { AreAmountsSmall self.now }
        ensures { result ≡ fraction self.now.detected.weight
            (self.now.detected.weight + self.now.residual.weight + self.now.single_point.weight) }
    {
        let den = self.detected.weight + self.residual.weight + self.single_point.weight;
        if den == 0 {
            return None;
        }
        Some(Fraction {
            num: self.detected.weight,
            den,
        })
    }
}

// Counts no fault in each part.
fn clear(tallies: &mut [Tally])
    ensures { (k : ℕ) → k < length tallies.new → tally_at tallies.new k ≡ empty_tally }
{
    for tally in tallies.iter_mut() {
        *tally = Tally::none();
    }
}

// Tallies the faults of each part, in one pass over all faults.
pub(crate) fn tally_faults(plan: &Plan, planes: &[Outcome], tallies: &mut [Tally])
    requires planes { length planes.now ≡ batch_count plan.now }
    requires parts { length tallies.old ≡ part_count plan.now }
    ensures tallied { AreTallied plan.now (planes_in_order planes.now) tallies.new }
    ensures small { (k : ℕ) → k < part_count plan.now → AreAmountsSmall (tally_at tallies.new k) }
{
    clear(tallies);
    for i in 0..plan.faults().len() {
        let class = class_of_fault(plan, planes, i);
        tallies[plan.part_of_fault(i) as usize].add(class, plan.weight(i));
    }
}
