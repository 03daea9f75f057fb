// What the flips of each cycle weigh.
ghost use Rattle.std.specs.Prelude.{◌≡◌, ◌+◌, ◌-◌, ◌<◌, ◌≤◌, ◌^◌, ◌&&◌, ◌==◌, ℕ, All, IfOk, if◌then◌else◌, length};
ghost use Rattle.std.specs.List.Sorted.{IsStrictlyIncreasing};
ghost use Rattle.metric_sums.specs.Metrics.{fraction};
ghost use Rattle.campaign_plan.specs.Analysis.{fault_count, fault_numbered};
ghost use Rattle.campaign_plan.specs.Kept.{IsPlan};
ghost use Rattle.coverage.specs.declared.Evidence.TheVariants.{Harm as HarmOf};
ghost use Rattle.coverage.specs.Evidence.{is_kind};
ghost use Rattle.coverage.specs.Upsets.{counts, is_flip_in};
ghost use Rattle.metric_coverage.specs.Cycles.{AreCyclesWeighed, IsCycleLight, cycle_at, cycle_below, is_in, no_flip, with_flip};
ghost use Rattle.metric_coverage.specs.Freed.{evidence_at};

use campaign_plan::Plan;
use circuit::parts::Fault;
use coverage::Evidence;
use metric_sums::{Fraction, Role};
use room::{NoRoom, filled};
use std::alloc::Global;

/// What the flips of a cycle weigh, in units of 10^-6 FIT: those that do harm, and all.
#[derive(Clone, Copy)]
pub(crate) struct CycleWeights {
    pub(crate) harm: u64,
    pub(crate) rate: u64,
}

impl CycleWeights {
    // No flip.
    fn none() -> CycleWeights
        ensures { result ≡ no_flip }
    {
        CycleWeights { harm: 0, rate: 0 }
    }

    // Adds a flip.
    fn add(&mut self, harms: bool, weight: u64)
        requires light { IsCycleLight self.old }
        requires weight { weight ≤ 10 ^ 18 }
        ensures { self.new ≡ with_flip harms weight self.old }
    {
        self.rate += weight;
        if harms {
            self.harm += weight;
        }
    }

    /// The single-point fault metric of transient faults, were these flips all of them.
    pub(crate) fn spfm(&self) -> Option<Fraction>
        requires { IsCycleLight self.now }
        ensures { result ≡ fraction (self.now.rate - self.now.harm) self.now.rate }
    {
        if self.rate == 0 {
            return None;
        }
        Some(Fraction {
            num: self.rate - self.harm,
            den: self.rate,
        })
    }
}

/// Whether the part of fault `i` counts: faults of parts of role `other` are in no metric.
pub(crate) fn is_counted(plan: &Plan, i: u32) -> bool
    requires { i < fault_count plan.now }
    ensures { result ≡ counts plan.now (fault_numbered plan.now i) }
{
    plan.part(plan.part_of_fault(i)).role != Role::Other
}

// The cycle in which fault `i` flips a latch, where it does so and its part counts.
fn cycle_of_flip(plan: &Plan, i: u32) -> Option<u32>
    requires { i < fault_count plan.now }
    ensures cycle { (cycle : ℕ) → is_in result cycle ≡ (is_flip_in cycle (fault_numbered plan.now i) && counts plan.now (fault_numbered plan.now i)) }
    ensures plan { IsPlan plan.now }
{
    match plan.faults().fault(i) {
        Fault::Flip(_, cycle) => {
            if is_counted(plan, i) {
                Some(cycle)
            } else {
                None
            }
        }
        _ => None,
    }
}

// Whether a fault of this evidence does harm.
fn does_harm(evidence: Evidence) -> bool
    ensures { result ≡ is_kind evidence HarmOf }
{
    evidence == Evidence::Harm
}

// Adds a flip to its cycle, if the table has it.
fn add_flip(cycles: &mut [CycleWeights], cycle: u32, harms: bool, weight: u64)
    requires light { (k : ℕ) → k < length cycles.old → IsCycleLight (cycle_at cycles.old k) }
    requires weight { weight ≤ 10 ^ 18 }
    ensures { (k : ℕ) → k < length cycles.new
        → cycle_at cycles.new k ≡ (if cycle == k then with_flip harms weight (cycle_at cycles.old k) else cycle_at cycles.old k) }
{
    let place = cycle as usize;
    if place < cycles.len() {
        cycles[place].add(harms, weight);
    }
}

// Adds fault `i` to those before it, if it is a flip whose part counts.
fn weigh_fault(plan: &Plan, evidence: &[Evidence], i: u32, cycles: &mut [CycleWeights])
    requires fault { i < fault_count plan.now }
    requires evidence { length evidence.now ≡ fault_count plan.now }
    requires before { (k : ℕ) → k < length cycles.old → cycle_at cycles.old k ≡ cycle_below plan.now (evidence_at evidence.now) k i }
    ensures { (k : ℕ) → k < length cycles.new → cycle_at cycles.new k ≡ cycle_below plan.now (evidence_at evidence.now) k (i + 1) }
{
    let harms = does_harm(evidence[i as usize]);
    match cycle_of_flip(plan, i) {
        Some(cycle) => add_flip(cycles, cycle, harms, plan.weight(i)),
        None => {}
    }
}

// Adds each flip to its cycle, where none has been added.
fn weigh_flips(plan: &Plan, evidence: &[Evidence], cycles: &mut [CycleWeights])
    requires evidence { length evidence.now ≡ fault_count plan.now }
    requires none { (k : ℕ) → k < length cycles.old → cycle_at cycles.old k ≡ no_flip }
    ensures each { (k : ℕ) → k < length cycles.new → cycle_at cycles.new k ≡ cycle_below plan.now (evidence_at evidence.now) k (fault_count plan.now) }
    ensures light { (k : ℕ) → k < length cycles.new → IsCycleLight (cycle_at cycles.new k) }
{
    for i in 0..plan.faults().len() {
        weigh_fault(plan, evidence, i, cycles);
    }
}

// How many places a table by the number of the cycle has: one for each up to the last of these cycles, which rise.
fn places(cycles: &[u32]) -> usize
    requires { IsStrictlyIncreasing cycles.now }
    ensures { All (λ cycle. cycle < result) cycles.now }
{
    match cycles.last() {
        None => 0,
        Some(last) => *last as usize + 1,
    }
}

/// What the flips of each cycle weigh, by the evidence of each fault: a table by the number of the cycle, up to the last that is listed.
pub(crate) fn cycle_weights(
    alloc: Global,
    plan: &Plan,
    evidence: &[Evidence],
) -> Result<Vec<CycleWeights>, NoRoom>
    requires { length evidence.now ≡ fault_count plan.now }
    ensures { IfOk result (λ cycles. AreCyclesWeighed plan.now (evidence_at evidence.now) cycles.items) }
{
    let flips = plan.settings().flips.as_slice();
    let mut cycles = filled(alloc, CycleWeights::none(), places(flips))?;
    weigh_flips(plan, evidence, cycles.as_mut_slice());
    Ok(cycles)
}
