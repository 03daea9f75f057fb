// What the golden run tells of whether faults are excited.
ghost use Rattle.std.specs.Prelude.{◌≡◌, ◌<◌, ◌||◌, [], ℕ, IfOk, List, false, length, nat_lt, not};
ghost use Rattle.std.specs.List.{list_any};
ghost use Rattle.circuit.specs.declared.parts.NetId.{NetId as NetValue};
ghost use Rattle.circuit.specs.Circuit.{Circuit};
ghost use Rattle.campaign_plan.specs.Danger.{with_faults};
ghost use Rattle.workload.specs.declared.run.Run.{Run};
ghost use Rattle.fm_base.specs.Lists.{same_bit, some_below};
ghost use Rattle.circuit.specs.Order.{IsOrder};
ghost use Rattle.circuit.specs.Sound.{IsNet, IsNetlist};
ghost use Rattle.campaign_plan.specs.Analysis.{Analysis, fault_count, fault_numbered};
ghost use Rattle.place_set.specs.Places.{value_in};
ghost use Rattle.workload.specs.Runs.{cycles_of, run_at};
ghost use Rattle.readings.specs.Latencies.{is_excited};
ghost use Rattle.testbench.specs.Seen.{HasRoom};
ghost use Rattle.golden_values.specs.Golden.{AreSeenIn, HasSeenGolden, IsFaultIn, golden_of};

use campaign_plan::Plan;
use circuit::parts::{Fault, NetId};
use readings::{stuck_at_is_excited, transients_are_excited};
use room::NoRoom;
use std::alloc::Global;
use testbench::{SeenValues, Testbench};

/// Of each net whether it is 1, and whether it is 0, in some cycle of the golden run; and the number of cycles of the longest run.
#[derive(Drop)]
pub struct GoldenValues {
    seen: SeenValues,
    longest: u32,
}

// Adds the values of the cycles of a run.
fn add_cycles(bench: &Testbench<'_>, run: u32, seen: &mut SeenValues)
    requires run { run < length bench.now.runs }
    requires room { HasRoom (length bench.now.circuit.drivers) seen.old }
    ensures room { HasRoom (length bench.now.circuit.drivers) seen.new }
    ensures ones { (net : ℕ) → net < length bench.now.circuit.drivers
        → value_in seen.new.ones net ≡ (value_in seen.old.ones net || some_below (cycles_of (run_at bench.now.runs run)) (golden_of bench.now.circuit net (run_at bench.now.runs run))) }
    ensures zeros { (net : ℕ) → net < length bench.now.circuit.drivers
        → value_in seen.new.zeros net ≡ (value_in seen.old.zeros net || some_below (cycles_of (run_at bench.now.runs run)) (λ t. not (golden_of bench.now.circuit net (run_at bench.now.runs run) t))) }
{
    for t in 0..bench.cycles(run) {
        seen.see(bench.row(run, t));
    }
}

// Adds the values of all runs, where none have been added.
fn add_runs(bench: &Testbench<'_>, seen: &mut SeenValues)
    requires room { HasRoom (length bench.now.circuit.drivers) seen.old }
    requires nothing { (net : ℕ) → (value_in seen.old.ones net ≡ false) × (value_in seen.old.zeros net ≡ false) }
    ensures { AreSeenIn bench.now.circuit bench.now.runs seen.new }
{
    for run in 0..bench.runs() {
        add_cycles(bench, run, seen);
    }
}

// The number of cycles of the longest run.
fn longest_run(bench: &Testbench<'_>) -> u32
    ensures { (t : ℕ) → nat_lt t result ≡ list_any (λ run. nat_lt t (cycles_of run)) bench.now.runs }
{
    let mut longest = 0;
    for run in 0..bench.runs() {
        longest = bench.cycles(run).max(longest);
    }
    longest
}

impl GoldenValues {
    /// Looks through all cycles of the golden run once, a word of 64 nets at a time.
    pub fn new(alloc: Global, bench: &Testbench<'_>) -> Result<GoldenValues, NoRoom>
        ensures { IfOk result (HasSeenGolden bench.now.circuit bench.now.runs) }
    {
        let mut seen = SeenValues::new(alloc, bench.net().nets())?;
        add_runs(bench, &mut seen);
        Ok(GoldenValues {
            seen,
            longest: longest_run(bench),
        })
    }

    // Whether a net has another value than this one in some cycle.
    fn has_other(&self, net: NetId, value: bool) -> bool
        ensures { (c : Circuit) (runs : List Run) → HasSeenGolden c runs self.now → IsNet c net
            → result ≡ list_any (λ run. some_below (cycles_of run) (λ t. not (same_bit value (with_faults c [] run t net)))) runs }
    {
        self.seen.has(net, !value)
    }

    // Whether a fault of the circuit is excited: a stuck-at fault where its net has the other value in the golden run, a flip or a
    // pulse where some run has its cycle.
    fn excites(&self, fault: Fault) -> bool
        ensures { (p : Analysis) (order : List NetValue) → HasSeenGolden p.circuit p.runs self.now → IsNetlist p.circuit → IsOrder p.circuit order → IsFaultIn p.circuit fault
            → result ≡ is_excited p fault }
    {
        stuck_at_is_excited();
        transients_are_excited();
        match fault {
            Fault::Stuck(net, value) => self.has_other(net, value),
            Fault::Flip(_, t) => t < self.longest,
            Fault::Pulse(_, t) => t < self.longest,
        }
    }

    /// The same of fault `i` of a plan, of whose golden run these are the values.
    pub fn excites_fault(&self, plan: &Plan, i: u32) -> bool
        requires order { (nets : List NetValue) × IsOrder plan.now.circuit nets }
        requires golden { HasSeenGolden plan.now.circuit plan.now.runs self.now }
        requires fault { i < fault_count plan.now }
        ensures { result ≡ is_excited plan.now (fault_numbered plan.now i) }
    {
        self.excites(plan.faults().fault(i))
    }
}
