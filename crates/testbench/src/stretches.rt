// The values that nets have in the stretches of all runs of the golden run.
ghost use Rattle.std.specs.Prelude.{◌≡◌, ◌<◌, ◌≤◌, ◌/◌, ℕ, [], IfOk, List, length, not, true};
ghost use Rattle.circuit.specs.Circuit.{Circuit};
ghost use Rattle.circuit.specs.Sound.{IsNet};
ghost use Rattle.circuit.specs.Trace.{trace};
ghost use Rattle.workload.specs.declared.run.Run.{Run};
ghost use Rattle.workload.specs.Runs.{cycles_of, run_at};
ghost use Rattle.testbench.specs.Seen.{AreStretches, AreStretchesOf, HasSeen, is_seen, stretch_at};

use crate::seen::SeenValues;
use circuit::netlist::Netlist;
use circuit::parts::NetId;
use fm_base::Seq;
use golden_run::Golden;
use room::{NoRoom, push};
use std::alloc::Global;
use workload::run::Workload;

/// The most cycles of a stretch, of which each run has as many as it takes.
pub const STRETCH: u32 = 256;

// Looks at the cycles of a run from one to before another.
fn see_cycles(
    alloc: Global,
    golden: &Golden,
    net: &Netlist,
    run: u32,
    from: u32,
    to: u32,
) -> Result<SeenValues, NoRoom>
    requires run { run < length golden.now.runs }
    requires to { to ≤ cycles_of (run_at golden.now.runs run) }
    requires circuit { golden.now.circuit ≡ net.now }
    ensures { IfOk result (HasSeen net.now (run_at golden.now.runs run) from to) }
{
    let mut seen = SeenValues::new(alloc, net.nets())?;
    for t in from..to {
        seen.see(golden.row(run, t));
    }
    Ok(seen)
}

// The stretches of a run of so many cycles.
fn stretches_of(
    alloc: Global,
    golden: &Golden,
    net: &Netlist,
    run: u32,
    cycles: u32,
) -> Result<Vec<SeenValues>, NoRoom>
    requires run { run < length golden.now.runs }
    requires cycles { cycles ≡ cycles_of (run_at golden.now.runs run) }
    requires few { cycles ≤ 65536 }
    requires circuit { golden.now.circuit ≡ net.now }
    ensures each { IfOk result (λ stretches. (t : ℕ) → t < cycles → t / 256 < length stretches.items) }
    ensures seen { IfOk result (λ stretches. AreStretchesOf net.now (run_at golden.now.runs run) (length stretches.items) stretches.items) }
{
    let mut stretches = Vec::new(alloc);
    for s in 0..cycles.div_ceil(STRETCH) {
        let from = s * STRETCH;
        let seen = see_cycles(alloc, golden, net, run, from, cycles.min(from + STRETCH))?;
        push(&mut stretches, seen)?;
    }
    Ok(stretches)
}

// Whether a net has the other value in a stretch, if there is one of this number.
fn has_other(stretches: &[SeenValues], s: u32, net: NetId, value: bool) -> bool
    ensures { result ≡ is_seen (stretch_at stretches.now s) net.0 (not value) }
{
    match stretches.get(s as usize) {
        Some(seen) => seen.has(net, !value),
        None => false,
    }
}

/// Of each stretch of the golden run, of 256 cycles or to the end of its run, which values each net has in it.
#[derive(Drop)]
pub(crate) struct Stretches {
    runs: Vec<Seq<SeenValues>>,
}

impl Stretches {
    /// Looks at all cycles of the golden run once. It takes two bits for each net and stretch.
    pub fn new(
        alloc: Global,
        golden: &Golden,
        net: &Netlist,
        work: &Workload,
    ) -> Result<Self, NoRoom>
        requires circuit { golden.now.circuit ≡ net.now }
        requires runs { golden.now.runs ≡ work.now }
        ensures { IfOk result (λ made. AreStretches net.now work.now (length work.now) made.runs.items) }
    {
        let mut runs = Vec::new(alloc);
        for run in 0..work.runs() {
            let stretches = stretches_of(alloc, golden, net, run, work.cycles(run))?;
            push(&mut runs, Seq::from_vec(stretches))?;
        }
        Ok(Stretches { runs })
    }

    /// Whether a net has this value alone in all stretches that cycles of a run, from one to before another, are in.
    pub fn have_alone(&self, run: u32, from: u32, to: u32, net: NetId, value: bool) -> bool
        requires { run < length self.now.runs.items }
        ensures { (c : Circuit) (runs : List Run) → AreStretches c runs (length runs) self.now.runs.items → to ≤ cycles_of (run_at runs run) → IsNet c net
            → result ≡ true → (t : ℕ) → from ≤ t → t < to → trace c [] (run_at runs run).vectors t net.0 ≡ value }
    {
        let stretches = self.runs[run as usize].as_slice();
        for s in from / STRETCH..to.div_ceil(STRETCH) {
            if has_other(stretches, s, net, value) {
                return false;
            }
        }
        true
    }
}
