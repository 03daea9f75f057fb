// The nets that a fault changes at some cycle of a run.
ghost use Rattle.std.specs.Prelude.{◌≡◌, ◌<◌, ◌≤◌, ◌+◌, [], ℕ, IfOk, length, not};
ghost use Rattle.circuit.specs.Order.{IsOrder};
ghost use Rattle.circuit.specs.Trace.{trace};
ghost use Rattle.fm_base.specs.Lists.{same_bit};
ghost use Rattle.workload.specs.Runs.{cycles_of};
ghost use Rattle.wave_dump.specs.Dump.{alone};
ghost use Rattle.wave_dump.specs.Steps.{AreMarks, HasLanes, IsIn};

use crate::scene::Scene;
use crate::values::{loaded_lanes, run_next};
use circuit::parts::NetId;
use fm_base::Steps;
use lane_kernel::Lanes;
use lane_words::Word;
use netlist_levels::Order;
use room::{NoRoom, filled};
use std::alloc::Global;
use std::marker::Brand;
use std::sync::ledger::{Blank, Ledger};

// Whether the fault changes a net in the last cycle.
fn is_changed(scene: &Scene<'_>, lanes: &Lanes, net: u32) -> bool
    requires { net < length scene.now.circuit.drivers }
    ensures { (t : ℕ) → IsIn scene.now t lanes.now
        → result ≡ not (same_bit (trace scene.now.circuit (alone scene.now.fault) scene.now.run.vectors t net) (trace scene.now.circuit [] scene.now.run.vectors t net)) }
{
    let word = lanes.net(NetId(net));
    word.get(1) != word.get(0)
}

// Marks the nets that the fault changes in the last cycle.
fn mark(scene: &Scene<'_>, lanes: &Lanes, marks: &mut [bool])
    requires { length marks.old ≡ length scene.now.circuit.drivers }
    ensures { (t : ℕ) → IsIn scene.now t lanes.now → AreMarks scene.now t marks.old → AreMarks scene.now (t + 1) marks.new }
{
    for net in 0..scene.netlist().nets() as u32 {
        let place = net as usize;
        marks[place] = marks[place] || is_changed(scene, lanes, net);
    }
}

// Simulates the run, and marks the nets that the fault changes.
fn marks_by<L: Ledger>(
    alloc: Global,
    scene: &Scene<'_>,
    order: &Order,
    lanes: &mut Lanes,
    steps: &mut Steps<L>,
) -> Result<Vec<bool>, NoRoom>
    requires { HasLanes scene.now order.now lanes.old }
    ensures { IfOk result (λ marks. AreMarks scene.now (cycles_of scene.now.run) marks.items) }
{
    let mut marks = filled(alloc, false, scene.netlist().nets())?;
    lanes.start();
    for t in 0..scene.cycles() {
        run_next(scene, order, t, lanes, steps);
        mark(scene, lanes, &mut marks);
    }
    Ok(marks)
}

// The same with lanes of its own, and a counter of steps that nobody reads.
fn counted_marks<L: Ledger>(
    alloc: Global,
    scene: &Scene<'_>,
    order: &Order,
    blank: Blank,
) -> Result<Vec<bool>, NoRoom>
    requires order { IsOrder scene.now.circuit order.now }
    requires blank { (blank.name ≡ L.name) × (blank.parts ≡ L.parts) × (0 < blank.parts) }
    ensures { IfOk result (λ marks. AreMarks scene.now (cycles_of scene.now.run) marks.items) }
{
    let mut steps: Steps<L> = Steps::fresh(blank);
    let mut lanes = loaded_lanes(alloc, scene, order)?;
    marks_by(alloc, scene, order, &mut lanes, &mut steps)
}

/// For each net whether the fault changes it at some cycle of the run. The run is simulated once.
pub(crate) fn changed_nets(
    alloc: Global,
    scene: &Scene<'_>,
    order: &Order,
) -> Result<Vec<bool>, NoRoom>
    requires { IsOrder scene.now.circuit order.now }
    ensures { IfOk result (λ marks. AreMarks scene.now (cycles_of scene.now.run) marks.items) }
{
    counted_marks::<Brand>(alloc, scene, order, Blank::new(1))
}
