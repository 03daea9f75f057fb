// The values of a dump, cycle by cycle.
ghost use Rattle.std.specs.Prelude.{◌≡◌, ◌<◌, ◌+◌, ℕ, IfOk, length, flat_map};
ghost use Rattle.circuit.specs.Order.{IsOrder};
ghost use Rattle.fm_base.specs.Lists.{below};
ghost use Rattle.fm_base.specs.Planes.{bit};
ghost use Rattle.fm_shelf.specs.Sink.{Sends};
ghost use Rattle.lane_words.specs.Bank.{IsBankFor, KeepsBankLoads};
ghost use Rattle.workload.specs.Runs.{cycles_of};
ghost use Rattle.wave_dump.specs.Dump.{cycle_values, scope_count, scope_values, value_at};
ghost use Rattle.wave_dump.specs.Steps.{value_text, HasLanes, IsIn, HasRunTo, Holds};

use crate::scene::Scene;
use crate::words::{write_moment, write_value};
use circuit::parts::NetId;
use fm_base::Steps;
use fm_shelf::shelf::{Failed, Sink};
use lane_kernel::Lanes;
use lane_words::Word;
use netlist_levels::Order;
use room::NoRoom;
use std::alloc::Global;
use std::sync::ledger::Ledger;

// The value of the net at a place of those that are shown, in both scopes: bit 0 without faults and bit 1 with the fault.
fn word_at(scene: &Scene<'_>, lanes: &Lanes, place: u32) -> u64
    requires place { place < length scene.now.nets }
    ensures { (t scope : ℕ) → IsIn scene.now t lanes.now → scope < 2 → bit result scope ≡ value_at scene.now scope place t }
{
    lanes.net(NetId(scene.nets()[place as usize]))
}

// Writes the value of a net in a scope, in cycle 0 and where it isn't that of the cycle before.
fn write_change<O: Sink>(
    scene: &Scene<'_>,
    lanes: &Lanes,
    held: &[u64],
    t: u32,
    scope: u32,
    place: u32,
    out: &mut O,
) -> Result<(), Failed>
    requires now { IsIn scene.now t lanes.now }
    requires held { Holds scene.now t held.now }
    requires scope { scope < 2 }
    requires place { place < length scene.now.nets }
    ensures { Sends (O.seen out.old) (O.seen out.new) (value_text scene.now t scope place) result }
{
    let bit = word_at(scene, lanes, place).get(scope);
    if t == 0 || bit != held[place as usize].get(scope) {
        write_value(scope * scene.nets().len() as u32 + place, bit, out)
    } else {
        Ok(())
    }
}

// Writes the values of a scope that a cycle prints.
fn write_scope<O: Sink>(
    scene: &Scene<'_>,
    lanes: &Lanes,
    held: &[u64],
    t: u32,
    scope: u32,
    out: &mut O,
) -> Result<(), Failed>
    requires now { IsIn scene.now t lanes.now }
    requires held { Holds scene.now t held.now }
    requires scope { scope < 2 }
    ensures { Sends (O.seen out.old) (O.seen out.new) (scope_values scene.now t scope) result }
{
    for place in 0..scene.nets().len() as u32 {
        write_change(scene, lanes, held, t, scope, place, out)?;
    }
    Ok(())
}

// Writes the values of all scopes that a cycle prints.
fn write_scopes<O: Sink>(
    scene: &Scene<'_>,
    lanes: &Lanes,
    held: &[u64],
    t: u32,
    out: &mut O,
) -> Result<(), Failed>
    requires now { IsIn scene.now t lanes.now }
    requires held { Holds scene.now t held.now }
    ensures { Sends (O.seen out.old) (O.seen out.new) (flat_map (scope_values scene.now t) (below (scope_count scene.now))) result }
{
    for scope in 0..scene.scopes() {
        write_scope(scene, lanes, held, t, scope, out)?;
    }
    Ok(())
}

// Writes a cycle.
fn write_cycle<O: Sink>(
    scene: &Scene<'_>,
    lanes: &Lanes,
    held: &[u64],
    t: u32,
    out: &mut O,
) -> Result<(), Failed>
    requires now { IsIn scene.now t lanes.now }
    requires held { Holds scene.now t held.now }
    ensures { Sends (O.seen out.old) (O.seen out.new) (cycle_values scene.now t) result }
{
    write_moment(t, out)?;
    write_scopes(scene, lanes, held, t, out)
}

// Holds the values of the last cycle, for the next one.
fn hold(scene: &Scene<'_>, lanes: &Lanes, held: &mut [u64])
    requires { length held.old ≡ length scene.now.nets }
    ensures { (t : ℕ) → IsIn scene.now t lanes.now → Holds scene.now (t + 1) held.new }
{
    for place in 0..scene.nets().len() as u32 {
        held[place as usize] = word_at(scene, lanes, place);
    }
}

/// Lanes that are loaded with the fault: lane 0 without it, lane 1 with it.
pub(crate) fn loaded_lanes(alloc: Global, scene: &Scene<'_>, order: &Order) -> Result<Lanes, NoRoom>
    requires { IsOrder scene.now.circuit order.now }
    ensures { IfOk result (λ lanes. HasLanes scene.now order.now lanes) }
{
    let mut lanes = Lanes::new(alloc, scene.netlist(), order)?;
    let mut faults = [[None, None]; 64];
    faults[1] = [scene.fault(), None];
    lanes.load(&faults);
    Ok(lanes)
}

/// Simulates the next cycle.
pub(crate) fn run_next<L: Ledger>(
    scene: &Scene<'_>,
    order: &Order,
    t: u32,
    lanes: &mut Lanes,
    steps: &mut Steps<L>,
)
    requires made { IsBankFor scene.now.circuit order.now lanes.old }
    requires cycle { t < cycles_of scene.now.run }
    requires behind { HasRunTo scene.now t lanes.old }
    ensures keeps { KeepsBankLoads lanes.old lanes.new }
    ensures now { IsIn scene.now t lanes.new }
    ensures behind { HasRunTo scene.now (t + 1) lanes.new }
{
    lanes.cycle(scene.netlist(), order, scene.vector(t), steps);
}

/// Writes each cycle of the run. It takes no memory.
pub(crate) fn write_cycles<O: Sink, L: Ledger>(
    scene: &Scene<'_>,
    order: &Order,
    lanes: &mut Lanes,
    held: &mut [u64],
    steps: &mut Steps<L>,
    out: &mut O,
) -> Result<(), Failed>
    requires lanes { HasLanes scene.now order.now lanes.old }
    requires held { length held.old ≡ length scene.now.nets }
    ensures lanes { HasLanes scene.now order.now lanes.new }
    ensures sends { Sends (O.seen out.old) (O.seen out.new) (flat_map (cycle_values scene.now) (below (cycles_of scene.now.run))) result }
{
    lanes.start();
    for t in 0..scene.cycles() {
        run_next(scene, order, t, lanes, steps);
        write_cycle(scene, lanes, held, t, out)?;
        hold(scene, lanes, held);
    }
    Ok(())
}
