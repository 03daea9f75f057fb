// The text of `breakdown`.
ghost use Rattle.std.specs.Prelude.{◌≡◌, ◌<◌, ◌≤◌, Err, OnOk};
ghost use Rattle.circuit.specs.Order.{IsOrder};
ghost use Rattle.fm_base.specs.declared.refusal.Refusal.TheVariants.{Fault as FaultOf, Memory};
ghost use Rattle.fm_shelf.specs.Sink.{Wrote, WrotePrefix};
ghost use Rattle.fm_shelf.specs.declared.shelf.Failed.{Failed as FailedValue};
ghost use Rattle.readings.specs.Breakdown.{breakdown};
ghost use Rattle.room.specs.declared.edge.NoRoom.{NoRoom};

use crate::fan_out::reading_sums;
use crate::text::write_text;
use campaign_plan::Plan;
use fm_base::Refusal;
use fm_shelf::shelf::{Failed, Sink};
use netlist_levels::Order;
use reading_planes::{list_gives_readings, reading_list};
use std::alloc::Global;
use std::thread::Threads;

/// Simulates each fault once, in a thread for each of 1 to 32 workers, and writes the metrics of a plan by each reading of it: the
/// plan itself, each safety goal alone, each alarm point left out, each alone, and each of these intervals, in cycles, in place of
/// that of the settings. All memory is taken before the first byte goes out, in proportion to the readings and the workers, so
/// `Memory` means that nothing did; where `out` has failed a prefix did.
pub fn write_breakdown<R: Threads + Sync, O: Sink>(
    rt: &R,
    alloc: Global,
    plan: &Plan,
    order: &Order,
    intervals: &[u32],
    workers: u32,
    out: &mut O,
) -> Result<(), Refusal<Failed>>
    requires order { IsOrder plan.now.circuit order.now }
    requires workers { (0 < workers) × (workers ≤ 32) }
    ensures wrote { OnOk result (Wrote (O.seen out.old) (O.seen out.new) (breakdown plan.now intervals.now)) }
    ensures grows { (O.seen out.old).faults ≤ (O.seen out.new).faults }
    ensures memory { (no_room : NoRoom) → result ≡ Err (Memory no_room) → O.seen out.new ≡ O.seen out.old }
    ensures failed { (failed : FailedValue) → result ≡ Err (FaultOf failed) → WrotePrefix (O.seen out.old) (O.seen out.new) (breakdown plan.now intervals.now) }
{
    list_gives_readings();
    let readings = reading_list(alloc, plan.points(), intervals)?;
    let sums = reading_sums(rt, alloc, plan, order, &readings, workers)?;
    match write_text(plan, &readings, &sums, out) {
        Ok(()) => Ok(()),
        Err(failed) => Err(Refusal::Fault(failed)),
    }
}
