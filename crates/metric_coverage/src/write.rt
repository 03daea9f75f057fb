// What the metrics of a plan rest on, as a text.
ghost use Rattle.std.specs.Prelude.{◌≡◌, ◌<◌, ◌≤◌, Err, OnOk};
ghost use Rattle.circuit.specs.Order.{IsOrder};
ghost use Rattle.fm_base.specs.declared.refusal.Refusal.TheVariants.{Fault as FaultOf, Memory};
ghost use Rattle.fm_shelf.specs.Sink.{Wrote, WrotePrefix};
ghost use Rattle.fm_shelf.specs.declared.shelf.Failed.{Failed as FailedValue};
ghost use Rattle.coverage.specs.Coverage.{coverage};
ghost use Rattle.room.specs.declared.edge.NoRoom.{NoRoom};

use crate::found::find;
use crate::text::write_text;
use campaign_plan::Plan;
use fm_base::Refusal;
use fm_shelf::shelf::{Failed, Sink};
use netlist_levels::Order;
use std::alloc::Global;
use std::thread::Threads;

/// Simulates each fault once, in a thread for each of 1 to 32 workers, and writes what the metrics of a plan rest on, by each reading of
/// it: the plan itself, and each safety goal alone where there are several; and by name the faults that nothing speaks for. All memory
/// is taken before the first byte goes out, in proportion to the faults and the readings, so `Memory` means that nothing did; where
/// `out` has failed a prefix did.
pub fn write_coverage<R: Threads + Sync, O: Sink>(
    rt: &R,
    alloc: Global,
    plan: &Plan,
    order: &Order,
    workers: u32,
    out: &mut O,
) -> Result<(), Refusal<Failed>>
    requires order { IsOrder plan.now.circuit order.now }
    requires workers { (0 < workers) × (workers ≤ 32) }
    ensures wrote { OnOk result (Wrote (O.seen out.old) (O.seen out.new) (coverage plan.now)) }
    ensures grows { (O.seen out.old).faults ≤ (O.seen out.new).faults }
    ensures memory { (no_room : NoRoom) → result ≡ Err (Memory no_room) → O.seen out.new ≡ O.seen out.old }
    ensures failed { (failed : FailedValue) → result ≡ Err (FaultOf failed) → WrotePrefix (O.seen out.old) (O.seen out.new) (coverage plan.now) }
{
    let found = find(rt, alloc, plan, order, workers)?;
    match write_text(plan, &found, out) {
        Ok(()) => Ok(()),
        Err(failed) => Err(Refusal::Fault(failed)),
    }
}
