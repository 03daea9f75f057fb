// The texts of `breakdown`, `latencies` and `coverage`.
ghost use Rattle.std.specs.Prelude.{◌<◌, ◌≤◌};
ghost use Rattle.circuit.specs.Order.{IsOrder};
ghost use Rattle.commands.specs.declared.command.Task.TheVariants as task;
ghost use Rattle.command_reads.specs.FirstRefusal.{Planned as StandsPlanned};
ghost use Rattle.fmeda_top.specs.Doing.{AfterAs, TellsAs};

use command_reads::planned::Planned;
use fm_base::Refusal;
use fm_shelf::shelf::{Failed, Sink};
use latency_table::write_latencies;
use metric_breakdown::write_breakdown;
use metric_coverage::write_coverage;
use refusals::refused::Refused;
use refusals::status::Status;
use std::alloc::Global;
use std::thread::Threads;

// How a command ends after a text that takes memory.
fn after_readings(written: Result<(), Refusal<Failed>>) -> Result<Status, Refused>
    ensures { AfterAs written result }
{
    match written {
        Ok(()) => Ok(Status::Done),
        Err(Refusal::Fault(Failed)) => Ok(Status::OutFault),
        Err(Refusal::Memory(no_room)) => Err(Refused::By(Status::Memory(no_room))),
    }
}

/// Simulates each fault once, and writes the metrics by each reading of the plan.
pub(crate) fn tell_breakdown<R: Threads + Sync, O: Sink>(
    rt: &R,
    alloc: Global,
    planned: &Planned,
    intervals: &[u32],
    workers: u32,
    out: &mut O,
) -> Result<Status, Refused>
    requires order { IsOrder planned.now.plan.circuit planned.now.order }
    requires workers { (0 < workers) × (workers ≤ 32) }
    ensures { TellsAs (task.Breakdown intervals.now workers) (StandsPlanned planned.now.plan) (O.seen out.old) (O.seen out.new) result }
{
    let (plan, order) = (&planned.plan, &planned.order);
    after_readings(write_breakdown(rt, alloc, plan, order, intervals, workers, out))
}

/// Simulates each fault once, and writes when it is first seen and which interval would do.
pub(crate) fn tell_latencies<R: Threads + Sync, O: Sink>(
    rt: &R,
    alloc: Global,
    planned: &Planned,
    workers: u32,
    out: &mut O,
) -> Result<Status, Refused>
    requires order { IsOrder planned.now.plan.circuit planned.now.order }
    requires workers { (0 < workers) × (workers ≤ 32) }
    ensures { TellsAs (task.Latencies workers) (StandsPlanned planned.now.plan) (O.seen out.old) (O.seen out.new) result }
{
    let (plan, order) = (&planned.plan, &planned.order);
    after_readings(write_latencies(rt, alloc, plan, order, workers, out))
}

/// Simulates each fault once, and writes what the metrics rest on.
pub(crate) fn tell_coverage<R: Threads + Sync, O: Sink>(
    rt: &R,
    alloc: Global,
    planned: &Planned,
    workers: u32,
    out: &mut O,
) -> Result<Status, Refused>
    requires order { IsOrder planned.now.plan.circuit planned.now.order }
    requires workers { (0 < workers) × (workers ≤ 32) }
    ensures { TellsAs (task.Coverage workers) (StandsPlanned planned.now.plan) (O.seen out.old) (O.seen out.new) result }
{
    let (plan, order) = (&planned.plan, &planned.order);
    after_readings(write_coverage(rt, alloc, plan, order, workers, out))
}
