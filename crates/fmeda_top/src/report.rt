// The text of `report`.
ghost use Rattle.circuit.specs.Order.{IsOrder};
ghost use Rattle.commands.specs.declared.command.Task.TheVariants as task;
ghost use Rattle.command_reads.specs.FirstRefusal.{Planned as StandsPlanned};
ghost use Rattle.fmeda_top.specs.Doing.{TellsAs};

use command_reads::planned::Planned;
use fault_collapse::collapsed_planes;
use fm_shelf::shelf::Sink;
use fmeda_report::{Tallies, write_report};
use refusals::refused::Refused;
use refusals::status::{Status, after_text};
use std::alloc::Global;

/// Simulates one of each group of equal faults, and writes the report.
pub(crate) fn tell_report<O: Sink>(
    alloc: Global,
    planned: &Planned,
    out: &mut O,
) -> Result<Status, Refused>
    requires { IsOrder planned.now.plan.circuit planned.now.order }
    ensures { TellsAs task.Report (StandsPlanned planned.now.plan) (O.seen out.old) (O.seen out.new) result }
{
    let plan = &planned.plan;
    let planes = collapsed_planes(alloc, plan, &planned.order)?;
    let mut tallies = Tallies::new(alloc, plan)?;
    Ok(after_text(write_report(plan, planes.as_slice(), &mut tallies, out)))
}
