// The texts of `faults` and `progress`, of what is kept of a result file.
ghost use Rattle.campaign_plan.specs.Batches.{AreDistinct};
ghost use Rattle.result_file.specs.KeptRows.{kept_entries};
ghost use Rattle.commands.specs.declared.command.Task.TheVariants as task;
ghost use Rattle.command_reads.specs.FirstRefusal.{Begun as StandsBegun};
ghost use Rattle.fmeda_top.specs.Doing.{TellsAs};

use campaign_tables::write_fault_table;
use command_reads::begun::Begun;
use fm_shelf::shelf::Sink;
use metric_bounds::write_progress;
use refusals::refused::Refused;
use refusals::status::{Status, after_text};
use result_merge::PlanesTable;
use std::alloc::Global;

/// Writes the table of the faults of the kept batches. What follows the last whole row isn't looked at, also where another process
/// appends to the file.
pub(crate) fn tell_faults<O: Sink>(
    alloc: Global,
    begun: &Begun,
    out: &mut O,
) -> Result<Status, Refused>
    requires { AreDistinct begun.now.planned.plan (kept_entries begun.now.kept) }
    ensures { TellsAs task.Faults (StandsBegun begun.now.planned.plan begun.now.kept) (O.seen out.old) (O.seen out.new) result }
{
    let (plan, rows) = (&begun.planned.plan, begun.kept.rows.as_slice());
    let table = PlanesTable::new(alloc, plan, rows)?;
    Ok(after_text(write_fault_table(plan, &table, out)))
}

/// Writes the bounds between which each metric will end.
pub(crate) fn tell_progress<O: Sink>(
    alloc: Global,
    begun: &Begun,
    out: &mut O,
) -> Result<Status, Refused>
    requires { AreDistinct begun.now.planned.plan (kept_entries begun.now.kept) }
    ensures { TellsAs task.Progress (StandsBegun begun.now.planned.plan begun.now.kept) (O.seen out.old) (O.seen out.new) result }
{
    let (plan, rows) = (&begun.planned.plan, begun.kept.rows.as_slice());
    let table = PlanesTable::new(alloc, plan, rows)?;
    Ok(after_text(write_progress(plan, rows, &table, out)))
}
