// The text of `parts`.
ghost use Rattle.commands.specs.declared.command.Task.TheVariants as task;
ghost use Rattle.command_reads.specs.FirstRefusal.{Rated as StandsRated};
ghost use Rattle.fmeda_top.specs.Doing.{TellsAs};

use campaign_tables::PartTable;
use command_reads::rated::Rated;
use fm_shelf::shelf::Sink;
use refusals::refused::Refused;
use refusals::status::{Status, after_text};
use std::alloc::Global;

/// Looks up each net and latch, and writes what each row of the rates takes.
pub(crate) fn tell_parts<O: Sink>(
    alloc: Global,
    rated: &Rated,
    out: &mut O,
) -> Result<Status, Refused>
    ensures { TellsAs task.Parts (StandsRated rated.now.ordered.net rated.now.rates) (O.seen out.old) (O.seen out.new) result }
{
    let table = PartTable::new(alloc, &rated.ordered.net, &rated.rates)?;
    Ok(after_text(table.write(out)))
}
