// What a command does before it does anything of its own.
ghost use Rattle.fm_shelf.specs.Shelf.{OnlyReadsAny};
ghost use Rattle.campaign_plan.specs.Kept.{AreSettings};
ghost use Rattle.commands.specs.Commands.{HasFitNumbers, name_by};
ghost use Rattle.fmeda_top.specs.Doing.{IsPrepared};

use campaign_plan::Settings;
use command_reads::files::read_files;
use command_reads::judge::{Judged, judge};
use commands::{FileNames, Task};
use fm_shelf::shelf::Shelf;
use refusals::refused::Refused;
use std::alloc::Global;

/// Reads the files of a command, and judges what was read.
pub(crate) fn prepared<F: Shelf>(
    alloc: Global,
    shelf: &mut F,
    names: &FileNames<'_>,
    settings: Settings,
    task: &Task,
) -> Result<Judged, Refused>
    requires settings { AreSettings settings }
    requires fit { HasFitNumbers task.now }
    ensures prepared { IsPrepared (record { files = name_by names.now; settings = settings; task = task.now }) (F.seen shelf.old) (F.seen shelf.new) result }
    ensures rest { OnlyReadsAny (F.seen shelf.old) (F.seen shelf.new) }
{
    let kind = task.kind();
    let reads = read_files(alloc, shelf, names, kind)?;
    judge(alloc, names.netlist, settings, reads, kind)
}
