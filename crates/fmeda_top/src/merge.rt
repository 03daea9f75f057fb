// The result files of `merge` and `reweigh`, which are written at once.
ghost use Rattle.std.specs.Prelude.{◌≡◌, IfOk, length};
ghost use Rattle.fm_shelf.specs.Outside.{outside};
ghost use Rattle.fm_shelf.specs.Sink.{Sends};
ghost use Rattle.commands.specs.declared.command.Task.TheVariants as task;
ghost use Rattle.command_reads.specs.Answers.{IsSound};
ghost use Rattle.command_reads.specs.Files.{Reads, exchanged};
ghost use Rattle.command_reads.specs.FirstRefusal.{Merged as StandsMerged, Reweighed as StandsReweighed};
ghost use Rattle.fmeda_top.specs.Doing.{HasEnded};
ghost use Rattle.fmeda_top.specs.Written.{IsWrittenAnew, line_by, made_by, reads_of, rows_file, task_by};

use campaign_run::End;
use command_reads::merged::Merged;
use command_reads::planned::Planned;
use command_reads::reweighed::Reweighed;
use fm_base::Line;
use fm_shelf::shelf::{Failed, Shelf, Sink};
use fm_shelf::whole::append_all;
use refusals::share_text::{write_merge, write_reweigh};
use result_file::{Row, row_line};
use room::{NoRoom, extend, from_slice};
use std::alloc::Global;

// How the rows of a file came about.
#[derive(Clone, Copy)]
pub(crate) enum Origin {
    Merged,
    Reweighed,
}

// The bytes of a result file with this header and these rows.
fn file_with(alloc: Global, own: &Line, rows: &[Row]) -> Result<Vec<u8>, NoRoom>
    ensures { IfOk result (λ file. file.items ≡ rows_file own.now rows.now) }
{
    let mut file = from_slice(alloc, own.bytes())?;
    for row in rows {
        extend(&mut file, row_line(row).bytes())?;
    }
    Ok(file)
}

// Cuts a file to nothing and writes it anew.
fn write_anew<F: Shelf>(shelf: &mut F, name: &str, text: &[u8]) -> Result<(), Failed>
    ensures { IsWrittenAnew name.now text.now (F.seen shelf.old) (F.seen shelf.new) result }
{
    shelf.cut(name, 0)?;
    append_all(shelf, name, text)
}

// Writes how many rows such a file has, of so many batches.
fn write_count<O: Sink>(
    origin: Origin,
    rows: usize,
    batches: u32,
    out: &mut O,
) -> Result<(), Failed>
    ensures { Sends (O.seen out.old) (O.seen out.new) (line_by origin rows batches) result }
{
    match origin {
        Origin::Merged => write_merge(rows, batches, out),
        Origin::Reweighed => write_reweigh(rows, batches, out),
    }
}

// Writes these rows of a plan to the file `name`, and then how many batches it has. All memory is taken before the first call on the file.
fn write_file<F: Shelf, O: Sink>(
    alloc: Global,
    origin: Origin,
    planned: &Planned,
    rows: &[Row],
    name: &str,
    shelf: &mut F,
    out: &mut O,
) -> End
    ensures { (reads : Reads) → IsSound (reads_of origin reads) planned.now
        → HasEnded result (task_by origin) (made_by origin planned.now.plan rows.now) reads name.now
        (outside (F.seen shelf.old) (O.seen out.old)) (outside (F.seen shelf.new) (O.seen out.new)) }
{
    let file = match file_with(alloc, &planned.own, rows) {
        Ok(file) => file,
        Err(no_room) => return End::NoMemory(no_room),
    };
    if write_anew(shelf, name, file.as_slice()).is_err() {
        return End::ResultFault;
    }
    match write_count(origin, rows.len(), planned.plan.batches(), out) {
        Ok(()) => End::Done,
        Err(Failed) => End::OutFault,
    }
}

/// Writes the rows of two result files of one plan, each batch once, to the file `name`, and then how many batches it has. All memory is
/// taken before the first call on the file.
pub(crate) fn merge<F: Shelf, O: Sink>(
    alloc: Global,
    merged: &Merged,
    name: &str,
    shelf: &mut F,
    out: &mut O,
) -> End
    ensures { (reads : Reads) → IsSound reads merged.now.planned
        → HasEnded result task.Merge (StandsMerged merged.now.planned.plan merged.now.rows) reads name.now
        (outside (F.seen shelf.old) (O.seen out.old)) (outside (F.seen shelf.new) (O.seen out.new)) }
{
    let (planned, rows) = (&merged.planned, merged.rows.as_slice());
    write_file(alloc, Origin::Merged, planned, rows, name, shelf, out)
}

/// Writes the rows of a result file by other rates to the file `name`, and then how many batches it has, likewise.
pub(crate) fn reweigh<F: Shelf, O: Sink>(
    alloc: Global,
    reweighed: &Reweighed,
    name: &str,
    shelf: &mut F,
    out: &mut O,
) -> End
    ensures { (reads : Reads) → IsSound (exchanged reads) reweighed.now.planned
        → HasEnded result task.Reweigh (StandsReweighed reweighed.now.planned.plan reweighed.now.rows) reads name.now
        (outside (F.seen shelf.old) (O.seen out.old)) (outside (F.seen shelf.new) (O.seen out.new)) }
{
    let (planned, rows) = (&reweighed.planned, reweighed.rows.as_slice());
    write_file(alloc, Origin::Reweighed, planned, rows, name, shelf, out)
}
