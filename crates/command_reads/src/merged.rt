// Two result files of one plan, merged.
ghost use Rattle.std.specs.Prelude.{◌≡◌, IfOk};
ghost use Rattle.campaign_plan.specs.Batches.{AreDistinct};
ghost use Rattle.campaign_plan.specs.Kept.{AreSettings};
ghost use Rattle.result_file.specs.KeptRows.{kept_entries};
ghost use Rattle.result_merge.specs.Merged.{merged as merged_rows};
ghost use Rattle.refusals.specs.NetlistFile.{or_refuse};
ghost use Rattle.command_reads.specs.Answers.{AnswersAs, BothAs, IsSound, MergesAs};
ghost use Rattle.command_reads.specs.Files.{AreShort, reads_by};

use crate::begun::rows_of;
use crate::files::Reads;
use crate::planned::{Planned, judge_plan};
use campaign_plan::{Plan, Settings};
use commands::Which;
use fm_base::Refusal;
use refusals::refused::Refused;
use refusals::status::Status;
use result_file::{KeptRows, RowList};
use result_merge::merge_rows;
use std::alloc::Global;

/// A plan, and the rows of two of its result files.
#[derive(Drop)]
pub struct Merged {
    pub planned: Planned,
    pub rows: RowList,
}

// The rows of both files, unless some batch stands in both with other planes.
fn rows_of_both(
    alloc: Global,
    plan: &Plan,
    first: &KeptRows,
    second: &KeptRows,
) -> Result<RowList, Status>
    requires first { AreDistinct plan.now (kept_entries first.now) }
    requires second { AreDistinct plan.now (kept_entries second.now) }
    ensures { AnswersAs (or_refuse Status.Merge (merged_rows plan.now first.now.rows second.now.rows)) result }
{
    match merge_rows(alloc, plan, first.rows.as_slice(), second.rows.as_slice()) {
        Ok(rows) => Ok(rows),
        Err(Refusal::Fault(differ)) => Err(Status::Merge(differ)),
        Err(Refusal::Memory(no_room)) => Err(Status::Memory(no_room)),
    }
}

// The rows of two result files of a plan, the first judged whole before the second.
fn both_of(alloc: Global, planned: &Planned, reads: &Reads) -> Result<RowList, Status>
    requires sound { IsSound (reads_by reads.now) planned.now }
    requires short { AreShort (reads_by reads.now) }
    ensures { BothAs planned.now.plan (reads_by reads.now) result }
{
    let first = rows_of(alloc, Which::First, planned, reads)?;
    let second = rows_of(alloc, Which::Second, planned, reads)?;
    rows_of_both(alloc, &planned.plan, &first, &second)
}

/// The plan of the four files that were read, and the rows of two of its result files, or why they aren't merged.
pub(crate) fn judge_merged(
    alloc: Global,
    netlist: &str,
    set: Settings,
    reads: &Reads,
) -> Result<Merged, Refused>
    requires settings { AreSettings set }
    requires short { AreShort (reads_by reads.now) }
    ensures merges { MergesAs netlist.now set (reads_by reads.now) result }
    ensures sound { IfOk result (λ made. IsSound (reads_by reads.now) made.planned) }
{
    let planned = judge_plan(alloc, netlist, set, reads)?;
    match both_of(alloc, &planned, reads) {
        Ok(rows) => Ok(Merged { planned, rows }),
        Err(status) => {
            drop(planned);
            Err(Refused::By(status))
        }
    }
}
