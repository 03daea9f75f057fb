// A campaign that was begun: its plan, and what is kept of its result file.
ghost use Rattle.std.specs.Prelude.{◌≡◌, ◌≤◌, ◌^◌, IfOk, length};
ghost use Rattle.campaign_plan.specs.Batches.{AreDistinct};
ghost use Rattle.campaign_plan.specs.Kept.{AreSettings};
ghost use Rattle.result_file.specs.KeptRows.{header_len, kept as kept_in, kept_entries};
ghost use Rattle.refusals.specs.NetlistFile.{or_refuse};
ghost use Rattle.command_reads.specs.Answers.{AnswersAs, BeginsAs, IsSound};
ghost use Rattle.command_reads.specs.Files.{AreShort, reads_by};
ghost use Rattle.command_reads.specs.FirstRefusal.{rows_in};

use crate::files::Reads;
use crate::planned::{Planned, judge_plan};
use campaign_plan::{Plan, Settings};
use commands::Which;
use fm_base::{Line, Refusal};
use refusals::refused::Refused;
use refusals::status::Status;
use result_file::{KeptRows, read_result};
use std::alloc::Global;

/// A plan, and the rows that are kept of its result file.
#[derive(Drop)]
pub struct Begun {
    pub planned: Planned,
    pub kept: KeptRows,
}

/// The rows that are kept of a result file of a plan that was read, or why it isn't one of this plan.
pub(crate) fn rows_of(
    alloc: Global,
    which: Which,
    planned: &Planned,
    reads: &Reads,
) -> Result<KeptRows, Status>
    requires sound { IsSound (reads_by reads.now) planned.now }
    requires short { AreShort (reads_by reads.now) }
    ensures answers { AnswersAs (rows_in which (reads_by reads.now) planned.now.plan) result }
    ensures distinct { IfOk result (λ kept. AreDistinct planned.now.plan (kept_entries kept)) }
{
    match read_result(alloc, reads.whole(which)?, &planned.plan, &planned.own) {
        Ok(kept) => Ok(kept),
        Err(Refusal::Fault(fault)) => Err(Status::Result(fault)),
        Err(Refusal::Memory(no_room)) => Err(Status::Memory(no_room)),
    }
}

/// The plan of the four files that were read, and what is kept of its result file.
pub(crate) fn judge_begun(
    alloc: Global,
    netlist: &str,
    set: Settings,
    reads: &Reads,
) -> Result<Begun, Refused>
    requires settings { AreSettings set }
    requires short { AreShort (reads_by reads.now) }
    ensures begins { BeginsAs netlist.now set (reads_by reads.now) result }
    ensures sound { IfOk result (λ made. IsSound (reads_by reads.now) made.planned × AreDistinct made.planned.plan (kept_entries made.kept)) }
{
    let planned = judge_plan(alloc, netlist, set, reads)?;
    match rows_of(alloc, Which::Result, &planned, reads) {
        Ok(kept) => Ok(Begun { planned, kept }),
        Err(status) => {
            drop(planned);
            Err(Refused::By(status))
        }
    }
}
