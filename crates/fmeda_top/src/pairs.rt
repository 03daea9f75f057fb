// The text of `pairs`.
ghost use Rattle.std.specs.Prelude.{◌<◌, ◌≤◌};
ghost use Rattle.circuit.specs.Order.{IsOrder};
ghost use Rattle.campaign_plan.specs.Batches.{AreDistinct};
ghost use Rattle.result_file.specs.KeptRows.{kept_entries};
ghost use Rattle.commands.specs.declared.command.Task.TheVariants as task;
ghost use Rattle.command_reads.specs.FirstRefusal.{Begun as StandsBegun};
ghost use Rattle.fmeda_top.specs.Doing.{ChoosesAs, TellsAs};

use campaign_plan::Plan;
use command_reads::begun::Begun;
use fm_base::Refusal;
use fm_shelf::shelf::Sink;
use pair_campaign::{PairCrew, judge, pairs_are_told, write_pairs};
use pair_list::Pairs;
use refusals::refused::Refused;
use refusals::status::{Status, after_text};
use result_file::KeptRows;
use std::alloc::Global;
use std::thread::Threads;

// The pairs of a plan by the rows that are kept, or why there are none.
fn pairs_from(alloc: Global, plan: &Plan, kept: &KeptRows) -> Result<Pairs, Status>
    requires { AreDistinct plan.now (kept_entries kept.now) }
    ensures { ChoosesAs plan.now kept.now result }
{
    match Pairs::new(alloc, plan, kept.rows.as_slice()) {
        Ok(pairs) => Ok(pairs),
        Err(Refusal::Fault(refusal)) => Err(Status::Pairs(refusal)),
        Err(Refusal::Memory(no_room)) => Err(Status::Memory(no_room)),
    }
}

/// Judges the pairs of what is kept, and writes their text, or says why there are none.
pub(crate) fn tell_pairs<R: Threads + Sync, O: Sink>(
    rt: &R,
    alloc: Global,
    begun: &Begun,
    out: &mut O,
    workers: u32,
) -> Result<Status, Refused>
    requires order { IsOrder begun.now.planned.plan.circuit begun.now.planned.order }
    requires distinct { AreDistinct begun.now.planned.plan (kept_entries begun.now.kept) }
    requires workers { (0 < workers) × (workers ≤ 32) }
    ensures { TellsAs (task.Pairs workers) (StandsBegun begun.now.planned.plan begun.now.kept) (O.seen out.old) (O.seen out.new) result }
{
    pairs_are_told();
    let (plan, order) = (&begun.planned.plan, &begun.planned.order);
    let pairs = pairs_from(alloc, plan, &begun.kept)?;
    let crew = PairCrew::new(alloc, plan, order, &pairs, workers)?;
    let planes = judge(rt, plan, &pairs, crew);
    Ok(after_text(write_pairs(plan, &pairs, &planes, out)))
}
