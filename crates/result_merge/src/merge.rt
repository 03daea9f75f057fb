// Rows of two result files, merged.
ghost use Rattle.std.specs.Prelude.{◌≡◌, ◌&&◌, ◌==◌, not, IfOk, length, map};
ghost use Rattle.fm_base.specs.Answers.{Gives};
ghost use Rattle.campaign_plan.specs.Analysis.{batch_count};
ghost use Rattle.campaign_plan.specs.Batches.{AreDistinct};
ghost use Rattle.result_file.specs.KeptRows.{entry_of};
ghost use Rattle.result_file.specs.ResultText.{result_rows};
ghost use Rattle.result_merge.specs.Union.{rising};
ghost use Rattle.result_merge.specs.Merged.{merged};
ghost use Rattle.result_merge.specs.Tables.{at_either, difference};

use crate::table::PlanesTable;
use campaign_plan::{Outcome, Plan, own_sums};
use fm_base::{Refusal, Seq};
use metric_sums::Sums;
use result_file::{Row, RowList};
use room::NoRoom;
use std::alloc::Global;

/// Why two files aren't merged: the least batch that stands in both with other planes, and these.
#[derive(Clone, Copy, Debug, PartialEq, Eq)]
pub enum MergeRefusal {
    Differs {
        batch: u32,
        first: Outcome,
        second: Outcome,
    },
}

fn is_other(a: Outcome, b: Outcome) -> bool
    ensures { result ≡ not ((a.danger == b.danger) && (a.noticed == b.noticed)) }
{
    !(a.danger == b.danger && a.noticed == b.noticed)
}

// The least batch that the tables have other planes of.
fn first_difference(
    batches: u32,
    firsts: &PlanesTable,
    seconds: &PlanesTable,
) -> Option<MergeRefusal>
    requires { (length firsts.now ≡ batches) × (length seconds.now ≡ batches) }
    ensures { result ≡ difference batches firsts.now seconds.now }
{
    for batch in 0..batches {
        if let (Some(first), Some(second)) = (firsts.get(batch), seconds.get(batch)) {
            if is_other(first, second) {
                return Some(MergeRefusal::Differs {
                    batch,
                    first,
                    second,
                });
            }
        }
    }
    None
}

// A row for each batch of either table, in rising order, with sums from scratch.
fn rows_of(
    alloc: Global,
    plan: &Plan,
    firsts: &PlanesTable,
    seconds: &PlanesTable,
) -> Result<RowList, NoRoom>
    requires { (length firsts.now ≡ batch_count plan.now) × (length seconds.now ≡ batch_count plan.now) }
    ensures { IfOk result (λ rows. rows ≡ result_rows plan.now (rising (batch_count plan.now) (at_either firsts.now seconds.now))) }
{
    let mut rows: RowList = Seq::new(alloc);
    let mut sums = Sums::none();
    for batch in 0..plan.batches() {
        let Some(planes) = firsts.get(batch).or(seconds.get(batch)) else {
            continue;
        };
        sums = sums.plus(&own_sums(plan, batch, planes));
        rows.push(Row {
            batch,
            danger: planes.danger,
            noticed: planes.noticed,
            sums,
        })?;
    }
    Ok(rows)
}

/// The rows of both files in rising order of their batches, each batch once, with sums from scratch; or the least batch that
/// stands in both with other planes. It takes the time of both lists and of the batches.
pub fn merge_rows(
    alloc: Global,
    plan: &Plan,
    first: &[Row],
    second: &[Row],
) -> Result<RowList, Refusal<MergeRefusal>>
    requires first { AreDistinct plan.now (map entry_of first.now) }
    requires second { AreDistinct plan.now (map entry_of second.now) }
    ensures { Gives (merged plan.now first.now second.now) result }
{
    let firsts = PlanesTable::new(alloc, plan, first)?;
    let seconds = PlanesTable::new(alloc, plan, second)?;
    if let Some(refusal) = first_difference(plan.batches(), &firsts, &seconds) {
        return Err(Refusal::Fault(refusal));
    }
    Ok(rows_of(alloc, plan, &firsts, &seconds)?)
}
