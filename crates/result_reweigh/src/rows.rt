// Rows by the weights of a plan.
ghost use Rattle.std.specs.Prelude.{◌≡◌, IfOk, map};
ghost use Rattle.campaign_plan.specs.Batches.{AreDistinct};
ghost use Rattle.campaign_plan.specs.Kept.{IsPlan};
ghost use Rattle.result_file.specs.KeptRows.{entry_of};
ghost use Rattle.result_reweigh.specs.Reweighed.{reweighed};

use campaign_plan::{Outcome, Plan, own_sums};
use fm_base::Seq;
use metric_sums::Sums;
use result_file::{Row, RowList};
use room::NoRoom;
use std::alloc::Global;

// What the type of a plan keeps.
fn kept(plan: &Plan)
    ensures { IsPlan plan.now }
{
    plan.batches();
}

/// The same batches with the same planes, in the same order, with sums from scratch by the weights of this plan.
pub fn reweighed_rows(alloc: Global, plan: &Plan, rows: &[Row]) -> Result<RowList, NoRoom>
    requires { AreDistinct plan.now (map entry_of rows.now) }
    ensures { IfOk result (λ made. made ≡ reweighed plan.now rows.now) }
{
    kept(plan);
    let mut made: RowList = Seq::new(alloc);
    let mut sums = Sums::none();
    for row in rows {
        let planes = Outcome {
            danger: row.danger,
            noticed: row.noticed,
        };
        sums = sums.plus(&own_sums(plan, row.batch, planes));
        made.push(Row { sums, ..*row })?;
    }
    Ok(made)
}
