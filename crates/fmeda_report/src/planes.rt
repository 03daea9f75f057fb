// The planes of each batch, by its number, and what they say.
ghost use Rattle.std.specs.Prelude.{◌≡◌, ◌<◌, ℕ, All, length};
ghost use Rattle.metric_sums.specs.Totals.{AreConsistent};
ghost use Rattle.campaign_plan.specs.Analysis.{Analysis, batch_count, fault_count};
ghost use Rattle.campaign_plan.specs.Batches.{class_of_fault as class_by_planes};
ghost use Rattle.fmeda_report.specs.Report.{all_sums as sums_over};
ghost use Rattle.result_file.specs.RowPlanes.{HoldEachOnce, planes_in};
ghost use Rattle.fmeda_report.specs.Tallies.{planes_in_order};

use campaign_plan::{Outcome, Plan, class_with, has_bit, own_sums};
use metric_sums::{Class, Sums};
use result_file::Row;

// The number of lanes of a batch.
const LANES: u32 = 64;

// Puts the planes of each row to the place of its batch.
pub(crate) fn place_planes(rows: &[Row], planes: &mut [Outcome])
    requires { All (λ row. row.batch < length planes.old) rows.now }
    ensures { (p : Analysis) → HoldEachOnce p rows.now → length planes.old ≡ batch_count p
        → (batch : ℕ) → planes_in_order planes.new batch ≡ planes_in rows.now batch }
{
    for row in rows {
        planes[row.batch as usize] = Outcome {
            danger: row.danger,
            noticed: row.noticed,
        };
    }
}

// The class of fault `i`, read off the planes of its batch.
pub(crate) fn class_of_fault(plan: &Plan, planes: &[Outcome], i: u32) -> Class
    requires fault { i < fault_count plan.now }
    requires planes { length planes.now ≡ batch_count plan.now }
    ensures { result ≡ class_by_planes plan.now (planes_in_order planes.now) i }
{
    let outcome = planes[(i / LANES) as usize];
    let dangerous = has_bit(outcome.danger, i % LANES);
    class_with(plan, i, dangerous, has_bit(outcome.noticed, i % LANES))
}

// The five sums over all batches.
pub(crate) fn all_sums(plan: &Plan, planes: &[Outcome]) -> Sums
    requires { length planes.now ≡ batch_count plan.now }
    ensures sums { result ≡ sums_over plan.now (planes_in_order planes.now) }
    ensures consistent { AreConsistent result }
{
    let mut sums = Sums::none();
    for batch in 0..plan.batches() {
        sums = sums.plus(&own_sums(plan, batch, planes[batch as usize]));
    }
    sums
}
