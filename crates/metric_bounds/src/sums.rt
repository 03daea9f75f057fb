// The sums over kept batches, and over all batches at an end.
ghost use Rattle.std.specs.Prelude.{◌≡◌, ◌<◌, List, length, map, unwrap_or};
ghost use Rattle.metric_sums.specs.Totals.{AreConsistent};
ghost use Rattle.campaign_plan.specs.Analysis.{batch_count};
ghost use Rattle.campaign_plan.specs.Batches.{total, AreDistinct, Entry};
ghost use Rattle.campaign_plan.specs.Kept.{IsPlan};
ghost use Rattle.result_file.specs.KeptRows.{entry_of};
ghost use Rattle.fmeda_report.specs.Report.{all_sums};
ghost use Rattle.result_merge.specs.Tables.{at_batch, planes_table};
ghost use Rattle.metric_bounds.specs.Bounds.{end_sums};
ghost use Rattle.metric_bounds.specs.Progress.{AreAllConsistent};
ghost use Rattle.metric_bounds.specs.Missing.{planes_when_missing, planes_at_end};

use crate::missing::missing_planes;
use crate::{End, EndSums};
use campaign_plan::{Outcome, Plan, own_sums};
use metric_sums::Sums;
use result_file::Row;
use result_merge::PlanesTable;

// The planes of a batch: those that are kept, or else those at an end.
fn planes_of(plan: &Plan, table: &PlanesTable, end: End, batch: u32) -> Outcome
    requires table { length table.now ≡ batch_count plan.now }
    requires batch { batch < batch_count plan.now }
    ensures { result ≡ unwrap_or (at_batch table.now batch) (planes_when_missing plan.now end batch) }
{
    match table.get(batch) {
        Some(planes) => planes,
        None => missing_planes(plan, end, batch),
    }
}

// The five sums over all batches at an end.
fn sums_at(plan: &Plan, table: &PlanesTable, end: End) -> Sums
    requires { length table.now ≡ batch_count plan.now }
    ensures sums { (entries : List Entry) → table.now ≡ planes_table (batch_count plan.now) entries
        → result ≡ all_sums plan.now (planes_at_end plan.now entries end) }
    ensures consistent { AreConsistent result }
{
    let mut sums = Sums::none();
    for batch in 0..plan.batches() {
        sums = sums.plus(&own_sums(plan, batch, planes_of(plan, table, end, batch)));
    }
    sums
}

/// The five sums over all batches at each end.
pub(crate) fn sums_at_ends(plan: &Plan, table: &PlanesTable) -> EndSums
    requires { length table.now ≡ batch_count plan.now }
    ensures sums { (entries : List Entry) → table.now ≡ planes_table (batch_count plan.now) entries → result ≡ end_sums plan.now entries }
    ensures consistent { AreAllConsistent result }
{
    EndSums {
        best: sums_at(plan, table, End::Best),
        worst: sums_at(plan, table, End::Worst),
        most_latent: sums_at(plan, table, End::MostLatent),
    }
}

/// The five sums over the batches of rows.
pub(crate) fn kept_sums(plan: &Plan, rows: &[Row]) -> Sums
    requires plan { IsPlan plan.now }
    requires distinct { AreDistinct plan.now (map entry_of rows.now) }
    ensures { result ≡ total plan.now (map entry_of rows.now) }
{
    let mut sums = Sums::none();
    for row in rows {
        let planes = Outcome {
            danger: row.danger,
            noticed: row.noticed,
        };
        sums = sums.plus(&own_sums(plan, row.batch, planes));
    }
    sums
}
