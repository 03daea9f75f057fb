// The checks of a row that is read back.
ghost use Rattle.std.specs.Prelude.{◌≡◌, ◌≤◌, ◌<◌, ◌++◌, ◌∷◌, [], not, ◌&&◌, ◌||◌, Some, None, map, length, MatchResult, ◌==◌};
ghost use Rattle.fm_base.specs.Lists.{below};
ghost use Rattle.fm_base.specs.Planes.{lanes, bit};
ghost use Rattle.fault_list.specs.Faults.{is_used};
ghost use Rattle.std.specs.List.{list_any};
ghost use Rattle.campaign_plan.specs.Batches.{total, AreDistinct};
ghost use Rattle.metric_sums.specs.Totals.{same_sums};
ghost use Rattle.result_file.specs.KeptRows.{row_read, row_len, entry_of};
ghost use Rattle.result_file.specs.Steps.{fault_over};

use crate::read::read_row;
use crate::{Row, RowFault};
use campaign_plan::{Outcome, Plan, has_bit, own_sums};
use metric_sums::Sums;

// A lane that holds no fault has a bit that is 1.
fn is_set_unused(faults: u32, row: &Row, lane: u32) -> bool
    requires { lane < 64 }
    ensures { result ≡ (not (is_used faults row.now.batch lane) && (bit row.now.danger lane || bit row.now.noticed lane)) }
{
    let fault = 64 * u64::from(row.batch) + u64::from(lane);
    fault >= u64::from(faults) && (has_bit(row.danger, lane) || has_bit(row.noticed, lane))
}

// Some lane that holds no fault has a bit that is 1.
fn has_unused_lane(faults: u32, row: &Row) -> bool
    ensures { result ≡ list_any (λ k. not (is_used faults row.now.batch k) && (bit row.now.danger k || bit row.now.noticed k)) (below lanes) }
{
    for lane in 0..64 {
        if is_set_unused(faults, row, lane) {
            return true;
        }
    }
    false
}

// The batch stands in one of these rows.
fn has_batch(rows: &[Row], batch: u32) -> bool
    ensures { result ≡ list_any (λ earlier. earlier.batch == batch) rows.now }
{
    rows.iter().any(|earlier| earlier.batch == batch)
}

// The five sums are the same.
fn are_same(a: &Sums, b: &Sums) -> bool
    ensures { result ≡ same_sums a.now b.now }
{
    a.permanent_all == b.permanent_all
        && a.permanent_danger == b.permanent_danger
        && a.latent == b.latent
        && a.transient_all == b.transient_all
        && a.transient_danger == b.transient_danger
}

// The row of a piece behind these rows, or the first rule that it breaks.
pub(crate) fn checked_row(
    plan: &Plan,
    rows: &[Row],
    sums: &Sums,
    piece: &[u8],
) -> Result<Row, RowFault>
    requires piece { length piece.now ≡ row_len }
    requires sums { sums.now ≡ total plan.now (map entry_of rows.now) }
    requires distinct { AreDistinct plan.now (map entry_of rows.now) }
    ensures { MatchResult result
        (λ row. (row ≡ row_read piece.now) × (fault_over plan.now rows.now piece.now ≡ None) × (row.sums ≡ total plan.now (map entry_of (rows.now ++ row ∷ [])))
        × AreDistinct plan.now (map entry_of (rows.now ++ row ∷ [])))
        (λ fault. fault_over plan.now rows.now piece.now ≡ Some fault) }
{
    let Some(row) = read_row(piece) else {
        return Err(RowFault::Form);
    };
    if row.batch >= plan.batches() {
        return Err(RowFault::Range);
    }
    if has_batch(rows, row.batch) {
        return Err(RowFault::Repeated);
    }
    if has_unused_lane(plan.faults().len(), &row) {
        return Err(RowFault::UnusedLane);
    }
    let planes = Outcome {
        danger: row.danger,
        noticed: row.noticed,
    };
    let computed = sums.plus(&own_sums(plan, row.batch, planes));
    if !are_same(&row.sums, &computed) {
        return Err(RowFault::Sums {
            kept: row.sums,
            computed,
        });
    }
    Ok(row)
}
