// Sums by each reading, batch by batch.
ghost use Rattle.std.specs.Prelude.{◌≡◌, ◌<◌, ◌≤◌, ◌+◌, ◌^◌, ℕ, [], IfOk, length, slice_index_or};
ghost use Rattle.campaign_plan.specs.Analysis.{batch_count};
ghost use Rattle.campaign_plan.specs.Batches.{own_sums as sums_of_batch};
ghost use Rattle.classifier.specs.Planes.{outcome_at};
ghost use Rattle.metric_sums.specs.Totals.{AreSmall, no_sums, plus};
ghost use Rattle.metric_breakdown.specs.Text.{sums_at};
ghost use Rattle.metric_breakdown.specs.Turns.{HasSums, ShowsBatch, batch_of_turn};

use crate::share::batch_of;
use batch_crew::WorkerShare;
use campaign_plan::{Outcome, Plan, own_sums};
use metric_sums::Sums;
use reading_planes::Reading;
use room::{NoRoom, filled};
use std::alloc::Global;

/// Nothing added up, by each of so many readings.
pub(crate) fn no_sums(alloc: Global, readings: usize) -> Result<Vec<Sums>, NoRoom>
    ensures count { IfOk result (λ sums. length sums.items ≡ readings) }
    ensures none { IfOk result (λ sums. (r : ℕ) → sums_at sums.items r ≡ no_sums) }
{
    Ok(filled(alloc, Sums::none(), readings)?)
}

// Adds what a batch shows by each reading.
fn add_batch(plan: &Plan, batch: u32, found: &[Outcome], sums: &mut [Sums])
    requires batch { batch < batch_count plan.now }
    requires count { length found.now ≡ length sums.old }
    requires small { (r : ℕ) → r < length sums.old → AreSmall (plus (sums_at sums.old r) (sums_of_batch plan.now batch (outcome_at found.now r))) }
    ensures { (r : ℕ) → r < length sums.old → sums_at sums.new r ≡ plus (sums_at sums.old r) (sums_of_batch plan.now batch (outcome_at found.now r)) }
{
    for r in 0..sums.len() {
        sums[r] = sums[r].plus(&own_sums(plan, batch, found[r]));
    }
}

/// Adds what the batch of a turn shows by each reading, where there is such a batch.
pub(crate) fn add_turn(
    plan: &Plan,
    readings: &[Reading],
    share: WorkerShare,
    turn: u32,
    found: &[Outcome],
    sums: &mut [Sums],
)
    requires turn { turn < 2 ^ 26 }
    requires workers { (share.number < share.workers) × (share.workers ≤ 32) }
    requires found { ShowsBatch plan.now readings.now (batch_of_turn share turn) found.now }
    requires sums { HasSums plan.now readings.now share turn sums.old }
    ensures { HasSums plan.now readings.now share (turn + 1) sums.new }
{
    let batch = batch_of(share, turn);
    if batch < plan.batches() {
        add_batch(plan, batch, found, sums);
    }
}

/// Adds the sums of a worker to these, by each reading.
pub(crate) fn add_sums(added: &[Sums], sums: &mut [Sums])
    requires count { length added.now ≡ length sums.old }
    requires small { (r : ℕ) → r < length sums.old → AreSmall (plus (sums_at sums.old r) (sums_at added.now r)) }
    ensures { (r : ℕ) → r < length sums.old → sums_at sums.new r ≡ plus (sums_at sums.old r) (sums_at added.now r) }
{
    for r in 0..sums.len() {
        sums[r] = sums[r].plus(&added[r]);
    }
}
