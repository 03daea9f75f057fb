// The one seat of a part.
ghost use Rattle.std.specs.Prelude.{◌≡◌, ◌<◌, length};
ghost use Rattle.campaign_plan.specs.Analysis.{batch_count};
ghost use Rattle.campaign_plan.specs.Batches.{true_planes};
ghost use Rattle.campaign_workers.specs.Truth.{true_entry, HasTrueEntries};
ghost use Rattle.classifier.specs.Simulated.{simulated_of};
ghost use Rattle.result_merge.specs.Parts.{is_of_part};
ghost use Rattle.campaign_shard.specs.PartSeats.{IsAtPart, HasWorkedPart};

use campaign_board::{Entry, Origin, Posted, Seat, Shared};
use campaign_plan::{Outcome, Plan, own_sums};
use claim_counter::Alone;
use classifier::BatchSimulator;
use fm_shelf::shelf::Shelf;

// The batch is of this part.
fn is_own(batch: u32, part: u32, parts: u32) -> bool
    requires { 0 < parts }
    ensures { result ≡ is_of_part part parts batch }
{
    batch % parts == part
}

// The entry of a batch with these planes, which are those that it truly has.
fn entry_with(plan: &Plan, batch: u32, planes: Outcome) -> Entry
    requires batch { batch < batch_count plan.now }
    requires planes { planes ≡ true_planes plan.now batch }
    ensures { result ≡ true_entry plan.now batch }
{
    Entry {
        batch,
        danger: planes.danger,
        noticed: planes.noticed,
        own: own_sums(plan, batch, planes),
    }
}

/// Draws each batch to do until a draw gives none, and simulates and posts those of the part, of which alone the board takes rows; or
/// until a post is stopped.
pub(crate) fn work_part<F: Shelf + Drop, N: Origin>(
    plan: &Plan,
    simulator: &mut BatchSimulator<'_>,
    shared: &Shared<F, N>,
    seat: &mut Seat<F, N>,
    part: u32,
    parts: u32,
)
    requires parts { 0 < parts }
    requires seat { IsAtPart shared.now N.start part parts seat.old × (seat.old.view.nones ≡ 0) }
    requires simulator { simulator.old ≡ simulated_of plan.now }
    requires entries { HasTrueEntries plan.now N.start × (length N.start.entries ≡ batch_count plan.now) }
    requires takes { N.start.takes ≡ is_of_part part parts }
    ensures { HasWorkedPart shared.now N.start part parts seat.new }
{
    'draws: loop {
        let Some(batch) = shared.draw(seat) else {
            return;
        };
        if is_own(batch, part, parts) {
            let entry = entry_with(plan, batch, simulator.batch(batch));
            if let Posted::Stopped = shared.post(&Alone, seat, &entry) {
                return;
            }
        }
    }
}
