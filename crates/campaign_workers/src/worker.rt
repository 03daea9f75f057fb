ghost use Rattle.std.specs.Prelude.{◌≡◌, ◌++◌, [], OnOk, OnErr, length};
ghost use Rattle.campaign_plan.specs.Analysis.{batch_count};
ghost use Rattle.claim_counter.specs.Crews.{MayDraw, IsDone};
ghost use Rattle.campaign_workers.specs.Rounds.{drawn_in, numbers_in, true_planes_in, Owes};
ghost use Rattle.campaign_workers.specs.Truth.{HasTrueEntries, TakesAll};
ghost use Rattle.classifier.specs.Simulator.{simulator_of};
ghost use Rattle.testbench.specs.Testbench.{IsTestbenchFor};

use crate::outcome::{entry_with, simulated_planes};
use crate::round::{Round, draw_round};
use campaign_board::{Origin, Posted, Seat, Shared};
use campaign_plan::{Outcome, Plan};
use claim_counter::Turn;
use classifier::Simulator;
use fm_shelf::shelf::Shelf;
use testbench::Testbench;
use worker_gate::Gate;

/// A worker: its number, its seat at the shared board, and what it simulates four batches at once with.
#[derive(Drop)]
pub struct Worker<F: Shelf + Drop, N: Origin> {
    pub(crate) number: u32,
    pub(crate) seat: Seat<F, N>,
    pub(crate) simulator: Simulator,
}

impl<F: Shelf + Drop, N: Origin> Worker<F, N> {
    pub(crate) fn into_seat(self) -> Seat<F, N>
        ensures { result ≡ self.seat }
    {
        let Worker { seat, .. } = self;
        seat
    }
}

/// The board has failed, and takes no more posts.
#[derive(Drop)]
pub(crate) struct BoardFailed;

// Posts each batch of a round by itself, in the order drawn, until a post is stopped.
fn post_round<T: Turn, F: Shelf + Drop, N: Origin>(
    turn: &T,
    plan: &Plan,
    shared: &Shared<F, N>,
    seat: &mut Seat<F, N>,
    round: &Round,
    planes: &[Outcome; 4],
) -> Result<(), BoardFailed>
    requires admitted { T.admits seat.old.view.share }
    requires owes { Owes shared.now N.start seat.old (drawn_in round.now.batches) }
    requires planes { planes.now ≡ true_planes_in plan.now round.now.batches }
    requires entries { HasTrueEntries plan.now N.start × (length N.start.entries ≡ batch_count plan.now) }
    requires takes { TakesAll N.start }
    ensures owes { OnOk result (Owes shared.now N.start seat.new []) }
    ensures posts { OnOk result (seat.new.view.posts ≡ seat.old.view.posts ++ numbers_in N.start round.now.batches) }
    ensures nones { OnOk result (seat.new.view.nones ≡ seat.old.view.nones) }
    ensures stopped { OnErr result (IsDone shared.now seat.new) }
    ensures share { seat.new.view.share ≡ seat.old.view.share }
{
    for (word, batch) in round.batches.iter().enumerate() {
        let Some(batch) = *batch else { continue };
        let entry = entry_with(plan, batch, planes[word]);
        if let Posted::Stopped = shared.post(turn, seat, &entry) {
            return Err(BoardFailed);
        }
    }
    Ok(())
}

// Simulates the batches of a round together, and posts each.
fn finish_round<T: Turn, F: Shelf + Drop, N: Origin>(
    turn: &T,
    plan: &Plan,
    bench: &Testbench<'_>,
    shared: &Shared<F, N>,
    round: &Round,
    worker: &mut Worker<F, N>,
) -> Result<(), BoardFailed>
    requires admitted { T.admits worker.old.seat.view.share }
    requires owes { Owes shared.now N.start worker.old.seat (drawn_in round.now.batches) }
    requires bench { IsTestbenchFor plan.now bench.now }
    requires simulator { worker.old.simulator ≡ simulator_of bench.now plan.now.settings.ftti }
    requires entries { HasTrueEntries plan.now N.start × (length N.start.entries ≡ batch_count plan.now) }
    requires takes { TakesAll N.start }
    ensures owes { OnOk result (Owes shared.now N.start worker.new.seat []) }
    ensures posts { OnOk result (worker.new.seat.view.posts ≡ worker.old.seat.view.posts ++ numbers_in N.start round.now.batches) }
    ensures nones { OnOk result (worker.new.seat.view.nones ≡ worker.old.seat.view.nones) }
    ensures stopped { OnErr result (IsDone shared.now worker.new.seat) }
    ensures share { worker.new.seat.view.share ≡ worker.old.seat.view.share }
    ensures simulator { worker.new.simulator ≡ worker.old.simulator }
{
    if round.is_empty() {
        return Ok(());
    }
    let planes = simulated_planes(plan, bench, &round.batches, &mut worker.simulator);
    post_round(turn, plan, shared, &mut worker.seat, round, &planes)
}

/// Draws up to four batches, simulates them together and posts each, until a draw has given none and what was drawn is posted,
/// and then looks once; or until a post is stopped.
pub(crate) fn work<T: Turn, F: Shelf + Drop, N: Origin, G: Gate>(
    turn: &T,
    plan: &Plan,
    bench: &Testbench<'_>,
    shared: &Shared<F, N>,
    gate: &G,
    worker: &mut Worker<F, N>,
)
    requires admitted { T.admits worker.old.seat.view.share }
    requires ready { MayDraw shared.now worker.old.seat }
    requires bench { IsTestbenchFor plan.now bench.now }
    requires simulator { worker.old.simulator ≡ simulator_of bench.now plan.now.settings.ftti }
    requires entries { HasTrueEntries plan.now N.start × (length N.start.entries ≡ batch_count plan.now) }
    requires takes { TakesAll N.start }
    ensures done { IsDone shared.now worker.new.seat }
    ensures share { worker.new.seat.view.share ≡ worker.old.seat.view.share }
{
    'rounds: loop {
        let round = draw_round(shared, gate, worker.number, &mut worker.seat);
        if let Err(BoardFailed) = finish_round(turn, plan, bench, shared, &round, worker) {
            return;
        }
        if round.last {
            shared.look(turn, &mut worker.seat);
            return;
        }
    }
}
