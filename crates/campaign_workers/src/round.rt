// What a worker draws before it simulates.
ghost use Rattle.std.specs.Prelude.{◌≡◌, ◌<◌, ◌++◌, [], true, false, length};
ghost use Rattle.claim_counter.specs.Crews.{MayDraw};
ghost use Rattle.campaign_workers.specs.Rounds.{drawn_in, numbers_in, Owes};

use campaign_board::{Origin, Seat, Shared};
use fm_shelf::shelf::Shelf;
use worker_gate::Gate;

/// Up to four batches, in the order drawn, which are simulated together.
#[derive(Drop)]
pub(crate) struct Round {
    pub(crate) batches: [Option<u32>; 4],
    /// A draw gave None, so there is nothing more to draw.
    pub(crate) last: bool,
}

impl Round {
    pub(crate) fn is_empty(&self) -> bool
        ensures { result ≡ true → drawn_in self.now.batches ≡ [] }
    {
        self.batches.iter().all(|batch| batch.is_none())
    }
}

/// Draws up to four batches, and tells the gate after each draw. It draws no more once a draw gave None.
pub(crate) fn draw_round<F: Shelf + Drop, N: Origin, G: Gate>(
    shared: &Shared<F, N>,
    gate: &G,
    worker: u32,
    seat: &mut Seat<F, N>,
) -> Round
    requires ready { MayDraw shared.now seat.old }
    ensures owes { Owes shared.now N.start seat.new (drawn_in result.batches) }
    ensures claims { seat.new.view.claims ≡ seat.old.view.claims ++ numbers_in N.start result.batches }
    ensures last { result.last ≡ true → 0 < seat.new.view.nones }
    ensures more { result.last ≡ false → seat.new.view.nones ≡ 0 }
    // All four words get a batch as long as there are so many.
    ensures full { result.last ≡ false → length (drawn_in result.batches) ≡ 4 }
    ensures share { seat.new.view.share ≡ seat.old.view.share }
{
    let mut batches = [None; 4];
    for word in 0..4 {
        let Some(batch) = shared.draw(seat) else {
            return Round {
                batches,
                last: true,
            };
        };
        gate.drawn(worker, batch);
        batches[word] = Some(batch);
    }
    Round {
        batches,
        last: false,
    }
}
