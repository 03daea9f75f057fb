// What workers do in rounds.
ghost use Rattle.std.specs.Prelude.{◌≡◌, ◌<◌, ◌≤◌, ◌+◌, ◌^◌, ℕ, IfOk};
ghost use Rattle.batch_crew.specs.Crew.{share_of};

use room::NoRoom;
use std::alloc::Global;

/// The share of one of several workers. Of work in numbered pieces it takes each whose number leaves that of the worker as its
/// remainder: worker w of W takes piece r * W + w in its round r.
#[derive(Clone, Copy, Debug, PartialEq, Eq)]
pub struct WorkerShare {
    /// The number of the worker, from 0.
    pub number: u32,
    /// How many workers there are: 1 to 32.
    pub workers: u32,
}

/// Work that is shared in rounds. Each worker keeps what its own rounds have found, and reads what the others read; so none waits for
/// another one.
pub trait Rounds {
    ghost use Rattle.batch_crew.specs.declared.rounds.WorkerShare.{WorkerShare as Share};

    /// What a worker works with, and what it keeps.
    type Worker: Drop;

    // what each round may count on
    ghost is_sound: { Self → Type 0 };

    // how many rounds each of so many workers does
    ghost round_count: { Self → (workers : ℕ) → ℕ };

    // the worker of a share has done so many of its rounds
    ghost has_done: { Self → Share → (rounds : ℕ) → Self.Worker → Type 0 };

    /// How many rounds each of so many workers does.
    fn round_count(&self, workers: u32) -> u32
        requires workers { (0 < workers) × (workers ≤ 32) }
        ensures count { result ≡ round_count self.now workers }
        ensures few { result ≤ 2 ^ 24 };

    /// One of so many workers, which has done nothing yet. All memory that its rounds take is taken here.
    fn hire(&self, alloc: Global, workers: u32) -> Result<Self::Worker, NoRoom>
        requires sound { is_sound self.now }
        requires workers { (0 < workers) × (workers ≤ 32) }
        ensures { IfOk result (λ worker. (number : ℕ) → has_done self.now (share_of number workers) 0 worker) };

    /// Does a round, from 0.
    fn round(&self, share: WorkerShare, round: u32, worker: &mut Self::Worker)
        requires sound { is_sound self.now }
        requires share { (share.number < share.workers) × (share.workers ≤ 32) }
        requires round { round < round_count self.now share.workers }
        requires few { round < 2 ^ 24 }
        requires before { has_done self.now share round worker.old }
        ensures after { has_done self.now share (round + 1) worker.new };
}
