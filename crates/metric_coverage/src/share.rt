// Which batches a worker takes.
ghost use Rattle.std.specs.Prelude.{◌≡◌, ◌<◌, ◌≤◌, ◌+◌, ◌*◌, ◌^◌};
ghost use Rattle.metric_coverage.specs.Turns.{batch_of_turn, rounds_for};

use batch_crew::WorkerShare;
use campaign_plan::Plan;

/// The number of batches that are simulated at once.
pub(crate) const WORDS: u32 = 4;

const LANES: u32 = 64;

/// The batch that a worker takes in a turn, from 0.
pub(crate) fn batch_of(share: WorkerShare, turn: u32) -> u32
    requires turn { turn < 2 ^ 26 }
    requires workers { (share.number < share.workers) × (share.workers ≤ 32) }
    ensures { result ≡ batch_of_turn share turn }
{
    turn * share.workers + share.number
}

/// How often four batches are taken at once by each of so many workers.
pub(crate) fn rounds(plan: &Plan, workers: u32) -> u32
    requires workers { (0 < workers) × (workers ≤ 32) }
    ensures rounds { result ≡ rounds_for plan.now workers }
    ensures few { result ≤ 2 ^ 24 }
{
    plan.faults().len().div_ceil(LANES * WORDS * workers)
}
