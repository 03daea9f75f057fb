// A worker, and the planes that it judges.
ghost use Rattle.std.specs.Prelude.{◌≡◌, ◌+◌, ◌*◌, ◌<◌, ◌≤◌, ◌^◌, ℕ, IfOk, length, slice_index};
ghost use Rattle.fault_list.specs.Faults.{batches_for};
ghost use Rattle.campaign_plan.specs.Analysis.{Analysis};
ghost use Rattle.classifier.specs.Simulator.{simulator_of};
ghost use Rattle.testbench.specs.Testbench.{IsTestbenchFor};
ghost use Rattle.pair_list.specs.Chosen.{AreFaults, pair_count};
ghost use Rattle.pair_campaign.specs.PairPlanes.{pair_plane};
ghost use Rattle.pair_campaign.specs.Work.{HasJudged, IsEquippedFor, ShowPlanes, ShowsPlane, rounds_for};

use crate::load::{lists_of, planes_for, used_lanes};
use batch_crew::WorkerShare;
use campaign_plan::{Outcome, Plan};
use classifier::Simulator;
use pair_list::Pairs;
use room::{NoRoom, filled};
use std::alloc::Global;
use testbench::Testbench;

const WORDS: u32 = 4;

/// What a worker simulates with, and the planes that it judges: each at its own place, with room for those of the others.
#[derive(Drop)]
pub struct PairWorker {
    pub(crate) simulator: Simulator,
    pub(crate) planes: Vec<u64>,
}

impl PairWorker {
    /// A worker with room for so many planes.
    pub(crate) fn new(
        alloc: Global,
        plan: &Plan,
        bench: &Testbench<'_>,
        planes: u32,
    ) -> Result<PairWorker, NoRoom>
        ensures { IfOk result (λ worker. IsEquippedFor plan.now bench.now planes worker) }
    {
        // The simulator comes last, since it has much to give up.
        let planes = filled(alloc, 0, planes as usize)?;
        let simulator = Simulator::new(alloc, bench, plan.settings().ftti)?;
        Ok(PairWorker { simulator, planes })
    }
}

// What the pairs of four planes are found to be, in each word those of one plane: of the first, and of each `apart` further.
fn outcomes_of(
    plan: &Plan,
    bench: &Testbench<'_>,
    pairs: &Pairs,
    first: u32,
    apart: u32,
    simulator: &mut Simulator,
) -> [Outcome; 4]
    requires bench { IsTestbenchFor plan.now bench.now }
    requires pairs { AreFaults plan.now pairs.now }
    requires few { first + 4 * apart < 2 ^ 32 }
    requires simulator { simulator.old ≡ simulator_of bench.now plan.now.settings.ftti }
    ensures shown { ShowPlanes plan.now pairs.now first apart result }
    ensures same { simulator.new ≡ simulator.old }
{
    let lists = lists_of(plan, pairs, first, apart);
    simulator.lists(bench, &lists)
}

// Puts a plane to its place, where there is such a plane.
fn keep(pairs: &Pairs, plane: u32, found: Outcome, worker: &mut PairWorker)
    requires room { length worker.old.planes.items ≡ batches_for (pair_count pairs.now) }
    ensures simulator { worker.new.simulator ≡ worker.old.simulator }
    ensures room { length worker.new.planes.items ≡ batches_for (pair_count pairs.now) }
    ensures right { (p : Analysis) (q : ℕ) → ShowsPlane p pairs.now plane found
        → slice_index worker.old.planes.items q ≡ pair_plane p pairs.now q → slice_index worker.new.planes.items q ≡ pair_plane p pairs.now q }
    ensures own { (p : Analysis) → ShowsPlane p pairs.now plane found → plane < batches_for (pair_count pairs.now)
        → slice_index worker.new.planes.items plane ≡ pair_plane p pairs.now plane }
{
    if plane < planes_for(pairs) {
        worker.planes[plane as usize] = found.danger & used_lanes(pairs, plane);
    }
}

// Puts the planes of a round to their places: the first, and each `apart` further.
fn keep_planes(pairs: &Pairs, first: u32, apart: u32, found: &[Outcome; 4], worker: &mut PairWorker)
    requires few { first + 4 * apart < 2 ^ 32 }
    requires room { length worker.old.planes.items ≡ batches_for (pair_count pairs.now) }
    ensures simulator { worker.new.simulator ≡ worker.old.simulator }
    ensures room { length worker.new.planes.items ≡ batches_for (pair_count pairs.now) }
    ensures right { (p : Analysis) (q : ℕ) → ShowPlanes p pairs.now first apart found.now
        → slice_index worker.old.planes.items q ≡ pair_plane p pairs.now q → slice_index worker.new.planes.items q ≡ pair_plane p pairs.now q }
    ensures own { (p : Analysis) (word : ℕ) → ShowPlanes p pairs.now first apart found.now
        → word < 4 → first + word * apart < batches_for (pair_count pairs.now)
        → slice_index worker.new.planes.items (first + word * apart) ≡ pair_plane p pairs.now (first + word * apart) }
{
    for word in 0..WORDS {
        keep(pairs, first + word * apart, found[word as usize], worker);
    }
}

/// How often four planes are taken at once by each of so many workers.
pub(crate) fn rounds(pairs: &Pairs, workers: u32) -> u32
    requires workers { (0 < workers) × (workers ≤ 32) }
    ensures rounds { result ≡ rounds_for pairs.now workers }
    ensures few { result ≤ 2 ^ 24 }
{
    planes_for(pairs).div_ceil(WORDS * workers)
}

/// Judges the four planes of a round of a share.
pub(crate) fn judge_round(
    plan: &Plan,
    bench: &Testbench<'_>,
    pairs: &Pairs,
    share: WorkerShare,
    round: u32,
    worker: &mut PairWorker,
)
    requires bench { IsTestbenchFor plan.now bench.now }
    requires pairs { AreFaults plan.now pairs.now }
    requires share { (share.number < share.workers) × (share.workers ≤ 32) }
    requires few { round < 2 ^ 24 }
    requires before { HasJudged plan.now bench.now pairs.now share round worker.old }
    ensures { HasJudged plan.now bench.now pairs.now share (round + 1) worker.new }
{
    let WorkerShare { number, workers } = share;
    let first = round * (WORDS * workers) + number;
    let found = outcomes_of(plan, bench, pairs, first, workers, &mut worker.simulator);
    keep_planes(pairs, first, workers, &found, worker);
}
