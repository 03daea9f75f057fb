// The workers, each in a thread, and their planes put together.
ghost use Rattle.std.specs.Prelude.{◌≡◌, ◌<◌, ◌≤◌, ◌%◌, ℕ, All, length, slice_index, slice_index_or};
ghost use Rattle.batch_crew.specs.Crew.{AreReady};
ghost use Rattle.fault_list.specs.Faults.{batches_for};
ghost use Rattle.pair_list.specs.Chosen.{AreFaults, pair_count};
ghost use Rattle.pair_campaign.specs.declared.worker.PairWorker.{PairWorker as Worker};
ghost use Rattle.pair_campaign.specs.PairPlanes.{pair_planes};
ghost use Rattle.pair_campaign.specs.Work.{HasJudged};
ghost use Rattle.testbench.specs.Testbench.{IsTestbenchFor};

use crate::crew::{PairCrew, PairPlanes};
use crate::load::planes_for;
use crate::worker::{PairWorker, judge_round, rounds};
use batch_crew::{Rounds, WorkerShare, work_all};
use campaign_plan::Plan;
use fm_base::Seq;
use pair_list::Pairs;
use room::NoRoom;
use std::alloc::Global;
use std::thread::Threads;
use testbench::Testbench;

// The planes of all pairs of a plan: four in each round.
#[derive(Clone, Copy)]
pub(crate) struct PairRounds<'a> {
    pub(crate) plan: &'a Plan,
    pub(crate) bench: &'a Testbench<'a>,
    pub(crate) pairs: &'a Pairs,
}

impl<'a> Rounds for PairRounds<'a> {
    ghost use Rattle.testbench.specs.Testbench.{IsTestbenchFor};
    ghost use Rattle.pair_list.specs.Chosen.{AreFaults};
    ghost use Rattle.pair_campaign.specs.Work.{HasJudged, rounds_for};

    type Worker = PairWorker;

    ghost is_sound = { λ s. IsTestbenchFor s.plan.now s.bench.now × AreFaults s.plan.now s.pairs.now };

    ghost round_count = { λ s. rounds_for s.pairs.now };

    ghost has_done = { λ s. HasJudged s.plan.now s.bench.now s.pairs.now };

    fn round_count(&self, workers: u32) -> u32 {
        rounds(self.pairs, workers)
    }

    fn hire(&self, alloc: Global, _workers: u32) -> Result<PairWorker, NoRoom> {
        let worker = PairWorker::new(alloc, self.plan, self.bench, planes_for(self.pairs))?;
        Ok(worker)
    }

    fn round(&self, share: WorkerShare, round: u32, worker: &mut PairWorker) {
        judge_round(self.plan, self.bench, self.pairs, share, round, worker);
    }
}

// Takes each plane from the worker that judged it.
fn put_together(workers: &[PairWorker], planes: &mut [u64])
    requires some { 0 < length workers.now }
    requires room { All (λ w. length w.planes.items ≡ length planes.old) workers.now }
    ensures { (q : ℕ) (d : Worker) → q < length planes.old
        → slice_index planes.new q ≡ slice_index (slice_index_or workers.now (q % length workers.now) d).planes.items q }
{
    for q in 0..planes.len() {
        planes[q] = workers[q % workers.len()].planes[q];
    }
}

// Judges all pairs, and puts the planes to their places.
fn judge_all<R: Threads + Sync>(
    rt: &R,
    rounds: &PairRounds<'_>,
    workers: &mut [PairWorker],
    planes: &mut [u64],
)
    requires bench { IsTestbenchFor rounds.now.plan.now rounds.now.bench.now }
    requires pairs { AreFaults rounds.now.plan.now rounds.now.pairs.now }
    requires some { 0 < length workers.old }
    requires few { length workers.old ≤ 32 }
    requires ready { AreReady (HasJudged rounds.now.plan.now rounds.now.bench.now rounds.now.pairs.now) (length workers.old) workers.old }
    requires room { length planes.old ≡ batches_for (pair_count rounds.now.pairs.now) }
    ensures { planes.new ≡ pair_planes rounds.now.plan.now rounds.now.pairs.now }
{
    work_all(rt, rounds, workers);
    put_together(workers, planes);
}

/// Judges each pair with both of its faults at once, in a thread for each worker, and joins them. Worker w of W takes each
/// plane q with q mod W = w, in its own state. It takes no memory.
pub fn judge<R: Threads + Sync>(
    rt: &R,
    plan: &Plan,
    pairs: &Pairs,
    crew: PairCrew<'_>,
) -> PairPlanes
    requires made { crew ≡ record { plan = plan.now; pairs = pairs.now } }
    ensures { result ≡ pair_planes plan.now pairs.now }
{
    let PairCrew {
        bench,
        mut workers,
        mut planes,
        ..
    } = crew;
    let rounds = PairRounds {
        plan,
        bench: &bench,
        pairs,
    };
    judge_all(rt, &rounds, workers.as_mut_slice(), planes.as_mut_slice());
    Seq::from_vec(planes)
}
