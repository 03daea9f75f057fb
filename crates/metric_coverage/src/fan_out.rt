// The workers, each in a thread.
ghost use Rattle.std.specs.Prelude.{◌≡◌, ◌<◌, ◌≤◌, IfOk};
ghost use Rattle.testbench.specs.Testbench.{IsTestbenchFor};
ghost use Rattle.reading_planes.specs.Readings.{AreReadingsOf};
ghost use Rattle.metric_coverage.specs.Work.{HaveKept};

use crate::share::{WORDS, rounds};
use crate::worker::{Worker, simulate_round};
use batch_crew::{Rounds, WorkerShare, hired, work_all};
use campaign_plan::Plan;
use reading_planes::Reading;
use room::NoRoom;
use std::alloc::Global;
use std::thread::Threads;
use testbench::Testbench;

/// The planes of all batches by each of some readings of a plan: four batches in each round.
#[derive(Clone, Copy)]
pub(crate) struct PlaneRounds<'a> {
    plan: &'a Plan,
    bench: &'a Testbench<'a>,
    readings: &'a [Reading],
}

impl<'a> Rounds for PlaneRounds<'a> {
    ghost use Rattle.testbench.specs.Testbench.{IsTestbenchFor};
    ghost use Rattle.reading_planes.specs.Readings.{AreReadingsOf};
    ghost use Rattle.metric_coverage.specs.Turns.{rounds_for};
    ghost use Rattle.metric_coverage.specs.Work.{HasKept};

    type Worker = Worker;

    ghost is_sound = { λ s. IsTestbenchFor s.plan.now s.bench.now × AreReadingsOf s.plan.now.points s.readings.now };

    ghost round_count = { λ s. rounds_for s.plan.now };

    ghost has_done = { λ s. HasKept s.plan.now s.bench.now s.readings.now };

    fn round_count(&self, workers: u32) -> u32 {
        rounds(self.plan, workers)
    }

    fn hire(&self, alloc: Global, workers: u32) -> Result<Worker, NoRoom> {
        let turns = WORDS * self.round_count(workers);
        let worker = Worker::new(alloc, self.bench, self.readings, turns)?;
        Ok(worker)
    }

    fn round(&self, share: WorkerShare, round: u32, worker: &mut Worker) {
        simulate_round(self.plan, self.bench, self.readings, share, round, worker);
    }
}

/// Simulates all faults of a plan, each alone, in a thread for each of so many workers, and keeps the planes of their batches by each of
/// these readings. All memory is taken before the threads start.
pub(crate) fn simulated<R: Threads + Sync>(
    rt: &R,
    alloc: Global,
    plan: &Plan,
    bench: &Testbench<'_>,
    readings: &[Reading],
    workers: u32,
) -> Result<Vec<Worker>, NoRoom>
    requires bench { IsTestbenchFor plan.now bench.now }
    requires readings { AreReadingsOf plan.now.points readings.now }
    requires workers { (0 < workers) × (workers ≤ 32) }
    ensures { IfOk result (λ crew. HaveKept plan.now readings.now crew.items) }
{
    let rounds = PlaneRounds {
        plan,
        bench,
        readings,
    };
    let mut crew = hired(alloc, &rounds, workers)?;
    work_all(rt, &rounds, crew.as_mut_slice());
    Ok(crew)
}
