// The workers, each in a thread, and their sums added up.
ghost use Rattle.std.specs.Prelude.{◌<◌, ◌≤◌, IfOk, length};
ghost use Rattle.batch_crew.specs.Crew.{AreReady, HaveWorked};
ghost use Rattle.circuit.specs.Order.{IsOrder};
ghost use Rattle.campaign_plan.specs.Kept.{IsPlan};
ghost use Rattle.testbench.specs.Testbench.{IsTestbenchFor};
ghost use Rattle.reading_planes.specs.Readings.{AreReadingsOf};
ghost use Rattle.metric_breakdown.specs.Text.{AreReadingSums};
ghost use Rattle.metric_breakdown.specs.Turns.{HaveSums, rounds_for, turns_for};
ghost use Rattle.metric_breakdown.specs.Work.{HasAdded};

use crate::share::rounds;
use crate::sums::{add_sums, no_sums};
use crate::worker::{Worker, add_round};
use batch_crew::{Rounds, WorkerShare, hired, work_all};
use campaign_plan::Plan;
use metric_sums::Sums;
use netlist_levels::Order;
use reading_planes::Reading;
use room::NoRoom;
use std::alloc::Global;
use std::thread::Threads;
use testbench::Testbench;

// The sums by each of some readings of a plan: four batches in each round.
#[derive(Clone, Copy)]
struct ReadingRounds<'a> {
    plan: &'a Plan,
    bench: &'a Testbench<'a>,
    readings: &'a [Reading],
}

impl<'a> Rounds for ReadingRounds<'a> {
    ghost use Rattle.std.specs.Prelude.{◌≡◌};
    ghost use Rattle.testbench.specs.Testbench.{IsTestbenchFor};
    ghost use Rattle.reading_planes.specs.Readings.{AreReadingsOf};
    ghost use Rattle.metric_breakdown.specs.Turns.{rounds_for};
    ghost use Rattle.metric_breakdown.specs.Work.{HasAdded};

    type Worker = Worker;

    ghost is_sound = { λ s. IsTestbenchFor s.plan.now s.bench.now × AreReadingsOf s.plan.now.points s.readings.now };

    ghost round_count = { λ s. rounds_for s.plan.now };

    ghost has_done = { λ s. HasAdded s.plan.now s.bench.now s.readings.now };

    fn round_count(&self, workers: u32) -> u32 {
        rounds(self.plan, workers)
    }

    fn hire(&self, alloc: Global, _workers: u32) -> Result<Worker, NoRoom> {
        let worker = Worker::new(alloc, self.bench, self.readings)?;
        Ok(worker)
    }

    fn round(&self, share: WorkerShare, round: u32, worker: &mut Worker) {
        add_round(self.plan, self.bench, self.readings, share, round, worker);
    }
}

// Adds up the sums of all workers.
fn gather(rounds: &ReadingRounds<'_>, workers: &[Worker], sums: &mut [Sums])
    requires plan { IsPlan rounds.now.plan.now }
    requires some { 0 < length workers.now }
    requires worked { HaveWorked (HasAdded rounds.now.plan.now rounds.now.bench.now rounds.now.readings.now) (rounds_for rounds.now.plan.now) workers.now }
    requires none { HaveSums rounds.now.plan.now rounds.now.readings.now (length workers.now) (turns_for rounds.now.plan.now (length workers.now)) 0 sums.old }
    ensures { AreReadingSums rounds.now.plan.now rounds.now.readings.now sums.new }
{
    for worker in workers {
        add_sums(worker.sums.as_slice(), sums);
    }
}

// The sums by each reading, from workers that have added up nothing yet.
fn sums_by_crew<R: Threads + Sync>(
    rt: &R,
    rounds: &ReadingRounds<'_>,
    workers: &mut [Worker],
    sums: &mut [Sums],
)
    requires plan { IsPlan rounds.now.plan.now }
    requires bench { IsTestbenchFor rounds.now.plan.now rounds.now.bench.now }
    requires readings { AreReadingsOf rounds.now.plan.now.points rounds.now.readings.now }
    requires some { 0 < length workers.old }
    requires few { length workers.old ≤ 32 }
    requires ready { AreReady (HasAdded rounds.now.plan.now rounds.now.bench.now rounds.now.readings.now) (length workers.old) workers.old }
    requires none { HaveSums rounds.now.plan.now rounds.now.readings.now (length workers.old) (turns_for rounds.now.plan.now (length workers.old)) 0 sums.old }
    ensures { AreReadingSums rounds.now.plan.now rounds.now.readings.now sums.new }
{
    work_all(rt, rounds, workers);
    gather(rounds, workers, sums);
}

/// The five sums by each of these readings of a plan, in order. Each fault is simulated once, in a thread for each of 1 to 32 workers.
pub(crate) fn reading_sums<R: Threads + Sync>(
    rt: &R,
    alloc: Global,
    plan: &Plan,
    order: &Order,
    readings: &[Reading],
    workers: u32,
) -> Result<Vec<Sums>, NoRoom>
    requires plan { IsPlan plan.now }
    requires order { IsOrder plan.now.circuit order.now }
    requires readings { AreReadingsOf plan.now.points readings.now }
    requires workers { (0 < workers) × (workers ≤ 32) }
    ensures { IfOk result (λ sums. AreReadingSums plan.now readings.now sums.items) }
{
    let bench = Testbench::of_plan(alloc, plan, order)?;
    let rounds = ReadingRounds {
        plan,
        bench: &bench,
        readings,
    };
    let mut crew = hired(alloc, &rounds, workers)?;
    let mut sums = no_sums(alloc, readings.len())?;
    sums_by_crew(rt, &rounds, crew.as_mut_slice(), sums.as_mut_slice());
    Ok(sums)
}
