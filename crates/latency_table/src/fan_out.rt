// All faults of a plan, shared among workers.
ghost use Rattle.std.specs.Prelude.{◌≡◌, ◌<◌, ◌≤◌, IfOk};
ghost use Rattle.campaign_plan.specs.Analysis.{fault_count};
ghost use Rattle.testbench.specs.Testbench.{IsTestbenchFor};
ghost use Rattle.latency_table.specs.Latency.{IsLatencyFor};
ghost use Rattle.latency_table.specs.Work.{HaveKept};

use crate::latency::Latency;
use crate::worker::{GROUP, LatencyWorker, simulate_round};
use batch_crew::{Rounds, WorkerShare, hired, work_all};
use campaign_plan::Plan;
use room::NoRoom;
use std::alloc::Global;
use std::marker::Brand;
use std::sync::ledger::Blank;
use std::thread::Threads;
use testbench::Testbench;

/// What is kept of all faults of a plan, each simulated alone: a group of 1,024 faults in each round.
#[derive(Clone, Copy)]
pub(crate) struct LatencyRounds<'a> {
    plan: &'a Plan,
    bench: &'a Testbench<'a>,
}

impl<'a> Rounds for LatencyRounds<'a> {
    ghost use Rattle.testbench.specs.Testbench.{IsTestbenchFor};
    ghost use Rattle.latency_table.specs.Work.{HasKept, rounds_for};

    type Worker = LatencyWorker;

    ghost is_sound = { λ s. IsTestbenchFor s.plan.now s.bench.now };

    ghost round_count = { λ s. rounds_for s.plan.now };

    ghost has_done = { λ s. HasKept s.plan.now s.bench.now };

    fn round_count(&self, workers: u32) -> u32 {
        self.plan.faults().len().div_ceil(workers * GROUP as u32)
    }

    fn hire(&self, alloc: Global, workers: u32) -> Result<LatencyWorker, NoRoom> {
        LatencyWorker::new(alloc, self.bench, self.round_count(workers))
    }

    fn round(&self, share: WorkerShare, round: u32, worker: &mut LatencyWorker) {
        simulate_round::<Brand>(self.plan, self.bench, share, round, worker, Blank::new(1));
    }
}

/// Simulates all faults of a plan, each alone, in a thread for each of so many workers. All memory is taken before the threads start.
pub(crate) fn simulated<R: Threads + Sync>(
    rt: &R,
    alloc: Global,
    plan: &Plan,
    bench: &Testbench<'_>,
    workers: u32,
) -> Result<Vec<LatencyWorker>, NoRoom>
    requires bench { IsTestbenchFor plan.now bench.now }
    requires workers { (0 < workers) × (workers ≤ 32) }
    ensures { IfOk result (λ crew. HaveKept plan.now crew.items) }
{
    let rounds = LatencyRounds { plan, bench };
    let mut crew = hired(alloc, &rounds, workers)?;
    work_all(rt, &rounds, crew.as_mut_slice());
    Ok(crew)
}

/// What is kept of fault `i`.
pub(crate) fn latency_of<'a>(plan: &Plan, crew: &'a [LatencyWorker], i: u32) -> &'a Latency
    requires crew { HaveKept plan.now crew.now }
    requires fault { i < fault_count plan.now }
    ensures { IsLatencyFor plan.now i result.now }
{
    let group = i as usize / GROUP;
    let worker = &crew[group % crew.len()];
    let kept = &worker.groups[group / crew.len()];
    &kept.latencies[i as usize % GROUP]
}
