// A worker, and the faults that it simulates.
ghost use Rattle.std.specs.Prelude.{◌≡◌, ◌+◌, ◌*◌, ◌<◌, ◌≤◌, ◌^◌, ℕ, IfOk, length};
ghost use Rattle.testbench.specs.Testbench.{IsTestbenchFor};
ghost use Rattle.latency_table.specs.Latency.{IsLatencyFor, latency_at};
ghost use Rattle.campaign_plan.specs.Analysis.{fault_count};
ghost use Rattle.fault_runs.specs.Draw.{IsDrawFor};
ghost use Rattle.fault_runs.specs.Whole.{ArePathsTo};
ghost use Rattle.latency_table.specs.Work.{HasKept, IsEquippedFor, group_at, rounds_for};

use crate::latency::{Latency, NOTHING};
use crate::runs::follow_runs;
use batch_crew::WorkerShare;
use campaign_plan::Plan;
use fault_runs::{FaultDraw, PointPaths};
use fm_base::Steps;
use room::{NoRoom, filled, push};
use std::alloc::Global;
use std::marker::Model;
use std::sync::ledger::{Blank, Ledger};
use testbench::Testbench;

/// The number of batches of a group.
pub(crate) const BATCHES: u32 = 16;

/// The number of faults of a group, which are drawn at once.
pub(crate) const GROUP: usize = 1024;

/// What is kept of the faults of a group, in the order of the list.
#[derive(Drop)]
pub struct Group {
    pub(crate) latencies: Vec<Latency>,
}

impl Model for Group {
    ghost use Rattle.std.specs.Prelude.{List};
    ghost use Rattle.latency_table.specs.declared.latency.Latency.{Latency};

    ghost Value = { List Latency };

    ghost view = { λ g. g.latencies.items };
}

/// What a worker simulates with, and what it keeps of the faults of each of its rounds.
#[derive(Drop)]
pub struct LatencyWorker {
    pub(crate) draw: FaultDraw,
    pub(crate) paths: PointPaths,
    pub(crate) groups: Vec<Group>,
}

// Room for so many groups.
fn groups_for(alloc: Global, rounds: u32) -> Result<Vec<Group>, NoRoom>
    ensures count { IfOk result (λ groups. length groups.items ≡ rounds) }
    ensures room { IfOk result (λ groups. (round : ℕ) → round < rounds → length (group_at groups.items round) ≡ 1024) }
{
    let mut groups = Vec::new(alloc);
    for _ in 0..rounds {
        push(
            &mut groups,
            Group {
                latencies: filled(alloc, NOTHING, GROUP)?,
            },
        )?;
    }
    Ok(groups)
}

impl LatencyWorker {
    /// A worker with room for so many rounds.
    pub(crate) fn new(
        alloc: Global,
        bench: &Testbench<'_>,
        rounds: u32,
    ) -> Result<LatencyWorker, NoRoom>
        ensures { IfOk result (IsEquippedFor bench.now rounds) }
    {
        // What has least to give up comes first, and the draw last.
        let groups = groups_for(alloc, rounds)?;
        let paths = PointPaths::new(alloc, bench)?;
        let draw = FaultDraw::new(alloc, bench, GROUP as u32)?;
        Ok(LatencyWorker {
            draw,
            paths,
            groups,
        })
    }
}

// Simulates the batches of a group, the first of them being this one, and keeps what is found of each of their faults.
fn simulate_group<L: Ledger>(
    plan: &Plan,
    bench: &Testbench<'_>,
    first: u32,
    paths: &PointPaths,
    draw: &mut FaultDraw,
    group: &mut Group,
    steps: &mut Steps<L>,
)
    requires bench { IsTestbenchFor plan.now bench.now }
    requires few { first + 16 < 2 ^ 32 }
    requires paths { ArePathsTo bench.now.circuit bench.now.points paths.now }
    requires made { IsDrawFor bench.now draw.old }
    requires size { length draw.old.faults.items ≡ 1024 }
    requires room { length group.old ≡ 1024 }
    ensures made { IsDrawFor bench.now draw.new }
    ensures size { length draw.new.faults.items ≡ 1024 }
    ensures room { length group.new ≡ 1024 }
    ensures kept { (lane : ℕ) → lane < 1024 → first * 64 + lane < fault_count plan.now → IsLatencyFor plan.now (first * 64 + lane) (latency_at group.new lane) }
{
    draw.load_batches(plan.faults(), first, 1);
    let latencies = group.latencies.as_mut_slice();
    follow_runs(bench, plan.settings().ftti, paths, draw, latencies, steps);
}

// The first batch of the group of a round of a share.
fn first_batch(plan: &Plan, share: WorkerShare, round: u32) -> u32
    requires share { (share.number < share.workers) × (share.workers ≤ 32) }
    requires round { round < rounds_for plan.now share.workers }
    requires few { round < 2 ^ 24 }
    ensures batch { result ≡ (round * share.workers + share.number) * 16 }
    ensures few { result + 16 < 2 ^ 32 }
{
    let _few = plan.faults().len();
    (round * share.workers + share.number) * BATCHES
}

/// Simulates the group of a round of a share, and keeps what is found of each of its faults.
pub(crate) fn simulate_round<L: Ledger>(
    plan: &Plan,
    bench: &Testbench<'_>,
    share: WorkerShare,
    round: u32,
    worker: &mut LatencyWorker,
    blank: Blank,
)
    requires bench { IsTestbenchFor plan.now bench.now }
    requires share { (share.number < share.workers) × (share.workers ≤ 32) }
    requires round { round < rounds_for plan.now share.workers }
    requires few { round < 2 ^ 24 }
    requires before { HasKept plan.now bench.now share round worker.old }
    requires blank { (blank.name ≡ L.name) × (blank.parts ≡ L.parts) × (0 < blank.parts) }
    ensures { HasKept plan.now bench.now share (round + 1) worker.new }
{
    let mut steps: Steps<L> = Steps::fresh(blank);
    let first = first_batch(plan, share, round);
    simulate_group(
        plan,
        bench,
        first,
        &worker.paths,
        &mut worker.draw,
        &mut worker.groups[round as usize],
        &mut steps,
    );
}
