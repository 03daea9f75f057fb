// A worker, which simulates its share of the batches and adds up what they show.
ghost use Rattle.std.specs.Prelude.{◌≡◌, ◌<◌, ◌≤◌, ◌+◌, ◌^◌, ℕ, [], IfOk, length, slice_index_or};
ghost use Rattle.batch_crew.specs.declared.rounds.WorkerShare.{WorkerShare as Share};
ghost use Rattle.campaign_plan.specs.Analysis.{Analysis};
ghost use Rattle.testbench.specs.Testbench.{IsTestbenchFor};
ghost use Rattle.reading_planes.specs.Readings.{AreReadingsOf};
ghost use Rattle.reading_planes.specs.Simulator.{IsSimulatorFor};
ghost use Rattle.metric_breakdown.specs.Turns.{HasSums, ShowsBatch, batch_of_turn};
ghost use Rattle.metric_breakdown.specs.Work.{HasAdded};

use crate::share::{WORDS, batch_of};
use crate::sums::{add_turn, no_sums};
use batch_crew::WorkerShare;
use campaign_plan::Plan;
use metric_sums::Sums;
use reading_planes::{Reading, ReadingSimulator};
use room::NoRoom;
use std::alloc::Global;
use testbench::Testbench;

/// What a worker simulates with, and its sums by each reading.
#[derive(Drop)]
pub(crate) struct Worker {
    pub(crate) simulator: ReadingSimulator,
    pub(crate) sums: Vec<Sums>,
}

impl Worker {
    /// A worker for these readings, with nothing added up yet.
    pub(crate) fn new(
        alloc: Global,
        bench: &Testbench<'_>,
        readings: &[Reading],
    ) -> Result<Self, NoRoom>
        ensures { IfOk result (λ worker. (p : Analysis) (share : Share) → HasAdded p bench.now readings.now share 0 worker) }
    {
        // The simulator comes last, since it has much to give up.
        let sums = no_sums(alloc, readings.len())?;
        let simulator = ReadingSimulator::new(alloc, bench, readings)?;
        Ok(Worker { simulator, sums })
    }
}

// Simulates the batches of four turns.
fn simulate(
    plan: &Plan,
    bench: &Testbench<'_>,
    readings: &[Reading],
    share: WorkerShare,
    turn: u32,
    simulator: &mut ReadingSimulator,
)
    requires bench { IsTestbenchFor plan.now bench.now }
    requires readings { AreReadingsOf plan.now.points readings.now }
    requires turn { turn + 4 ≤ 2 ^ 26 }
    requires workers { (share.number < share.workers) × (share.workers ≤ 32) }
    requires made { IsSimulatorFor bench.now readings.now simulator.old }
    ensures made { IsSimulatorFor bench.now readings.now simulator.new }
    ensures shown { (word : ℕ) → word < 4 → ShowsBatch plan.now readings.now (batch_of_turn share (turn + word)) (slice_index_or simulator.new.planes.items word []) }
{
    let ftti = plan.settings().ftti;
    let first = batch_of(share, turn);
    simulator.batches(bench, ftti, readings, plan.faults(), first, share.workers);
}

// Adds what the batches of four turns show by each reading.
fn add_turns(
    plan: &Plan,
    readings: &[Reading],
    share: WorkerShare,
    turn: u32,
    simulator: &ReadingSimulator,
    sums: &mut [Sums],
)
    requires turn { turn + 4 ≤ 2 ^ 26 }
    requires workers { (share.number < share.workers) × (share.workers ≤ 32) }
    requires words { length simulator.now.planes.items ≡ 4 }
    requires shown { (word : ℕ) → word < 4 → ShowsBatch plan.now readings.now (batch_of_turn share (turn + word)) (slice_index_or simulator.now.planes.items word []) }
    requires sums { HasSums plan.now readings.now share turn sums.old }
    ensures { HasSums plan.now readings.now share (turn + 4) sums.new }
{
    for word in 0..WORDS {
        let found = simulator.planes(word);
        add_turn(plan, readings, share, turn + word, found, sums);
    }
}

/// Simulates the four batches of a round of a share, and adds up what they show by each reading.
pub(crate) fn add_round(
    plan: &Plan,
    bench: &Testbench<'_>,
    readings: &[Reading],
    share: WorkerShare,
    round: u32,
    worker: &mut Worker,
)
    requires bench { IsTestbenchFor plan.now bench.now }
    requires readings { AreReadingsOf plan.now.points readings.now }
    requires workers { (share.number < share.workers) × (share.workers ≤ 32) }
    requires few { round < 2 ^ 24 }
    requires before { HasAdded plan.now bench.now readings.now share round worker.old }
    ensures { HasAdded plan.now bench.now readings.now share (round + 1) worker.new }
{
    let turn = WORDS * round;
    simulate(plan, bench, readings, share, turn, &mut worker.simulator);
    let sums = worker.sums.as_mut_slice();
    add_turns(plan, readings, share, turn, &worker.simulator, sums);
}
