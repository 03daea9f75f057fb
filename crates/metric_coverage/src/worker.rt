// A worker, which simulates its share of the batches and keeps their planes by each reading.
ghost use Rattle.std.specs.Prelude.{◌≡◌, ◌<◌, ◌≤◌, ◌+◌, ◌^◌, ℕ, [], IfOk, List, Some, length, slice_index_or};
ghost use Rattle.circuit.specs.Circuit.{Circuit};
ghost use Rattle.workload.specs.declared.run.Run.{Run};
ghost use Rattle.alarm_points.specs.declared.Points.{Points};
ghost use Rattle.campaign_plan.specs.Batches.{outcome_of};
ghost use Rattle.classifier.specs.Batch.{alone_in};
ghost use Rattle.classifier.specs.Planes.{HasPlanes};
ghost use Rattle.testbench.specs.Testbench.{IsTestbenchFor};
ghost use Rattle.reading_planes.specs.Readings.{AreReadingsOf};
ghost use Rattle.reading_planes.specs.Simulator.{IsSimulatorFor};
ghost use Rattle.metric_coverage.specs.Turns.{HasBatch, HasTurns, ShowsBatch, batch_of_turn, rounds_for, turn_at};
ghost use Rattle.metric_coverage.specs.Work.{HasKept, IsEquippedFor};

use crate::share::{WORDS, batch_of};
use batch_crew::WorkerShare;
use campaign_plan::{Outcome, Plan};
use fault_list::FaultList;
use reading_planes::{Reading, ReadingSimulator};
use room::{NoRoom, filled, push};
use std::alloc::Global;
use std::marker::Model;
use testbench::Testbench;

const NOTHING: Outcome = Outcome {
    danger: 0,
    noticed: 0,
};

/// What is kept of a turn: the planes of its batch by each reading, in order.
#[derive(Drop)]
pub struct Turn {
    pub(crate) planes: Vec<Outcome>,
}

impl Model for Turn {
    ghost use Rattle.std.specs.Prelude.{List};
    ghost use Rattle.campaign_plan.specs.declared.Outcome.{Outcome};

    ghost Value = { List Outcome };

    ghost view = { λ t. t.planes.items };
}

/// What a worker simulates with, and what it keeps of each of its turns.
#[derive(Drop)]
pub struct Worker {
    pub(crate) simulator: ReadingSimulator,
    pub(crate) turns: Vec<Turn>,
}

// Room for so many turns.
fn room_for_turns(alloc: Global, turns: u32, readings: usize) -> Result<Vec<Turn>, NoRoom>
    ensures room { IfOk result (λ kept. length kept.items ≡ turns) }
    ensures wide { IfOk result (λ kept. (turn : ℕ) → turn < turns → length (turn_at kept.items turn) ≡ readings) }
{
    let mut kept = Vec::new(alloc);
    for _ in 0..turns {
        push(
            &mut kept,
            Turn {
                planes: filled(alloc, NOTHING, readings)?,
            },
        )?;
    }
    Ok(kept)
}

impl Worker {
    /// A worker for these readings, with room for so many turns.
    pub(crate) fn new(
        alloc: Global,
        bench: &Testbench<'_>,
        readings: &[Reading],
        turns: u32,
    ) -> Result<Self, NoRoom>
        ensures { IfOk result (IsEquippedFor bench.now readings.now turns) }
    {
        // The simulator comes last, since it has much to give up.
        let turns = room_for_turns(alloc, turns, readings.len())?;
        let simulator = ReadingSimulator::new(alloc, bench, readings)?;
        Ok(Worker { simulator, turns })
    }
}

// The planes of a batch, where these are those of lanes that were loaded with it: bits of lanes that hold no fault are 0.
fn of_batch(faults: &FaultList, batch: u32, loaded: Outcome) -> Outcome
    ensures { (c : Circuit) (points : Points) (ftti : ℕ) (runs : List Run) → HasPlanes c points ftti runs (alone_in faults.now (Some batch)) loaded
        → result ≡ outcome_of c points ftti runs faults.now batch }
{
    let used = faults.used(batch);
    Outcome {
        danger: loaded.danger & used,
        noticed: loaded.noticed & used,
    }
}

// Keeps the planes of a batch by each reading.
fn keep_batch(
    plan: &Plan,
    readings: &[Reading],
    batch: u32,
    found: &[Outcome],
    kept: &mut [Outcome],
)
    requires shown { ShowsBatch plan.now readings.now batch found.now }
    requires room { length kept.old ≡ length readings.now }
    ensures { HasBatch plan.now readings.now batch kept.new }
{
    for r in 0..readings.len() {
        kept[r] = of_batch(plan.faults(), batch, found[r]);
    }
}

// Keeps them as those of a turn.
fn keep_turn(plan: &Plan, readings: &[Reading], batch: u32, found: &[Outcome], turn: &mut Turn)
    requires shown { ShowsBatch plan.now readings.now batch found.now }
    requires room { length turn.old ≡ length readings.now }
    ensures { HasBatch plan.now readings.now batch turn.new }
{
    keep_batch(plan, readings, batch, found, turn.planes.as_mut_slice());
}

// Simulates the batches of four turns.
fn simulate(
    plan: &Plan,
    bench: &Testbench<'_>,
    readings: &[Reading],
    share: WorkerShare,
    turn: u32,
    simulator: &mut ReadingSimulator,
)
    requires bench { IsTestbenchFor plan.now bench.now }
    requires readings { AreReadingsOf plan.now.points readings.now }
    requires turn { turn + 4 ≤ 2 ^ 26 }
    requires workers { (share.number < share.workers) × (share.workers ≤ 32) }
    requires made { IsSimulatorFor bench.now readings.now simulator.old }
    ensures made { IsSimulatorFor bench.now readings.now simulator.new }
    ensures shown { (word : ℕ) → word < 4 → ShowsBatch plan.now readings.now (batch_of_turn share (turn + word)) (slice_index_or simulator.new.planes.items word []) }
{
    let ftti = plan.settings().ftti;
    let first = batch_of(share, turn);
    simulator.batches(bench, ftti, readings, plan.faults(), first, share.workers);
}

// Keeps what was found in four turns.
fn keep_turns(
    plan: &Plan,
    readings: &[Reading],
    share: WorkerShare,
    turn: u32,
    simulator: &ReadingSimulator,
    turns: &mut [Turn],
)
    requires turn { turn + 4 ≤ 2 ^ 26 }
    requires room { turn + 4 ≤ length turns.old }
    requires workers { (share.number < share.workers) × (share.workers ≤ 32) }
    requires words { length simulator.now.planes.items ≡ 4 }
    requires shown { (word : ℕ) → word < 4 → ShowsBatch plan.now readings.now (batch_of_turn share (turn + word)) (slice_index_or simulator.now.planes.items word []) }
    requires turns { HasTurns plan.now readings.now share (length turns.old) turn turns.old }
    ensures { HasTurns plan.now readings.now share (length turns.old) (turn + 4) turns.new }
{
    for word in 0..WORDS {
        let batch = batch_of(share, turn + word);
        let found = simulator.planes(word);
        keep_turn(
            plan,
            readings,
            batch,
            found,
            &mut turns[(turn + word) as usize],
        );
    }
}

/// Simulates the four batches of a round of a share, and keeps their planes by each reading.
pub(crate) fn simulate_round(
    plan: &Plan,
    bench: &Testbench<'_>,
    readings: &[Reading],
    share: WorkerShare,
    round: u32,
    worker: &mut Worker,
)
    requires bench { IsTestbenchFor plan.now bench.now }
    requires readings { AreReadingsOf plan.now.points readings.now }
    requires workers { (share.number < share.workers) × (share.workers ≤ 32) }
    requires round { round < rounds_for plan.now share.workers }
    requires few { round < 2 ^ 24 }
    requires before { HasKept plan.now bench.now readings.now share round worker.old }
    ensures { HasKept plan.now bench.now readings.now share (round + 1) worker.new }
{
    let turn = WORDS * round;
    simulate(plan, bench, readings, share, turn, &mut worker.simulator);
    let turns = worker.turns.as_mut_slice();
    keep_turns(plan, readings, share, turn, &worker.simulator, turns);
}
