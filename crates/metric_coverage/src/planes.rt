// The planes of all batches by each reading.
ghost use Rattle.std.specs.Prelude.{◌≡◌, ◌<◌, ◌≤◌, IfOk, length};
ghost use Rattle.campaign_plan.specs.Analysis.{batch_count};
ghost use Rattle.campaign_plan.specs.Batches.{true_planes};
ghost use Rattle.testbench.specs.Testbench.{IsTestbenchFor};
ghost use Rattle.reading_planes.specs.Folded.{reading_at};
ghost use Rattle.reading_planes.specs.Readings.{AreReadingsOf, plan_by};
ghost use Rattle.metric_coverage.specs.Planes.{ArePlaneTables, IsPlaneTable, table_at};
ghost use Rattle.metric_coverage.specs.Work.{HaveKept};

use crate::fan_out::simulated;
use crate::worker::Worker;
use campaign_plan::{Outcome, Plan};
use reading_planes::Reading;
use room::{NoRoom, push};
use std::alloc::Global;
use std::marker::Model;
use std::thread::Threads;
use testbench::Testbench;

/// The planes of each batch of a plan by a reading, in order.
#[derive(Drop)]
pub struct BatchPlanes {
    planes: Vec<Outcome>,
}

impl Model for BatchPlanes {
    ghost use Rattle.std.specs.Prelude.{List};
    ghost use Rattle.campaign_plan.specs.declared.Outcome.{Outcome};

    ghost Value = { List Outcome };

    ghost view = { λ t. t.planes.items };
}

impl BatchPlanes {
    /// The planes, by the numbers of the batches.
    pub fn outcomes(&self) -> &[Outcome]
        ensures { result.now ≡ self.now }
    {
        self.planes.as_slice()
    }
}

/// The planes of each batch by reading `r` of these.
pub(crate) fn planes_by(tables: &[BatchPlanes], r: usize) -> &[Outcome]
    requires { r < length tables.now }
    ensures { result.now ≡ table_at tables.now r }
{
    tables[r].outcomes()
}

// The planes of a batch by a reading, which the worker has kept that took the batch.
fn planes_of(
    plan: &Plan,
    readings: &[Reading],
    crew: &[Worker],
    reading: usize,
    batch: u32,
) -> Outcome
    requires crew { HaveKept plan.now readings.now crew.now }
    requires reading { reading < length readings.now }
    requires batch { batch < batch_count plan.now }
    ensures { result ≡ true_planes (plan_by plan.now (reading_at readings.now reading)) batch }
{
    let worker = &crew[batch as usize % crew.len()];
    let turn = &worker.turns[batch as usize / crew.len()];
    turn.planes[reading]
}

// The planes of all batches by a reading.
fn table_of(
    alloc: Global,
    plan: &Plan,
    readings: &[Reading],
    crew: &[Worker],
    reading: usize,
) -> Result<BatchPlanes, NoRoom>
    requires crew { HaveKept plan.now readings.now crew.now }
    requires reading { reading < length readings.now }
    ensures { IfOk result (IsPlaneTable (plan_by plan.now (reading_at readings.now reading))) }
{
    let mut planes = Vec::new(alloc);
    for batch in 0..plan.batches() {
        push(&mut planes, planes_of(plan, readings, crew, reading, batch))?;
    }
    Ok(BatchPlanes { planes })
}

// The same by each reading.
fn tables_of(
    alloc: Global,
    plan: &Plan,
    readings: &[Reading],
    crew: &[Worker],
) -> Result<Vec<BatchPlanes>, NoRoom>
    requires crew { HaveKept plan.now readings.now crew.now }
    ensures { IfOk result (λ tables. ArePlaneTables plan.now readings.now tables.items) }
{
    let mut tables = Vec::new(alloc);
    for reading in 0..readings.len() {
        push(&mut tables, table_of(alloc, plan, readings, crew, reading)?)?;
    }
    Ok(tables)
}

/// The planes of all batches by each of these readings of a plan, in order, on a testbench of it. Each fault is simulated once, in a
/// thread for each of 1 to 32 workers.
pub fn reading_tables<R: Threads + Sync>(
    rt: &R,
    alloc: Global,
    plan: &Plan,
    bench: &Testbench<'_>,
    readings: &[Reading],
    workers: u32,
) -> Result<Vec<BatchPlanes>, NoRoom>
    requires bench { IsTestbenchFor plan.now bench.now }
    requires readings { AreReadingsOf plan.now.points readings.now }
    requires workers { (0 < workers) × (workers ≤ 32) }
    ensures { IfOk result (λ tables. ArePlaneTables plan.now readings.now tables.items) }
{
    let crew = simulated(rt, alloc, plan, bench, readings, workers)?;
    tables_of(alloc, plan, readings, &crew)
}
