// All runs of the faults of a draw.
ghost use Rattle.std.specs.Prelude.{◌≡◌, ◌<◌, ◌+◌, [], ℕ, List, length};
ghost use Rattle.circuit.specs.declared.parts.Fault.{Fault};
ghost use Rattle.circuit.specs.Circuit.{Circuit};
ghost use Rattle.workload.specs.declared.run.Run.{Run};
ghost use Rattle.workload.specs.Runs.{run_at};
ghost use Rattle.first_cycles.specs.Shown.{shown_in};
ghost use Rattle.lane_words.specs.Loads.{loaded_faults};
ghost use Rattle.fault_runs.specs.Draw.{IsDrawFor};
ghost use Rattle.fault_runs.specs.Records.{AreRecordsFor, record_of};
ghost use Rattle.fault_runs.specs.Whole.{ArePathsTo, HasShownRun};
ghost use Rattle.latency_table.specs.Latency.{IsLatencyOf, latency_at};

use crate::latency::{Latency, NOTHING};
use crate::shows::fault_shows;
use alarm_points::Points;
use fault_runs::{FaultDraw, FaultRecords, PointPaths};
use fm_base::Steps;
use std::sync::ledger::Ledger;
use testbench::Testbench;
use workload::run::Kind;

// Forgets what was kept.
fn forget(latencies: &mut [Latency])
    ensures { (j : ℕ) → j < length latencies.old → latency_at latencies.new j ≡ latency_at [] 0 }
{
    for j in 0..latencies.len() {
        latencies[j] = NOTHING;
    }
}

// Adds what a run shows of each fault.
fn add_run(
    run: u32,
    kind: Kind,
    points: &Points,
    ftti: u32,
    records: &FaultRecords,
    latencies: &mut [Latency],
)
    requires room { length latencies.old ≡ 1024 }
    requires fit { AreRecordsFor points.now records.now }
    ensures { (c : Circuit) (runs : List Run) (faults : ℕ → List Fault) (j : ℕ) → j < length latencies.old → run < length runs → (run_at runs run).kind ≡ kind
        → HasShownRun points.now (shown_in c (faults j) (run_at runs run)) (record_of records.now j)
        → IsLatencyOf c points.now ftti runs (faults j) run (latency_at latencies.old j)
        → IsLatencyOf c points.now ftti runs (faults j) (run + 1) (latency_at latencies.new j) }
{
    for j in 0..latencies.len() {
        let shows = fault_shows(kind, points, ftti, records, j as u32);
        latencies[j] = latencies[j].with_run(run, &shows);
    }
}

/// Follows the faults of a draw through all runs, and keeps what they show of each, first to last. `ftti` is the interval of the settings
/// in cycles, for the goals without one of their own; `paths` are those to the alarm points. What the draw and the latencies held of
/// earlier runs is no matter. It takes no memory.
pub(crate) fn follow_runs<L: Ledger>(
    bench: &Testbench<'_>,
    ftti: u32,
    paths: &PointPaths,
    draw: &mut FaultDraw,
    latencies: &mut [Latency],
    steps: &mut Steps<L>,
)
    requires made { IsDrawFor bench.now draw.old }
    requires size { length draw.old.faults.items ≡ 1024 }
    requires paths { ArePathsTo bench.now.circuit bench.now.points paths.now }
    requires room { length latencies.old ≡ 1024 }
    ensures made { IsDrawFor bench.now draw.new }
    ensures faults { draw.new.faults ≡ draw.old.faults }
    ensures kept { (j : ℕ) → j < 1024
        → IsLatencyOf bench.now.circuit bench.now.points ftti bench.now.runs (loaded_faults draw.old.faults.items j) (length bench.now.runs) (latency_at latencies.new j) }
{
    forget(latencies);
    for run in 0..bench.runs() {
        draw.follow_whole(bench, run, paths, steps);
        add_run(
            run,
            bench.kind(run),
            bench.points(),
            ftti,
            draw.records(),
            latencies,
        );
    }
}
