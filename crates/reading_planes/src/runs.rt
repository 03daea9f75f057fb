// All runs of a testbench, and the planes of each reading.
ghost use Rattle.std.specs.Prelude.{◌≡◌, ◌<◌, ◌≤◌, ◌+◌, ◌*◌, ◌^◌, ◌++◌, ◌∷◌, ◌||◌, ◌&&◌, [], ℕ, List, length, slice_index_or};
ghost use Rattle.std.specs.Int.{div_ceil};
ghost use Rattle.circuit.specs.declared.parts.Fault.{Fault};
ghost use Rattle.circuit.specs.Circuit.{Circuit};
ghost use Rattle.workload.specs.declared.run.Run.{Run};
ghost use Rattle.workload.specs.Runs.{all_cycles, is_mission};
ghost use Rattle.first_cycles.specs.Shown.{Shown, shown_in};
ghost use Rattle.fm_base.specs.Planes.{bit};
ghost use Rattle.testbench.specs.Load.{in_lane};
ghost use Rattle.classifier.specs.Planes.{HasPlanes, outcome_at, planes_of};
ghost use Rattle.fault_runs.specs.Draw.{IsDrawFor};
ghost use Rattle.fault_runs.specs.Records.{AreRecordsFor, record_of};
ghost use Rattle.fault_runs.specs.Whole.{ArePathsTo, HasShownRun};
ghost use Rattle.reading_planes.specs.Folded.{AreCyclesFor, ArePlanesFor, AreWords, late_by, noticed_by, planes_at, reading_at};
ghost use Rattle.reading_planes.specs.declared.reading.Reading.{Reading as ReadingValue};
ghost use Rattle.reading_planes.specs.Readings.{AreReadingsOf, ftti_by, points_by};

use crate::add::add_fault;
use crate::cycles::FaultCycles;
use crate::planes::ReadingPlanes;
use crate::reading::Reading;
use alarm_points::Points;
use campaign_plan::Outcome;
use fault_runs::{FaultDraw, FaultRecords, PointPaths};
use fm_base::Steps;
use std::sync::ledger::Ledger;
use testbench::Testbench;
use workload::run::Kind;

const LANES: u32 = 64;

// Adds what a run of a kind has shown of the faults of a word, each to its lane.
fn add_lanes(
    kind: Kind,
    points: &Points,
    ftti: u32,
    readings: &[Reading],
    records: &FaultRecords,
    word: u32,
    cycles: &mut FaultCycles,
    outcomes: &mut [Outcome],
)
    requires word { word < 2 ^ 26 }
    requires readings { AreReadingsOf points.now readings.now }
    requires fit { AreRecordsFor points.now records.now }
    requires made { AreCyclesFor points.now cycles.old }
    requires count { length outcomes.old ≡ length readings.now }
    ensures made { AreCyclesFor points.now cycles.new }
    ensures danger { (shown : ℕ → Shown) (r k : ℕ) → ((j : ℕ) → (shown j).kind ≡ kind) → ((j : ℕ) → j < 64 → HasShownRun points.now (shown j) (record_of records.now (word * 64 + j))) → r < length readings.now → k < 64
        → bit (outcome_at outcomes.new r).danger k ≡ (bit (outcome_at outcomes.old r).danger k || (is_mission kind && late_by points.now ftti (reading_at readings.now r) (shown k))) }
    ensures noticed { (shown : ℕ → Shown) (r k : ℕ) → ((j : ℕ) → (shown j).kind ≡ kind) → ((j : ℕ) → j < 64 → HasShownRun points.now (shown j) (record_of records.now (word * 64 + j))) → r < length readings.now → k < 64
        → bit (outcome_at outcomes.new r).noticed k ≡ (bit (outcome_at outcomes.old r).noticed k || noticed_by points.now (reading_at readings.now r) (shown k)) }
    ensures words { (r : ℕ) → r < length readings.now → AreWords (outcome_at outcomes.old r) → AreWords (outcome_at outcomes.new r) }
{
    for lane in 0..LANES {
        let fault = word * LANES + lane;
        add_fault(
            kind, points, ftti, readings, records, fault, cycles, outcomes,
        );
    }
}

// Adds what a run of a kind has shown of the faults of a word to its planes of each reading.
fn add_word(
    kind: Kind,
    points: &Points,
    ftti: u32,
    readings: &[Reading],
    records: &FaultRecords,
    word: u32,
    cycles: &mut FaultCycles,
    planes: &mut ReadingPlanes,
)
    requires word { word < 2 ^ 26 }
    requires readings { AreReadingsOf points.now readings.now }
    requires fit { AreRecordsFor points.now records.now }
    requires made { AreCyclesFor points.now cycles.old }
    requires count { length planes.old ≡ length readings.now }
    ensures made { AreCyclesFor points.now cycles.new }
    ensures count { length planes.new ≡ length readings.now }
    ensures planes { (c : Circuit) (runs : List Run) (run : Run) (faults : ℕ → List Fault) (r : ℕ) → run.kind ≡ kind
        → ((k : ℕ) → k < 64 → HasShownRun points.now (shown_in c (faults k) run) (record_of records.now (word * 64 + k))) → r < length readings.now
        → HasPlanes c (points_by points.now (reading_at readings.now r)) (ftti_by ftti (reading_at readings.now r)) runs faults (outcome_at planes.old r)
        → HasPlanes c (points_by points.now (reading_at readings.now r)) (ftti_by ftti (reading_at readings.now r)) (runs ++ run ∷ []) faults (outcome_at planes.new r) }
{
    let outcomes = planes.outcomes.as_mut_slice();
    add_lanes(
        kind, points, ftti, readings, records, word, cycles, outcomes,
    );
}

// Adds what a run of a kind has shown to the planes of each word.
fn add_run(
    kind: Kind,
    points: &Points,
    ftti: u32,
    readings: &[Reading],
    records: &FaultRecords,
    cycles: &mut FaultCycles,
    planes: &mut [ReadingPlanes],
)
    requires few { length planes.old < 2 ^ 26 }
    requires readings { AreReadingsOf points.now readings.now }
    requires fit { AreRecordsFor points.now records.now }
    requires made { AreCyclesFor points.now cycles.old }
    requires planes { ArePlanesFor readings.now planes.old }
    ensures made { AreCyclesFor points.now cycles.new }
    ensures fit { ArePlanesFor readings.now planes.new }
    ensures planes { (c : Circuit) (runs : List Run) (run : Run) (faults : ℕ → List Fault) (word r : ℕ) → run.kind ≡ kind → word < length planes.old
        → ((k : ℕ) → k < 64 → HasShownRun points.now (shown_in c (faults k) run) (record_of records.now (word * 64 + k))) → r < length readings.now
        → HasPlanes c (points_by points.now (reading_at readings.now r)) (ftti_by ftti (reading_at readings.now r)) runs faults (planes_at planes.old word r)
        → HasPlanes c (points_by points.now (reading_at readings.now r)) (ftti_by ftti (reading_at readings.now r)) (runs ++ run ∷ []) faults (planes_at planes.new word r) }
{
    for word in 0..planes.len() {
        add_word(
            kind,
            points,
            ftti,
            readings,
            records,
            word as u32,
            cycles,
            &mut planes[word],
        );
    }
}

// Follows all faults of a draw through all runs, and adds what each shows; nothing has been found before.
fn judge_runs<L: Ledger>(
    bench: &Testbench<'_>,
    ftti: u32,
    readings: &[Reading],
    paths: &PointPaths,
    draw: &mut FaultDraw,
    cycles: &mut FaultCycles,
    planes: &mut [ReadingPlanes],
    steps: &mut Steps<L>,
)
    requires few { length planes.old < 2 ^ 26 }
    requires made { IsDrawFor bench.now draw.old }
    requires size { length draw.old.faults.items ≡ length planes.old * 64 }
    requires paths { ArePathsTo bench.now.circuit bench.now.points paths.now }
    requires readings { AreReadingsOf bench.now.points readings.now }
    requires cycles { AreCyclesFor bench.now.points cycles.old }
    requires planes { ArePlanesFor readings.now planes.old }
    requires nothing { (word r : ℕ) → word < length planes.old → r < length readings.now → planes_at planes.old word r ≡ record { danger = 0; noticed = 0 } }
    ensures made { IsDrawFor bench.now draw.new }
    ensures faults { draw.new.faults ≡ draw.old.faults }
    ensures cycles { AreCyclesFor bench.now.points cycles.new }
    ensures fit { ArePlanesFor readings.now planes.new }
    ensures planes { (word r : ℕ) → word < length planes.old → r < length readings.now
        → HasPlanes bench.now.circuit (points_by bench.now.points (reading_at readings.now r)) (ftti_by ftti (reading_at readings.now r)) bench.now.runs
        (in_lane draw.old.faults.items word) (planes_at planes.new word r) }
    ensures cost { steps.new ≤ steps.old + div_ceil (length draw.old.faults.items) 256 * (all_cycles bench.now.runs * length bench.now.circuit.tables) }
{
    for run in 0..bench.runs() {
        draw.follow_whole(bench, run, paths, steps);
        add_run(
            bench.kind(run),
            bench.points(),
            ftti,
            readings,
            draw.records(),
            cycles,
            planes,
        );
    }
}

// Forgets what was found in each word.
fn start_planes(planes: &mut [ReadingPlanes])
    ensures fit { (readings : List ReadingValue) → ArePlanesFor readings planes.old → ArePlanesFor readings planes.new }
    ensures nothing { (word r : ℕ) → word < length planes.old → r < length (slice_index_or planes.old word []) → planes_at planes.new word r ≡ record { danger = 0; noticed = 0 } }
{
    for word in 0..planes.len() {
        planes[word].start();
    }
}

/// Follows the faults of a draw through all runs, and puts the planes of danger and of notice by each of these readings into `planes`, a
/// word for each 64 numbers of the draw: bit k of word w's is that of the faults of number 64w + k together. `ftti` is the fault tolerant
/// time interval of the settings in cycles, for the goals without one of their own and the readings that name none; `paths` are those to
/// the alarm points. What the draw, cycles and planes held of earlier runs is no matter. It takes no memory, and at most one step for
/// each table, cycle and group of 256 faults, whatever the number of readings.
pub fn loaded_readings<L: Ledger>(
    bench: &Testbench<'_>,
    ftti: u32,
    readings: &[Reading],
    paths: &PointPaths,
    draw: &mut FaultDraw,
    cycles: &mut FaultCycles,
    planes: &mut [ReadingPlanes],
    steps: &mut Steps<L>,
)
    requires few { length planes.old < 2 ^ 26 }
    requires made { IsDrawFor bench.now draw.old }
    requires size { length draw.old.faults.items ≡ length planes.old * 64 }
    requires paths { ArePathsTo bench.now.circuit bench.now.points paths.now }
    requires readings { AreReadingsOf bench.now.points readings.now }
    requires cycles { AreCyclesFor bench.now.points cycles.old }
    requires planes { ArePlanesFor readings.now planes.old }
    ensures planes { (word r : ℕ) → word < length planes.old → r < length readings.now
        → planes_at planes.new word r
        ≡ planes_of bench.now.circuit (points_by bench.now.points (reading_at readings.now r)) (ftti_by ftti (reading_at readings.now r)) bench.now.runs (in_lane draw.old.faults.items word) }
    ensures made { IsDrawFor bench.now draw.new }
    ensures faults { draw.new.faults ≡ draw.old.faults }
    ensures cycles { AreCyclesFor bench.now.points cycles.new }
    ensures fit { ArePlanesFor readings.now planes.new }
    ensures cost { steps.new ≤ steps.old + div_ceil (length draw.old.faults.items) 256 * (all_cycles bench.now.runs * length bench.now.circuit.tables) }
{
    start_planes(planes);
    judge_runs(bench, ftti, readings, paths, draw, cycles, planes, steps);
}
