// What the faults of batches are found to be, each alone.
ghost use Rattle.std.specs.Prelude.{◌≡◌, ◌<◌, ◌≤◌, ◌+◌, ◌*◌, ℕ, List, length, map};
ghost use Rattle.circuit.specs.declared.parts.Fault.{Fault};
ghost use Rattle.circuit.specs.Circuit.{Circuit};
ghost use Rattle.workload.specs.declared.run.Run.{Run};
ghost use Rattle.workload.specs.Runs.{all_cycles};
ghost use Rattle.alarm_points.specs.declared.Points.{Points as PointsValue};
ghost use Rattle.alarm_points.specs.FourWatches.{AreFourMadeFor};
ghost use Rattle.alarm_points.specs.Watch.{AreMadeFor};
ghost use Rattle.campaign_plan.specs.Batches.{outcome_of};
ghost use Rattle.golden_difference.specs.Lanes.{IsMadeFor};
ghost use Rattle.lane_words.specs.Loads.{loaded_faults};
ghost use Rattle.classifier.specs.Batch.{alone_in, batch_at, outcome_for};
ghost use Rattle.testbench.specs.Load.{load_of};
ghost use Rattle.classifier.specs.Narrowed.{AreNarrowFor};
ghost use Rattle.classifier.specs.OutOfReach.{AreAllOutOfReach};
ghost use Rattle.classifier.specs.Planes.{HasPlanes, outcome_at};

use crate::narrow::Narrow;
use crate::outcome::{NOTHING, loaded_quad, word_outcome};
use crate::reached::{OutOfReach, WITHIN_REACH, out_of_reach};
use alarm_points::windows::Windows;
use alarm_points::windows4::Windows4;
use campaign_plan::Outcome;
use circuit::parts::Fault;
use differential_kernel::{DifferentialLanes, DifferentialLanes4};
use fault_list::FaultList;
use fm_base::Steps;
use std::sync::ledger::Ledger;
use testbench::Testbench;

const LANES: u32 = 64;

// The faults of a batch, each alone in its lane.
fn loads_of(faults: &FaultList, batch: Option<u32>) -> [[Option<Fault>; 2]; 64]
    ensures { (k : ℕ) → k < 64 → loaded_faults result k ≡ alone_in faults.now batch k }
{
    let mut loads = [[None, None]; 64];
    for lane in 0..LANES {
        loads[lane as usize] = [faults.in_lane(batch, lane), None];
    }
    loads
}

// The planes of a batch alone, where these are those of lanes that were loaded with it.
fn of_batch(faults: &FaultList, batch: Option<u32>, loaded: Outcome) -> Outcome
    ensures { (c : Circuit) (points : PointsValue) (ftti : ℕ) (runs : List Run) (lanes : ℕ → List Fault)
        → ((k : ℕ) → k < 64 → lanes k ≡ alone_in faults.now batch k) → HasPlanes c points ftti runs lanes loaded
        → result ≡ outcome_for c points ftti runs faults.now batch }
{
    let Some(batch) = batch else {
        return NOTHING;
    };
    let used = faults.used(batch);
    Outcome {
        danger: loaded.danger & used,
        noticed: loaded.noticed & used,
    }
}

/// The planes of danger and of notice of a batch of 64 faults, each alone in its lane; bits of lanes that hold no fault are 0,
/// as are all of a batch behind the last. What lanes and windows held before is no matter. It takes no memory, and at most
/// one step for each table and cycle.
pub fn batch_outcome<L: Ledger>(
    bench: &Testbench<'_>,
    faults: &FaultList,
    batch: u32,
    lanes: &mut DifferentialLanes,
    windows: &mut Windows,
    steps: &mut Steps<L>,
) -> Outcome
    requires lanes { IsMadeFor bench.now.circuit bench.now.order lanes.old }
    requires windows { AreMadeFor bench.now.points windows.old }
    ensures outcome { result ≡ outcome_of bench.now.circuit bench.now.points windows.old.ftti bench.now.runs faults.now batch }
    ensures lanes { IsMadeFor bench.now.circuit bench.now.order lanes.new }
    ensures windows { AreMadeFor bench.now.points windows.new }
    ensures ftti { windows.new.ftti ≡ windows.old.ftti }
    ensures cost { steps.new ≤ steps.old + all_cycles bench.now.runs * length bench.now.circuit.tables }
{
    let loads = loads_of(faults, Some(batch));
    let reach = out_of_reach(bench, &loads);
    lanes.load(0, &loads);
    let loaded = word_outcome(bench, reach, lanes, windows, steps);
    of_batch(faults, Some(batch), loaded)
}

// Loads each word with its batch, and tells in which lanes points are out of reach.
fn load_words(
    bench: &Testbench<'_>,
    faults: &FaultList,
    batches: &[Option<u32>; 4],
    lanes: &mut DifferentialLanes4,
) -> [OutOfReach; 4]
    ensures made { IsMadeFor lanes.old.circuit lanes.old.order lanes.new }
    ensures loads { (word k : ℕ) → word < 4 → k < 64
        → loaded_faults lanes.new.loads (word * 64 + k) ≡ alone_in faults.now (batch_at batches.now word) k }
    ensures reach { AreAllOutOfReach bench.now.circuit bench.now.points 4 (load_of lanes.new) result }
{
    let mut reach = [WITHIN_REACH; 4];
    for word in 0..4 {
        let loads = loads_of(faults, batches[word as usize]);
        reach[word as usize] = out_of_reach(bench, &loads);
        lanes.load(word, &loads);
    }
    reach
}

// The planes of each word's batch alone.
fn of_batches(faults: &FaultList, batches: &[Option<u32>; 4], outcomes: &mut [Outcome; 4])
    ensures { (c : Circuit) (points : PointsValue) (ftti : ℕ) (runs : List Run) (word : ℕ) (lanes : ℕ → List Fault) → word < 4
        → ((k : ℕ) → k < 64 → lanes k ≡ alone_in faults.now (batch_at batches.now word) k)
        → HasPlanes c points ftti runs lanes (outcome_at outcomes.old word)
        → outcome_at outcomes.new word ≡ outcome_for c points ftti runs faults.now (batch_at batches.now word) }
{
    for word in 0..4 {
        outcomes[word] = of_batch(faults, batches[word], outcomes[word]);
    }
}

/// The same as `quad_outcomes`, where the last lanes of a run go on in the one of `narrow`, if there is one.
pub fn narrowed_outcomes<L: Ledger>(
    bench: &Testbench<'_>,
    faults: &FaultList,
    batches: &[Option<u32>; 4],
    lanes: &mut DifferentialLanes4,
    narrow: &mut [Narrow],
    windows: &mut Windows4,
    steps: &mut Steps<L>,
) -> [Outcome; 4]
    requires lanes { IsMadeFor bench.now.circuit bench.now.order lanes.old }
    requires narrow { AreNarrowFor bench.now.circuit bench.now.order narrow.old }
    requires windows { AreFourMadeFor bench.now.points windows.old }
    ensures outcomes { result ≡ map (outcome_for bench.now.circuit bench.now.points windows.old.ftti bench.now.runs faults.now) batches.now }
    ensures lanes { IsMadeFor bench.now.circuit bench.now.order lanes.new }
    ensures narrow { AreNarrowFor bench.now.circuit bench.now.order narrow.new }
    ensures windows { AreFourMadeFor bench.now.points windows.new }
    ensures ftti { windows.new.ftti ≡ windows.old.ftti }
    ensures cost { steps.new ≤ steps.old + all_cycles bench.now.runs * length bench.now.circuit.tables }
{
    let reach = load_words(bench, faults, batches, lanes);
    let mut outcomes = loaded_quad(bench, &reach, lanes, narrow, windows, steps);
    of_batches(faults, batches, &mut outcomes);
    outcomes
}

/// The planes of danger and of notice of up to four batches at once, one in each word, each fault alone in its lane; both planes
/// are 0 where there is no batch. What lanes and windows held before is no matter. It takes no memory, and at most one step for
/// each table and cycle, for all four words together.
pub fn quad_outcomes<L: Ledger>(
    bench: &Testbench<'_>,
    faults: &FaultList,
    batches: &[Option<u32>; 4],
    lanes: &mut DifferentialLanes4,
    windows: &mut Windows4,
    steps: &mut Steps<L>,
) -> [Outcome; 4]
    requires lanes { IsMadeFor bench.now.circuit bench.now.order lanes.old }
    requires windows { AreFourMadeFor bench.now.points windows.old }
    ensures outcomes { result ≡ map (outcome_for bench.now.circuit bench.now.points windows.old.ftti bench.now.runs faults.now) batches.now }
    ensures lanes { IsMadeFor bench.now.circuit bench.now.order lanes.new }
    ensures windows { AreFourMadeFor bench.now.points windows.new }
    ensures ftti { windows.new.ftti ≡ windows.old.ftti }
    ensures cost { steps.new ≤ steps.old + all_cycles bench.now.runs * length bench.now.circuit.tables }
{
    narrowed_outcomes(bench, faults, batches, lanes, &mut [], windows, steps)
}
