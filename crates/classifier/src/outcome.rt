// What the faults in the lanes are found to be, over all runs.
ghost use Rattle.std.specs.Prelude.{◌≡◌, ◌<◌, ◌≤◌, ◌+◌, ◌*◌, ◌++◌, ◌∷◌, [], ◌||◌, false, true, ℕ, List, length};
ghost use Rattle.circuit.specs.declared.parts.Fault.{Fault};
ghost use Rattle.circuit.specs.Circuit.{Circuit};
ghost use Rattle.workload.specs.declared.run.Run.{Run};
ghost use Rattle.workload.specs.Runs.{all_cycles};
ghost use Rattle.alarm_points.specs.declared.Points.{Points as PointsValue};
ghost use Rattle.campaign_plan.specs.Danger.{is_dangerous_in, is_noticed_in};
ghost use Rattle.fm_base.specs.Planes.{bit};
ghost use Rattle.golden_difference.specs.Lanes.{IsMadeFor};
ghost use Rattle.lane_words.specs.Loads.{loaded_faults};
ghost use Rattle.testbench.specs.Load.{Load, lane_faults, load_of};
ghost use Rattle.classifier.specs.Narrowed.{AreNarrowFor};
ghost use Rattle.classifier.specs.OutOfReach.{AreAllDecidedBy, AreAllOutOfReach, AreOutOfReach};
ghost use Rattle.classifier.specs.declared.reached.OutOfReach.{OutOfReach as OutOfReachValue};
ghost use Rattle.classifier.specs.Planes.{AreAllPlanes, HaveAllPlanes, outcome_at, planes_of};
ghost use Rattle.alarm_points.specs.FourWatches.{AreFourMadeFor};
ghost use Rattle.alarm_points.specs.Watch.{AreMadeFor};
ghost use Rattle.classifier.specs.Seen.{AllKeepIntervals, HasBeenRun, HaveSeenRun};
ghost use Rattle.classifier.specs.Stretch.{AreMadeForBench};

use crate::decided::{Decided, OPEN, decide};
use crate::narrow::Narrow;
use crate::points::{either_lanes, lanes_without};
use crate::reached::{OutOfReach, WITHIN_REACH};
use crate::run::watch_run;
use alarm_points::windows::Windows;
use alarm_points::windows4::Windows4;
use campaign_plan::Outcome;
use differential_kernel::{DifferentialLanes, DifferentialLanes4};
use fm_base::Steps;
use lane_words::Word;
use std::slice::from_mut;
use std::sync::ledger::Ledger;
use testbench::Testbench;
use workload::run::Kind;

const MOST_WORDS: usize = 4;

/// No lane in danger, and none noticed.
pub const NOTHING: Outcome = Outcome {
    danger: 0,
    noticed: 0,
};

// What a run of a kind shows in a word: the lanes that go unalarmed are in danger in the mission alone, and those that have left are
// noticed, but where that was `known` before.
fn run_outcome(kind: Kind, windows: &Windows, known: u64, left: u64) -> Outcome
    ensures danger { (c : Circuit) (points : PointsValue) (run : Run) (faults : ℕ → List Fault) (k : ℕ) → run.kind ≡ kind
        → HaveSeenRun c points run faults known windows.now left → k < 64
        → bit result.danger k ≡ is_dangerous_in c points windows.now.ftti (faults k) run }
    ensures noticed { (c : Circuit) (points : PointsValue) (run : Run) (faults : ℕ → List Fault) (k : ℕ) → run.kind ≡ kind
        → HaveSeenRun c points run faults known windows.now left → k < 64 → bit known k ≡ false
        → bit result.noticed k ≡ is_noticed_in c points (faults k) run }
    ensures known { (k : ℕ) → k < 64 → bit known k ≡ true → bit result.noticed k ≡ false }
{
    let noticed = lanes_without(left, known);
    match kind {
        Kind::Mission => Outcome {
            danger: windows.end(),
            noticed,
        },
        Kind::Test => Outcome { danger: 0, noticed },
    }
}

// The planes of both.
fn either(a: Outcome, b: Outcome) -> Outcome
    ensures danger { (k : ℕ) → bit result.danger k ≡ (bit a.danger k || bit b.danger k) }
    ensures noticed { (k : ℕ) → bit result.noticed k ≡ (bit a.noticed k || bit b.noticed k) }
{
    Outcome {
        danger: either_lanes(a.danger, b.danger),
        noticed: either_lanes(a.noticed, b.noticed),
    }
}

// Adds a run to what the runs before it have shown in each word.
fn add_run(
    kind: Kind,
    windows: &[Windows],
    decided: &[Decided],
    left: &[u64],
    outcomes: &mut [Outcome],
)
    requires counts { (length windows.now ≡ length outcomes.old) × (length decided.now ≡ length outcomes.old) × (length left.now ≡ length outcomes.old) }
    ensures { (c : Circuit) (points : PointsValue) (runs : List Run) (run : Run) (load : Load) (reach : List OutOfReachValue) → run.kind ≡ kind
        → AreAllOutOfReach c points (length outcomes.old) load reach → AreAllDecidedBy outcomes.old reach decided.now
        → HasBeenRun c points run (length outcomes.old) load decided.now windows.now left.now
        → HaveAllPlanes c points runs (length outcomes.old) load windows.now outcomes.old
        → HaveAllPlanes c points (runs ++ run ∷ []) (length outcomes.old) load windows.now outcomes.new }
{
    for word in 0..outcomes.len() {
        let own = run_outcome(kind, &windows[word], decided[word].notice, left[word]);
        outcomes[word] = either(outcomes[word], own);
    }
}

// No word has shown anything.
fn forget(outcomes: &mut [Outcome])
    ensures { (word : ℕ) → word < length outcomes.old → outcome_at outcomes.new word ≡ record { danger = 0; noticed = 0 } }
{
    for word in 0..outcomes.len() {
        outcomes[word] = NOTHING;
    }
}

// Simulates all runs in all lanes, and adds what each shows in each word, from nothing on.
fn judge_runs<W: Word, L: Ledger>(
    bench: &Testbench<'_>,
    reach: &[OutOfReach],
    lanes: &mut DifferentialLanes<W>,
    narrow: &mut [Narrow],
    windows: &mut [Windows],
    left: &mut [u64],
    decided: &mut [Decided],
    outcomes: &mut [Outcome],
    steps: &mut Steps<L>,
)
    requires made { AreMadeForBench bench.now W.words lanes.old narrow.old windows.old }
    requires counts { (length reach.now ≡ W.words) × (length left.old ≡ W.words) × (length decided.old ≡ W.words) × (length outcomes.old ≡ W.words) }
    requires reach { AreAllOutOfReach bench.now.circuit bench.now.points W.words (load_of lanes.old) reach.now }
    ensures load { load_of lanes.new ≡ load_of lanes.old }
    ensures made { AreMadeForBench bench.now W.words lanes.new narrow.new windows.new }
    ensures intervals { AllKeepIntervals windows.old windows.new }
    ensures planes { HaveAllPlanes bench.now.circuit bench.now.points bench.now.runs W.words (load_of lanes.old) windows.old outcomes.new }
    ensures cost { steps.new ≤ steps.old + all_cycles bench.now.runs * length bench.now.circuit.tables }
{
    forget(outcomes);
    for run in 0..bench.runs() {
        decide(outcomes, reach, decided);
        watch_run(bench, run, decided, lanes, narrow, windows, left, steps);
        add_run(bench.kind(run), windows, decided, left, outcomes);
    }
}

/// Simulates all runs in all circuits of `lanes`, as they are loaded, and puts the planes of danger and of notice of each word
/// into `outcomes`: bit k of word w's is that of the faults of lane 64w + k together. `windows` are those of each word, and have
/// the fault tolerant time intervals. What lanes, windows and outcomes held before is no matter. It takes no memory, and at most
/// one step for each table and cycle, for all words together. `reach` tells of each word in which lanes points are out of reach.
pub fn loaded_outcomes<W: Word, L: Ledger>(
    bench: &Testbench<'_>,
    reach: &[OutOfReach],
    lanes: &mut DifferentialLanes<W>,
    narrow: &mut [Narrow],
    windows: &mut [Windows],
    outcomes: &mut [Outcome],
    steps: &mut Steps<L>,
)
    requires made { AreMadeForBench bench.now W.words lanes.old narrow.old windows.old }
    requires counts { (length reach.now ≡ W.words) × (length outcomes.old ≡ W.words) }
    requires reach { AreAllOutOfReach bench.now.circuit bench.now.points W.words (load_of lanes.old) reach.now }
    ensures outcomes { AreAllPlanes bench.now.circuit bench.now.points bench.now.runs W.words (load_of lanes.old) windows.old outcomes.new }
    ensures load { load_of lanes.new ≡ load_of lanes.old }
    ensures made { AreMadeForBench bench.now W.words lanes.new narrow.new windows.new }
    ensures intervals { AllKeepIntervals windows.old windows.new }
    ensures cost { steps.new ≤ steps.old + all_cycles bench.now.runs * length bench.now.circuit.tables }
{
    let mut left = [0; MOST_WORDS];
    let mut decided = [OPEN; MOST_WORDS];
    let words = W::words() as usize;
    judge_runs(
        bench,
        reach,
        lanes,
        narrow,
        windows,
        &mut left[..words],
        &mut decided[..words],
        outcomes,
        steps,
    );
}

/// The planes of danger and of notice of one word of lanes, as they are loaded. `reach` tells in which of them points are out of
/// reach. What it takes is as for `loaded_outcome`.
pub fn word_outcome<L: Ledger>(
    bench: &Testbench<'_>,
    reach: OutOfReach,
    lanes: &mut DifferentialLanes,
    windows: &mut Windows,
    steps: &mut Steps<L>,
) -> Outcome
    requires reach { AreOutOfReach bench.now.circuit bench.now.points (lane_faults (load_of lanes.old) 0) reach }
    requires lanes { IsMadeFor bench.now.circuit bench.now.order lanes.old }
    requires windows { AreMadeFor bench.now.points windows.old }
    ensures outcome { result ≡ planes_of bench.now.circuit bench.now.points windows.old.ftti bench.now.runs (loaded_faults lanes.old.loads) }
    ensures lanes { IsMadeFor bench.now.circuit bench.now.order lanes.new }
    ensures loads { lanes.new.loads ≡ lanes.old.loads }
    ensures windows { AreMadeFor bench.now.points windows.new }
    ensures ftti { windows.new.ftti ≡ windows.old.ftti }
    ensures cost { steps.new ≤ steps.old + all_cycles bench.now.runs * length bench.now.circuit.tables }
{
    let mut outcomes = [NOTHING];
    loaded_outcomes(
        bench,
        &[reach],
        lanes,
        &mut [],
        from_mut(windows),
        &mut outcomes,
        steps,
    );
    outcomes[0]
}

/// Simulates all runs in the 64 circuits of `lanes`, as they are loaded, and answers the planes of danger and of notice: bit
/// k of each is that of the faults of lane k together. `windows` has the fault tolerant time intervals. What lanes and windows
/// held of earlier runs is no matter. It takes no memory, and at most one step for each table and cycle. Lanes don't tell what they
/// were loaded with, so none leaves a run because no path leads from its faults to a point, as with `batch_outcome`.
pub fn loaded_outcome<L: Ledger>(
    bench: &Testbench<'_>,
    lanes: &mut DifferentialLanes,
    windows: &mut Windows,
    steps: &mut Steps<L>,
) -> Outcome
    requires lanes { IsMadeFor bench.now.circuit bench.now.order lanes.old }
    requires windows { AreMadeFor bench.now.points windows.old }
    ensures outcome { result ≡ planes_of bench.now.circuit bench.now.points windows.old.ftti bench.now.runs (loaded_faults lanes.old.loads) }
    ensures lanes { IsMadeFor bench.now.circuit bench.now.order lanes.new }
    ensures loads { lanes.new.loads ≡ lanes.old.loads }
    ensures windows { AreMadeFor bench.now.points windows.new }
    ensures ftti { windows.new.ftti ≡ windows.old.ftti }
    ensures cost { steps.new ≤ steps.old + all_cycles bench.now.runs * length bench.now.circuit.tables }
{
    word_outcome(bench, WITHIN_REACH, lanes, windows, steps)
}

/// Simulates all runs in the 256 circuits of `lanes`, as they are loaded, and answers the planes of danger and of notice of each
/// word: bit k of word w's is that of the faults of lane 64w + k together. `windows` has the fault tolerant time intervals. What
/// lanes and windows held of earlier runs is no matter. It takes no memory, and at most one step for each table and cycle, for all four
/// words together. `reach` tells of each word in which lanes points are out of reach. The last lanes of a run go on in the one of `narrow`,
/// where there is one.
pub fn loaded_quad<L: Ledger>(
    bench: &Testbench<'_>,
    reach: &[OutOfReach; 4],
    lanes: &mut DifferentialLanes4,
    narrow: &mut [Narrow],
    windows: &mut Windows4,
    steps: &mut Steps<L>,
) -> [Outcome; 4]
    requires reach { AreAllOutOfReach bench.now.circuit bench.now.points 4 (load_of lanes.old) reach.now }
    requires lanes { IsMadeFor bench.now.circuit bench.now.order lanes.old }
    requires narrow { AreNarrowFor bench.now.circuit bench.now.order narrow.old }
    requires windows { AreFourMadeFor bench.now.points windows.old }
    ensures outcomes { (word : ℕ) → word < 4
        → outcome_at result word ≡ planes_of bench.now.circuit bench.now.points windows.old.ftti bench.now.runs (lane_faults (load_of lanes.old) word) }
    ensures lanes { IsMadeFor bench.now.circuit bench.now.order lanes.new }
    ensures loads { lanes.new.loads ≡ lanes.old.loads }
    ensures narrow { AreNarrowFor bench.now.circuit bench.now.order narrow.new }
    ensures windows { AreFourMadeFor bench.now.points windows.new }
    ensures ftti { windows.new.ftti ≡ windows.old.ftti }
    ensures cost { steps.new ≤ steps.old + all_cycles bench.now.runs * length bench.now.circuit.tables }
{
    let mut outcomes = [NOTHING; 4];
    loaded_outcomes(
        bench,
        reach,
        lanes,
        narrow,
        windows.words(),
        &mut outcomes,
        steps,
    );
    outcomes
}
