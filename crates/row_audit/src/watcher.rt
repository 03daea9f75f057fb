// What is seen of the lanes of a word, and found of its batch.
ghost use Rattle.std.specs.Prelude.{◌≡◌, ◌<◌, ◌++◌, ◌∷◌, [], ◌||◌, ℕ, List};
ghost use Rattle.circuit.specs.declared.parts.Fault.{Fault};
ghost use Rattle.circuit.specs.Circuit.{Circuit};
ghost use Rattle.workload.specs.declared.run.Run.{Run};
ghost use Rattle.workload.specs.Runs.{cycles_of};
ghost use Rattle.alarm_points.specs.declared.Points.{Points};
ghost use Rattle.alarm_points.specs.Watch.{AreMadeFor};
ghost use Rattle.campaign_plan.specs.Danger.{is_dangerous_in, is_noticed_in};
ghost use Rattle.fm_base.specs.Planes.{bit};
ghost use Rattle.classifier.specs.Batch.{alone_in, outcome_for};
ghost use Rattle.classifier.specs.Planes.{HasPlanes};
ghost use Rattle.row_audit.specs.Watched.{HaveWatched, KeepsFound};

use crate::alarms::{Alarms, QUIET};
use crate::points::either_lanes;
use alarm_points::windows::Windows;
use campaign_plan::Outcome;
use fault_list::FaultList;
use workload::run::Kind;

/// No lane in danger, and none noticed.
pub const NOTHING: Outcome = Outcome {
    danger: 0,
    noticed: 0,
};

/// What is seen of a run in the 64 lanes of a word, and what the runs so far have shown of its batch.
#[derive(Drop)]
pub struct Watcher {
    pub batch: Option<u32>,
    pub windows: Windows,
    pub alarms: Alarms,
    pub planes: Outcome,
}

// What a run of a kind shows: the lanes that go unalarmed are in danger in the mission alone, and a silenced alarm is noticed in a
// test alone.
fn shown(kind: Kind, watcher: &Watcher) -> Outcome
    ensures danger { (c : Circuit) (points : Points) (run : Run) (faults : ℕ → List Fault) (k : ℕ) → run.kind ≡ kind
        → HaveWatched c points run faults (cycles_of run) watcher.now → k < 64
        → bit result.danger k ≡ is_dangerous_in c points watcher.now.windows.ftti (faults k) run }
    ensures noticed { (c : Circuit) (points : Points) (run : Run) (faults : ℕ → List Fault) (k : ℕ) → run.kind ≡ kind
        → HaveWatched c points run faults (cycles_of run) watcher.now → k < 64
        → bit result.noticed k ≡ is_noticed_in c points (faults k) run }
{
    match kind {
        Kind::Mission => Outcome {
            danger: watcher.windows.end(),
            noticed: watcher.alarms.raised,
        },
        Kind::Test => Outcome {
            danger: 0,
            noticed: either_lanes(watcher.alarms.raised, watcher.alarms.silenced),
        },
    }
}

// The planes of both.
fn either(a: Outcome, b: Outcome) -> Outcome
    ensures danger { (k : ℕ) → bit result.danger k ≡ (bit a.danger k || bit b.danger k) }
    ensures noticed { (k : ℕ) → bit result.noticed k ≡ (bit a.noticed k || bit b.noticed k) }
{
    Outcome {
        danger: either_lanes(a.danger, b.danger),
        noticed: either_lanes(a.noticed, b.noticed),
    }
}

impl Watcher {
    /// Turns to a batch, of which nothing is found yet.
    pub fn turn_to(&mut self, batch: Option<u32>)
        ensures batch { self.new.batch ≡ batch }
        ensures windows { self.new.windows ≡ self.old.windows }
        ensures planes { self.new.planes ≡ record { danger = 0; noticed = 0 } }
    {
        self.batch = batch;
        self.planes = NOTHING;
    }

    /// Forgets what was seen of earlier runs.
    pub fn start(&mut self)
        ensures keeps { KeepsFound self.old self.new }
        ensures seen { (c : Circuit) (points : Points) (run : Run) (faults : ℕ → List Fault) → AreMadeFor points self.old.windows
            → HaveWatched c points run faults 0 self.new }
    {
        self.windows.start();
        self.alarms = QUIET;
    }

    /// Adds a run, of which all cycles were seen, to what the runs before it have shown.
    pub fn add_run(&mut self, kind: Kind)
        ensures batch { self.new.batch ≡ self.old.batch }
        ensures windows { self.new.windows ≡ self.old.windows }
        ensures planes { (c : Circuit) (points : Points) (runs : List Run) (run : Run) (faults : ℕ → List Fault) → run.kind ≡ kind
            → HaveWatched c points run faults (cycles_of run) self.old
            → HasPlanes c points self.old.windows.ftti runs faults self.old.planes
            → HasPlanes c points self.old.windows.ftti (runs ++ run ∷ []) faults self.new.planes }
    {
        self.planes = either(self.planes, shown(kind, self));
    }

    /// Leaves the planes of the batch alone, where those of all lanes were found: lanes without a fault have none.
    pub fn mask(&mut self, faults: &FaultList)
        ensures batch { self.new.batch ≡ self.old.batch }
        ensures windows { self.new.windows ≡ self.old.windows }
        ensures planes { (c : Circuit) (points : Points) (ftti : ℕ) (runs : List Run) (lanes : ℕ → List Fault)
            → ((k : ℕ) → k < 64 → lanes k ≡ alone_in faults.now self.old.batch k) → HasPlanes c points ftti runs lanes self.old.planes
            → self.new.planes ≡ outcome_for c points ftti runs faults.now self.old.batch }
    {
        self.planes = planes_in(faults, self.batch, self.planes);
    }
}

// The planes of a batch alone, where these are those of lanes that were loaded with it.
fn planes_in(faults: &FaultList, batch: Option<u32>, loaded: Outcome) -> Outcome
    ensures { (c : Circuit) (points : Points) (ftti : ℕ) (runs : List Run) (lanes : ℕ → List Fault)
        → ((k : ℕ) → k < 64 → lanes k ≡ alone_in faults.now batch k) → HasPlanes c points ftti runs lanes loaded
        → result ≡ outcome_for c points ftti runs faults.now batch }
{
    let Some(batch) = batch else {
        return NOTHING;
    };
    let used = faults.used(batch);
    Outcome {
        danger: used & loaded.danger,
        noticed: used & loaded.noticed,
    }
}
