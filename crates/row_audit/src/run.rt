// One run in all circuits, and all runs.
ghost use Rattle.std.specs.Prelude.{◌≡◌, ◌<◌, ◌+◌, ◌++◌, ◌∷◌, [], ℕ, List, length, take};
ghost use Rattle.circuit.specs.declared.parts.Fault.{Fault};
ghost use Rattle.circuit.specs.Circuit.{Circuit};
ghost use Rattle.workload.specs.declared.run.Run.{Run};
ghost use Rattle.workload.specs.Runs.{cycles_of, run_at};
ghost use Rattle.alarm_points.specs.PointsKept.{ArePointsFor};
ghost use Rattle.alarm_points.specs.declared.Points.{Points as PointsValue};
ghost use Rattle.classifier.specs.Planes.{HasPlanes};
ghost use Rattle.row_audit.specs.Loaded.{IsLoadedFor};
ghost use Rattle.row_audit.specs.Watched.{AreAllReady, HaveAllWatched, KeepAllFound, watcher_at};

use crate::bench::Bench;
use crate::circuits::Circuits;
use crate::see::see_cycle;
use crate::watcher::Watcher;
use alarm_points::Points;
use workload::run::Kind;

// Each watcher forgets what was seen of earlier runs.
fn start_all(points: &Points, ftti: u32, watchers: &mut [Watcher])
    requires { AreAllReady points.now ftti watchers.old }
    ensures keeps { KeepAllFound watchers.old watchers.new }
    ensures seen { (c : Circuit) (run : Run) (faults : ℕ → ℕ → List Fault) → HaveAllWatched c points.now run faults 0 watchers.new }
{
    for word in 0..watchers.len() {
        watchers[word].start();
    }
}

// Shows each watcher the last cycle of a run.
fn see_all<B: Circuits>(circuits: &B, points: &Points, watchers: &mut [Watcher])
    requires sound { B.IsSound circuits.now }
    requires points { ArePointsFor (B.loaded circuits.now).circuit points.now }
    requires count { length watchers.old ≡ B.words }
    requires seen { (run : Run) × (t : ℕ) × HaveAllWatched (B.loaded circuits.now).circuit points.now run (B.loaded circuits.now).faults t watchers.old }
    ensures keeps { KeepAllFound watchers.old watchers.new }
    ensures seen { (run : Run) (t : ℕ) → t < cycles_of run → B.IsAfter circuits.now (take (t + 1) run.vectors)
        → HaveAllWatched (B.loaded circuits.now).circuit points.now run (B.loaded circuits.now).faults t watchers.old
        → HaveAllWatched (B.loaded circuits.now).circuit points.now run (B.loaded circuits.now).faults (t + 1) watchers.new }
{
    for word in 0..watchers.len() {
        see_cycle(circuits, word, points, &mut watchers[word]);
    }
}

// Simulates a run from its start in all circuits, and shows each cycle to the watcher of each word. What circuits and watchers have seen
// before is no matter.
fn watch_run<B: Circuits>(bench: &Bench<'_>, run: u32, circuits: &mut B, watchers: &mut [Watcher])
    requires points { ArePointsFor bench.now.net.now bench.now.points.now }
    requires run { run < length bench.now.work.now }
    requires made { IsLoadedFor bench.now.net.now bench.now.order.now (B.loaded circuits.old) }
    requires sound { B.IsSound circuits.old }
    requires count { length watchers.old ≡ B.words }
    requires ready { AreAllReady bench.now.points.now bench.now.ftti watchers.old }
    ensures loaded { B.loaded circuits.new ≡ B.loaded circuits.old }
    ensures sound { B.IsSound circuits.new }
    ensures keeps { KeepAllFound watchers.old watchers.new }
    ensures seen { HaveAllWatched bench.now.net.now bench.now.points.now (run_at bench.now.work.now run) (B.loaded circuits.old).faults
        (cycles_of (run_at bench.now.work.now run)) watchers.new }
{
    circuits.restart();
    start_all(bench.points, bench.ftti, watchers);
    for t in 0..bench.work.cycles(run) {
        circuits.advance(bench.net, bench.order, bench.work.vector(run, t));
        see_all(circuits, bench.points, watchers);
    }
}

// Adds a run to what the runs before it have shown in each word.
fn add_all(kind: Kind, watchers: &mut [Watcher])
    ensures batch { (word : ℕ) → word < length watchers.old → (watcher_at watchers.new word).batch ≡ (watcher_at watchers.old word).batch }
    ensures windows { (word : ℕ) → word < length watchers.old → (watcher_at watchers.new word).windows ≡ (watcher_at watchers.old word).windows }
    ensures planes { (c : Circuit) (points : PointsValue) (runs : List Run) (run : Run) (faults : ℕ → ℕ → List Fault) (word : ℕ) → run.kind ≡ kind
        → HaveAllWatched c points run faults (cycles_of run) watchers.old → word < length watchers.old
        → HasPlanes c points (watcher_at watchers.old word).windows.ftti runs (faults word) (watcher_at watchers.old word).planes
        → HasPlanes c points (watcher_at watchers.old word).windows.ftti (runs ++ run ∷ []) (faults word) (watcher_at watchers.new word).planes }
{
    for word in 0..watchers.len() {
        watchers[word].add_run(kind);
    }
}

/// Simulates all runs in all circuits, and adds what each shows in each word, of which nothing is found before.
pub(crate) fn judge_runs<B: Circuits>(bench: &Bench<'_>, circuits: &mut B, watchers: &mut [Watcher])
    requires points { ArePointsFor bench.now.net.now bench.now.points.now }
    requires made { IsLoadedFor bench.now.net.now bench.now.order.now (B.loaded circuits.old) }
    requires sound { B.IsSound circuits.old }
    requires count { length watchers.old ≡ B.words }
    requires ready { AreAllReady bench.now.points.now bench.now.ftti watchers.old }
    requires nothing { (word : ℕ) → word < length watchers.old → (watcher_at watchers.old word).planes ≡ record { danger = 0; noticed = 0 } }
    ensures loaded { B.loaded circuits.new ≡ B.loaded circuits.old }
    ensures sound { B.IsSound circuits.new }
    ensures ready { AreAllReady bench.now.points.now bench.now.ftti watchers.new }
    ensures batch { (word : ℕ) → word < length watchers.old → (watcher_at watchers.new word).batch ≡ (watcher_at watchers.old word).batch }
    ensures planes { (word : ℕ) → word < length watchers.old
        → HasPlanes bench.now.net.now bench.now.points.now bench.now.ftti bench.now.work.now ((B.loaded circuits.old).faults word) (watcher_at watchers.new word).planes }
{
    for run in 0..bench.work.runs() {
        watch_run(bench, run, circuits, watchers);
        add_all(bench.work.kind(run), watchers);
    }
}
