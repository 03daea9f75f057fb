// All words of lanes see a cycle.
ghost use Rattle.std.specs.Prelude.{◌≡◌, ◌≢◌, ◌<◌, ◌≤◌, ◌∷◌, ◌++◌, [], ◌+◌, ◌||◌, ◌&&◌, ℕ, List, length, slice_index_or, take};
ghost use Rattle.circuit.specs.declared.parts.Fault.{Fault};
ghost use Rattle.workload.specs.declared.run.Run.{Run};
ghost use Rattle.workload.specs.Runs.{cycles_of, is_test};
ghost use Rattle.alarm_points.specs.FourWatches.{AreAllMadeFor, windows_at};
ghost use Rattle.alarm_points.specs.PointsKept.{ArePointsFor};
ghost use Rattle.alarm_points.specs.Watch.{IsAfterPairs, Pair, window_at};
ghost use Rattle.campaign_plan.specs.Danger.{is_raised};
ghost use Rattle.fm_base.specs.Planes.{bit};
ghost use Rattle.classifier.specs.InRun.{IsLastCycle};
ghost use Rattle.classifier.specs.Noise.{noise_at};
ghost use Rattle.classifier.specs.Seen.{AllKeepIntervals, HaveGoalsSeen, HaveSeen, IsWatched, left_at};

use crate::followed::Followed;
use crate::noise::Noise;
use crate::points::either_lanes;
use alarm_points::Points;
use alarm_points::windows::Windows;
use workload::run::Kind;

// Shows the windows of each word a cycle of a goal: the lanes in which one of its points differs, and those in which an alarm is
// raised.
fn see_goal(goal: u32, differs: &[u64; 4], noise: &[Noise; 4], windows: &mut [Windows])
    requires few { length windows.old ≤ 4 }
    requires goal { (word : ℕ) → word < length windows.old → goal < length (windows_at windows.old word).windows }
    ensures keeps { AllKeepIntervals windows.old windows.new }
    ensures others { (word g : ℕ) → g ≢ goal → window_at (windows_at windows.new word) g ≡ window_at (windows_at windows.old word) g }
    ensures step { (word : ℕ) (pairs : List Pair) → word < length windows.old → IsAfterPairs pairs (window_at (windows_at windows.old word) goal)
        → IsAfterPairs (pairs ++ record { differs = slice_index_or differs.now word 0; raised = (noise_at noise.now word).raised } ∷ [])
        (window_at (windows_at windows.new word) goal) }
{
    for word in 0..windows.len() {
        windows[word].see(goal, differs[word], noise[word].raised);
    }
}

// Shows each goal a cycle of a run, in each word.
fn see_goals<F: Followed>(lanes: &F, points: &Points, noise: &[Noise; 4], windows: &mut [Windows])
    requires points { ArePointsFor (F.in_run lanes.now).load.circuit points.now }
    requires count { length windows.old ≡ F.words }
    requires made { AreAllMadeFor points.now windows.old }
    ensures keeps { AllKeepIntervals windows.old windows.new }
    ensures step { (run : Run) (faults : ℕ → List Fault) (known word t left : ℕ) → t < cycles_of run → (F.in_run lanes.now).IsAfter (take (t + 1) run.vectors) → word < F.words
        → ((k : ℕ) → k < 64 → bit (noise_at noise.now word).raised k ≡ is_raised (F.in_run lanes.now).load.circuit points.now ((F.in_run lanes.now).faults word k) run t)
        → IsWatched (F.in_run lanes.now).load.circuit points.now run faults known t ((F.in_run lanes.now).faults word) (windows_at windows.old word) left
        → HaveGoalsSeen (F.in_run lanes.now).load.circuit points.now (windows_at windows.old word).ftti run faults known (t + 1) (windows_at windows.new word) }
{
    let _few = F::words();
    let goals = points.goals.as_slice();
    for (g, goal) in goals.iter().enumerate() {
        let differs = lanes.differing(goal.observe.as_slice());
        see_goal(g as u32, &differs, noise, windows);
    }
}

// The lanes that these alarms give notice of: a silenced alarm is noticed in a test alone.
fn noticed_by(kind: Kind, noise: Noise) -> u64
    ensures { (k : ℕ) → bit result k ≡ (bit noise.raised k || (is_test kind && bit noise.silenced k)) }
{
    match kind {
        Kind::Mission => noise.raised,
        Kind::Test => either_lanes(noise.raised, noise.silenced),
    }
}

// Adds the lanes of each word that these alarms give notice of.
fn notice(kind: Kind, noise: &[Noise; 4], left: &[u64]) -> [u64; 4]
    requires { length left.now ≤ 4 }
    ensures { (word k : ℕ) → word < length left.now → bit (left_at result word) k
        ≡ (bit (left_at left.now word) k || (bit (noise_at noise.now word).raised k || (is_test kind && bit (noise_at noise.now word).silenced k))) }
{
    let mut seen = [0; 4];
    for word in 0..left.len() {
        seen[word] = either_lanes(left[word], noticed_by(kind, noise[word]));
    }
    seen
}

/// Shows the windows of each word the last cycle of a run of this kind, and answers which lanes of each word had left or are noticed in
/// it. `row` has the golden values of this cycle.
pub fn see_cycle<F: Followed>(
    lanes: &F,
    points: &Points,
    kind: Kind,
    row: &[u64],
    windows: &mut [Windows],
    left: &[u64],
) -> [u64; 4]
    requires points { ArePointsFor (F.in_run lanes.now).load.circuit points.now }
    requires counts { (length windows.old ≡ F.words) × (length left.now ≡ F.words) }
    requires made { AreAllMadeFor points.now windows.old }
    ensures keeps { AllKeepIntervals windows.old windows.new }
    ensures seen { (run : Run) (faults : ℕ → List Fault) (known word t : ℕ) → IsLastCycle kind run t row.now (F.in_run lanes.now) → word < F.words
        → IsWatched (F.in_run lanes.now).load.circuit points.now run faults known t ((F.in_run lanes.now).faults word) (windows_at windows.old word) (left_at left.now word)
        → HaveSeen (F.in_run lanes.now).load.circuit points.now run faults known (t + 1) (windows_at windows.new word) (left_at result word) }
{
    let _few = F::words();
    let noise = lanes.noise_in(row, points.alarm.as_slice());
    see_goals(lanes, points, &noise, windows);
    notice(kind, &noise, left)
}
