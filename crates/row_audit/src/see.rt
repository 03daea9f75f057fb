// One word of lanes sees a cycle.
ghost use Rattle.std.specs.Prelude.{◌≡◌, ◌<◌, ◌≤◌, ◌+◌, ℕ, All, length, take};
ghost use Rattle.circuit.specs.Sound.{IsNet};
ghost use Rattle.workload.specs.declared.run.Run.{Run};
ghost use Rattle.workload.specs.Runs.{cycles_of};
ghost use Rattle.alarm_points.specs.PointsKept.{ArePointsFor};
ghost use Rattle.alarm_points.specs.Watch.{KeepsIntervals, window_at};
ghost use Rattle.alarm_points.specs.declared.Points.{Points as PointsValue};
ghost use Rattle.campaign_plan.specs.Danger.{is_raised};
ghost use Rattle.fm_base.specs.Planes.{bit};
ghost use Rattle.row_audit.specs.Watched.{HasWatched, HaveWatched, KeepsFound};
ghost use Rattle.testbench.specs.Points.{goal_at};

use crate::circuits::Circuits;
use crate::points::{alarms_in, differing, either_lanes};
use crate::watcher::Watcher;
use alarm_points::windows::Windows;
use alarm_points::{Goal, Points};

// Shows each goal a cycle of a run: the lanes in which one of its points differs, and those in which an alarm is raised.
fn see_goals<B: Circuits>(
    circuits: &B,
    word: usize,
    goals: &[Goal],
    raised: u64,
    windows: &mut Windows,
)
    requires word { word < B.words }
    requires sound { B.IsSound circuits.now }
    requires few_goals { length goals.now ≤ 4 }
    requires nets { (g : ℕ) → g < length goals.now → All (IsNet (B.loaded circuits.now).circuit) (goal_at goals.now g).observe }
    requires windows { length windows.old.windows ≡ length goals.now }
    ensures keeps { KeepsIntervals windows.old windows.new }
    ensures count { length windows.new.windows ≡ length goals.now }
    ensures step { (points : PointsValue) (run : Run) (t g : ℕ) → t < cycles_of run → g < length goals.now → B.IsAfter circuits.now (take (t + 1) run.vectors)
        → ((k : ℕ) → k < 64 → bit raised k ≡ is_raised (B.loaded circuits.now).circuit points ((B.loaded circuits.now).faults word k) run t)
        → HasWatched (B.loaded circuits.now).circuit points run ((B.loaded circuits.now).faults word) (goal_at goals.now g) t (window_at windows.old g)
        → HasWatched (B.loaded circuits.now).circuit points run ((B.loaded circuits.now).faults word) (goal_at goals.now g) (t + 1) (window_at windows.new g) }
{
    for (g, goal) in goals.iter().enumerate() {
        let differs = differing(circuits, word, goal.observe.as_slice());
        windows.see(g as u32, differs, raised);
    }
}

/// Shows a word's watcher the last cycle of a run.
pub(crate) fn see_cycle<B: Circuits>(
    circuits: &B,
    word: usize,
    points: &Points,
    watcher: &mut Watcher,
)
    requires word { word < B.words }
    requires sound { B.IsSound circuits.now }
    requires points { ArePointsFor (B.loaded circuits.now).circuit points.now }
    requires windows { length watcher.old.windows.windows ≡ length points.now.goals }
    ensures keeps { KeepsFound watcher.old watcher.new }
    ensures seen { (run : Run) (t : ℕ) → t < cycles_of run → B.IsAfter circuits.now (take (t + 1) run.vectors)
        → HaveWatched (B.loaded circuits.now).circuit points.now run ((B.loaded circuits.now).faults word) t watcher.old
        → HaveWatched (B.loaded circuits.now).circuit points.now run ((B.loaded circuits.now).faults word) (t + 1) watcher.new }
{
    let found = alarms_in(circuits, word, points.alarm.as_slice());
    see_goals(
        circuits,
        word,
        points.goals.as_slice(),
        found.raised,
        &mut watcher.windows,
    );
    watcher.alarms.raised = either_lanes(watcher.alarms.raised, found.raised);
    watcher.alarms.silenced = either_lanes(watcher.alarms.silenced, found.silenced);
}
