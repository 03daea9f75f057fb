// The records of a group see a cycle.
ghost use Rattle.std.specs.Prelude.{◌≡◌, ◌<◌, ◌≤◌, ℕ, List, Option, All, length};
ghost use Rattle.circuit.specs.declared.parts.Fault.{Fault};
ghost use Rattle.circuit.specs.Sound.{IsNet};
ghost use Rattle.workload.specs.declared.run.Run.{Run};
ghost use Rattle.alarm_points.specs.PointsKept.{ArePointsFor};
ghost use Rattle.campaign_plan.specs.Danger.{differs};
ghost use Rattle.lane_words.specs.Loads.{loaded_faults};
ghost use Rattle.first_cycles.specs.FirstCycles.{first_with, is_raised_at};
ghost use Rattle.first_cycles.specs.Shown.{is_silenced_at};
ghost use Rattle.fault_runs.specs.First.{IsNotIn, fault_in, first_of};
ghost use Rattle.fault_runs.specs.Records.{AreKnownIn, AreRecordsFor, IsAlarmKnown, IsGoalKnown, IsSameRecord, alarm_cycles, goal_cycles, record_of};
ghost use Rattle.fault_runs.specs.Shown.{SeesCycle};
ghost use Rattle.fault_runs.specs.Stretch.{IsAfterCycle};
ghost use Rattle.testbench.specs.Points.{alarm_at, goal_at};

use crate::first::FirstCycles;
use crate::points::{differ_in, difference_at};
use crate::record::{AlarmCycles, FaultRecords};
use alarm_points::{Goal, Points};
use circuit::parts::NetId;
use differential_kernel::DifferentialLanes;
use lane_words::Word;
use place_set::value_in_words;

// Shows each goal the last cycle of a run, which is cycle t.
fn see_goals<W: Word>(
    lanes: &DifferentialLanes<W>,
    group: &[u32],
    t: u32,
    goals: &[Goal],
    firsts: &mut [FirstCycles],
)
    requires few { length group.now ≤ W.lanes }
    requires nets { (g : ℕ) → g < length goals.now → All (IsNet lanes.now.circuit) (goal_at goals.now g).observe }
    requires count { length firsts.old ≡ length goals.now }
    requires group { (g : ℕ) → g < length goals.now → All (λ i. i < length (goal_cycles firsts.old g).cycles) group.now }
    requires known { (g : ℕ) → g < length goals.now → IsGoalKnown group.now (goal_cycles firsts.old g) }
    ensures count { (g : ℕ) → length (goal_cycles firsts.new g).cycles ≡ length (goal_cycles firsts.old g).cycles }
    ensures known { (g : ℕ) → g < length goals.now → IsGoalKnown group.now (goal_cycles firsts.new g) }
    ensures seen { (run : Run) (draw : List (List (Option Fault))) (row : List ℕ) (g k : ℕ) → g < length goals.now
        → IsAfterCycle W.lanes W.lane_bit run t draw group.now row lanes.now → k < length group.now
        → first_of (goal_cycles firsts.new g) (fault_in group.now k)
        ≡ first_with (first_of (goal_cycles firsts.old g) (fault_in group.now k)) (differs lanes.now.circuit (goal_at goals.now g) (loaded_faults draw (fault_in group.now k)) run t) t }
    ensures others { (g i : ℕ) → IsNotIn group.now i → first_of (goal_cycles firsts.new g) i ≡ first_of (goal_cycles firsts.old g) i }
{
    for (g, goal) in goals.iter().enumerate() {
        let differ = differ_in(lanes, goal.observe.as_slice());
        firsts[g].see(group, t, differ);
    }
}

// Shows each alarm point the last cycle of a run, which is cycle t; `row` has the golden values of this cycle.
fn see_alarms<W: Word>(
    lanes: &DifferentialLanes<W>,
    group: &[u32],
    t: u32,
    row: &[u64],
    nets: &[NetId],
    alarms: &mut [AlarmCycles],
)
    requires few { length group.now ≤ W.lanes }
    requires nets { All (IsNet lanes.now.circuit) nets.now }
    requires count { length alarms.old ≡ length nets.now }
    requires raised { (a : ℕ) → a < length nets.now → All (λ i. i < length (alarm_cycles alarms.old a).raised.cycles) group.now }
    requires silenced { (a : ℕ) → a < length nets.now → All (λ i. i < length (alarm_cycles alarms.old a).silenced.cycles) group.now }
    requires known { (a : ℕ) → a < length nets.now → IsAlarmKnown group.now (alarm_cycles alarms.old a) }
    ensures raised_count { (a : ℕ) → length (alarm_cycles alarms.new a).raised.cycles ≡ length (alarm_cycles alarms.old a).raised.cycles }
    ensures silenced_count { (a : ℕ) → length (alarm_cycles alarms.new a).silenced.cycles ≡ length (alarm_cycles alarms.old a).silenced.cycles }
    ensures known { (a : ℕ) → a < length nets.now → IsAlarmKnown group.now (alarm_cycles alarms.new a) }
    ensures raised { (run : Run) (draw : List (List (Option Fault))) (a k : ℕ) → a < length nets.now
        → IsAfterCycle W.lanes W.lane_bit run t draw group.now row.now lanes.now → k < length group.now
        → first_of (alarm_cycles alarms.new a).raised (fault_in group.now k)
        ≡ first_with (first_of (alarm_cycles alarms.old a).raised (fault_in group.now k)) (is_raised_at lanes.now.circuit (loaded_faults draw (fault_in group.now k)) run (alarm_at nets.now a) t) t }
    ensures silenced { (run : Run) (draw : List (List (Option Fault))) (a k : ℕ) → a < length nets.now
        → IsAfterCycle W.lanes W.lane_bit run t draw group.now row.now lanes.now → k < length group.now
        → first_of (alarm_cycles alarms.new a).silenced (fault_in group.now k)
        ≡ first_with (first_of (alarm_cycles alarms.old a).silenced (fault_in group.now k)) (is_silenced_at lanes.now.circuit (loaded_faults draw (fault_in group.now k)) run (alarm_at nets.now a) t) t }
    ensures raised_others { (a i : ℕ) → IsNotIn group.now i → first_of (alarm_cycles alarms.new a).raised i ≡ first_of (alarm_cycles alarms.old a).raised i }
    ensures silenced_others { (a i : ℕ) → IsNotIn group.now i → first_of (alarm_cycles alarms.new a).silenced i ≡ first_of (alarm_cycles alarms.old a).silenced i }
{
    for (a, net) in nets.iter().enumerate() {
        let golden = value_in_words(row, net.0 as usize);
        let differs = difference_at(lanes, *net);
        alarms[a].see(group, t, golden, differs);
    }
}

/// Shows the records of a group the last cycle of a run, which is cycle t. `row` has the golden values of this cycle.
pub fn see_cycle<W: Word>(
    lanes: &DifferentialLanes<W>,
    points: &Points,
    group: &[u32],
    t: u32,
    row: &[u64],
    records: &mut FaultRecords,
)
    requires few { length group.now ≤ W.lanes }
    requires points { ArePointsFor lanes.now.circuit points.now }
    requires group { All (λ i. i < records.old.faults) group.now }
    requires fit { AreRecordsFor points.now records.old }
    requires known { AreKnownIn group.now records.old }
    ensures faults { records.new.faults ≡ records.old.faults }
    ensures fit { AreRecordsFor points.now records.new }
    ensures known { AreKnownIn group.now records.new }
    ensures seen { (run : Run) (draw : List (List (Option Fault))) (k : ℕ) → IsAfterCycle W.lanes W.lane_bit run t draw group.now row.now lanes.now → k < length group.now
        → SeesCycle lanes.now.circuit points.now run (loaded_faults draw (fault_in group.now k)) t (record_of records.old (fault_in group.now k)) (record_of records.new (fault_in group.now k)) }
    ensures others { (i : ℕ) → IsNotIn group.now i → IsSameRecord (record_of records.old i) (record_of records.new i) }
{
    let goals = points.goals.as_slice();
    see_goals(lanes, group, t, goals, records.goals.as_mut_slice());
    let nets = points.alarm.as_slice();
    see_alarms(lanes, group, t, row, nets, records.alarms.as_mut_slice());
}
