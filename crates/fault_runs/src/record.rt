// What a run has shown so far of each fault of a draw.
ghost use Rattle.std.specs.Prelude.{◌≡◌, ◌<◌, ◌≤◌, ◌&&◌, ℕ, Bool, List, All, IfOk, None, length, not};
ghost use Rattle.alarm_points.specs.declared.Points.{Points as PointsValue};
ghost use Rattle.circuit.specs.declared.parts.Fault.{Fault};
ghost use Rattle.circuit.specs.Circuit.{Circuit};
ghost use Rattle.workload.specs.declared.run.Run.{Run};
ghost use Rattle.fault_runs.specs.First.{IsNotIn, fault_in, first_of};
ghost use Rattle.fault_runs.specs.Records.{AreKnownIn, AreRecordsFor, IsAlarmKnown, IsGoalKnown, IsSameRecord, alarm_cycles as alarm_at, goal_cycles as goal_at, record_of};
ghost use Rattle.fault_runs.specs.Shown.{HasShown};
ghost use Rattle.first_cycles.specs.FirstCycles.{first_with};

use crate::first::FirstCycles;
use alarm_points::Points;
use lane_words::Word;
use room::{NoRoom, push};
use std::alloc::Global;
use std::marker::Model;

/// What a run has shown of an alarm point, of each fault of a draw: when it is first raised, and when it is first silenced.
#[derive(Drop)]
pub struct AlarmCycles {
    raised: FirstCycles,
    silenced: FirstCycles,
}

impl AlarmCycles {
    /// Nothing has been seen of so many faults.
    fn new(alloc: Global, faults: usize) -> Result<Self, NoRoom>
        ensures raised { IfOk result (λ alarm. length alarm.raised.cycles ≡ faults) }
        ensures silenced { IfOk result (λ alarm. length alarm.silenced.cycles ≡ faults) }
    {
        let raised = FirstCycles::new(alloc, faults)?;
        let silenced = FirstCycles::new(alloc, faults)?;
        Ok(AlarmCycles { raised, silenced })
    }

    /// Forgets what was seen: the next cycle is the first of a run.
    fn start(&mut self)
        ensures raised_count { length self.new.raised.cycles ≡ length self.old.raised.cycles }
        ensures silenced_count { length self.new.silenced.cycles ≡ length self.old.silenced.cycles }
        ensures raised { (i : ℕ) → first_of self.new.raised i ≡ None }
        ensures silenced { (i : ℕ) → first_of self.new.silenced i ≡ None }
    {
        self.raised.start();
        self.silenced.start();
    }

    /// Another group begins.
    fn begin(&mut self)
        ensures raised { self.new.raised.cycles ≡ self.old.raised.cycles }
        ensures silenced { self.new.silenced.cycles ≡ self.old.silenced.cycles }
        ensures known { (group : List ℕ) → IsAlarmKnown group self.new }
    {
        self.raised.begin();
        self.silenced.begin();
    }

    /// Shows the golden value of the point in a cycle, and the lanes of a group in which it differs: it is raised where the golden value
    /// is 0, and silenced where it is 1.
    pub(crate) fn see<W: Word>(&mut self, group: &[u32], cycle: u32, golden: bool, differs: W)
        requires few { length group.now ≤ W.lanes }
        requires raised { All (λ i. i < length self.old.raised.cycles) group.now }
        requires silenced { All (λ i. i < length self.old.silenced.cycles) group.now }
        requires known { IsAlarmKnown group.now self.old }
        ensures raised_count { length self.new.raised.cycles ≡ length self.old.raised.cycles }
        ensures silenced_count { length self.new.silenced.cycles ≡ length self.old.silenced.cycles }
        ensures known { IsAlarmKnown group.now self.new }
        ensures raised { (is_raised : ℕ → Bool) → ((k : ℕ) → k < length group.now → (W.lane_bit differs k && not golden) ≡ is_raised (fault_in group.now k))
            → (k : ℕ) → k < length group.now
            → first_of self.new.raised (fault_in group.now k) ≡ first_with (first_of self.old.raised (fault_in group.now k)) (is_raised (fault_in group.now k)) cycle }
        ensures silenced { (is_silenced : ℕ → Bool) → ((k : ℕ) → k < length group.now → (W.lane_bit differs k && golden) ≡ is_silenced (fault_in group.now k))
            → (k : ℕ) → k < length group.now
            → first_of self.new.silenced (fault_in group.now k) ≡ first_with (first_of self.old.silenced (fault_in group.now k)) (is_silenced (fault_in group.now k)) cycle }
        ensures raised_others { (i : ℕ) → IsNotIn group.now i → first_of self.new.raised i ≡ first_of self.old.raised i }
        ensures silenced_others { (i : ℕ) → IsNotIn group.now i → first_of self.new.silenced i ≡ first_of self.old.silenced i }
    {
        self.raised.see(group, cycle, differs.and(W::all(!golden)));
        self.silenced.see(group, cycle, differs.and(W::all(golden)));
    }

    /// When the point is first raised.
    pub fn raised(&self) -> &FirstCycles
        ensures { result.now ≡ self.now.raised }
    {
        &self.raised
    }

    /// When the point is first silenced.
    pub fn silenced(&self) -> &FirstCycles
        ensures { result.now ≡ self.now.silenced }
    {
        &self.silenced
    }
}

/// What a run has shown so far of each fault of a draw: of each safety goal the first cycle in which a point of it differs, and of each
/// alarm point the first cycle in which it is raised, and the first in which it is silenced. No call but `new` takes memory.
#[derive(Drop)]
pub struct FaultRecords {
    pub(crate) faults: usize,
    pub(crate) goals: Vec<FirstCycles>,
    pub(crate) alarms: Vec<AlarmCycles>,
}

impl Model for FaultRecords {
    ghost use Rattle.fault_runs.specs.Records.{FaultRecords as Records};

    ghost Value = { Records };

    ghost view = { λ r. record { faults = r.faults; goals = r.goals.items; alarms = r.alarms.items } };
}

// Room for so many goals.
fn goal_cycles(alloc: Global, count: usize, faults: usize) -> Result<Vec<FirstCycles>, NoRoom>
    ensures count { IfOk result (λ goals. length goals.items ≡ count) }
    ensures faults { IfOk result (λ goals. (g : ℕ) → g < length goals.items → length (goal_at goals.items g).cycles ≡ faults) }
{
    let mut goals = Vec::new(alloc);
    for _ in 0..count {
        push(&mut goals, FirstCycles::new(alloc, faults)?)?;
    }
    Ok(goals)
}

// Room for so many alarm points.
fn alarm_cycles(alloc: Global, count: usize, faults: usize) -> Result<Vec<AlarmCycles>, NoRoom>
    ensures count { IfOk result (λ alarms. length alarms.items ≡ count) }
    ensures raised { IfOk result (λ alarms. (a : ℕ) → a < length alarms.items → length (alarm_at alarms.items a).raised.cycles ≡ faults) }
    ensures silenced { IfOk result (λ alarms. (a : ℕ) → a < length alarms.items → length (alarm_at alarms.items a).silenced.cycles ≡ faults) }
{
    let mut alarms = Vec::new(alloc);
    for _ in 0..count {
        push(&mut alarms, AlarmCycles::new(alloc, faults)?)?;
    }
    Ok(alarms)
}

// Forgets what was seen of each goal.
fn start_goals(goals: &mut [FirstCycles])
    ensures count { (g : ℕ) → length (goal_at goals.new g).cycles ≡ length (goal_at goals.old g).cycles }
    ensures nothing { (g i : ℕ) → g < length goals.old → first_of (goal_at goals.new g) i ≡ None }
{
    for goal in goals.iter_mut() {
        goal.start();
    }
}

// Forgets what was seen of each alarm point.
fn start_alarms(alarms: &mut [AlarmCycles])
    ensures raised_count { (a : ℕ) → length (alarm_at alarms.new a).raised.cycles ≡ length (alarm_at alarms.old a).raised.cycles }
    ensures silenced_count { (a : ℕ) → length (alarm_at alarms.new a).silenced.cycles ≡ length (alarm_at alarms.old a).silenced.cycles }
    ensures raised { (a i : ℕ) → a < length alarms.old → first_of (alarm_at alarms.new a).raised i ≡ None }
    ensures silenced { (a i : ℕ) → a < length alarms.old → first_of (alarm_at alarms.new a).silenced i ≡ None }
{
    for alarm in alarms.iter_mut() {
        alarm.start();
    }
}

// Another group begins at each goal.
fn begin_goals(goals: &mut [FirstCycles])
    ensures same { (g : ℕ) → (goal_at goals.new g).cycles ≡ (goal_at goals.old g).cycles }
    ensures known { (group : List ℕ) (g : ℕ) → g < length goals.old → IsGoalKnown group (goal_at goals.new g) }
{
    for goal in goals.iter_mut() {
        goal.begin();
    }
}

// And at each alarm point.
fn begin_alarms(alarms: &mut [AlarmCycles])
    ensures raised { (a : ℕ) → (alarm_at alarms.new a).raised.cycles ≡ (alarm_at alarms.old a).raised.cycles }
    ensures silenced { (a : ℕ) → (alarm_at alarms.new a).silenced.cycles ≡ (alarm_at alarms.old a).silenced.cycles }
    ensures known { (group : List ℕ) (a : ℕ) → a < length alarms.old → IsAlarmKnown group (alarm_at alarms.new a) }
{
    for alarm in alarms.iter_mut() {
        alarm.begin();
    }
}

impl FaultRecords {
    /// Records of so many faults, for these points.
    pub fn new(alloc: Global, faults: usize, points: &Points) -> Result<Self, NoRoom>
        ensures fit { IfOk result (AreRecordsFor points.now) }
        ensures faults { IfOk result (λ r. r.faults ≡ faults) }
    {
        let goals = goal_cycles(alloc, points.goals.as_slice().len(), faults)?;
        let alarms = alarm_cycles(alloc, points.alarm.as_slice().len(), faults)?;
        Ok(FaultRecords {
            faults,
            goals,
            alarms,
        })
    }

    /// Forgets what was seen: the next cycle is the first of a run.
    pub fn start(&mut self)
        ensures faults { self.new.faults ≡ self.old.faults }
        ensures fit { (points : PointsValue) → AreRecordsFor points self.old → AreRecordsFor points self.new }
        ensures nothing { (c : Circuit) (points : PointsValue) (run : Run) (x : List Fault) (i : ℕ) → AreRecordsFor points self.old → HasShown c points run x 0 (record_of self.new i) }
    {
        start_goals(&mut self.goals);
        start_alarms(&mut self.alarms);
    }

    /// Another group of faults begins.
    pub(crate) fn begin(&mut self)
        ensures faults { self.new.faults ≡ self.old.faults }
        ensures fit { (points : PointsValue) → AreRecordsFor points self.old → AreRecordsFor points self.new }
        ensures same { (i : ℕ) → IsSameRecord (record_of self.old i) (record_of self.new i) }
        ensures known { (group : List ℕ) → AreKnownIn group self.new }
    {
        begin_goals(&mut self.goals);
        begin_alarms(&mut self.alarms);
    }

    /// When each goal first differs, in the order of the points.
    pub fn goals(&self) -> &[FirstCycles]
        ensures { result.now ≡ self.now.goals }
    {
        self.goals.as_slice()
    }

    /// What was seen of each alarm point, in the order of the points.
    pub fn alarms(&self) -> &[AlarmCycles]
        ensures { result.now ≡ self.now.alarms }
    {
        self.alarms.as_slice()
    }
}
