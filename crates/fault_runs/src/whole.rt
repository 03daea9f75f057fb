// Faults that have shown all that they can.
ghost use Rattle.std.specs.Prelude.{◌≡◌, ◌<◌, ◌⊎◌, ℕ, All, List, [], true, is_some, length, slice_index_or};
ghost use Rattle.circuit.specs.Sound.{IsNet};
ghost use Rattle.workload.specs.declared.run.Kind.{Kind as KindValue};
ghost use Rattle.workload.specs.Runs.{is_mission};
ghost use Rattle.lane_words.specs.Loads.{loaded_faults, somes};
ghost use Rattle.fault_runs.specs.First.{first_of};
ghost use Rattle.fault_runs.specs.Records.{RunShown, alarm_cycles, goal_cycles, record_of};
ghost use Rattle.fault_runs.specs.Whole.{ArePathsTo, HaveShownAll, NeverChange};
ghost use Rattle.testbench.specs.Points.{alarm_at, goal_at};

use crate::first::FirstCycles;
use crate::leaving::LeavingRule;
use crate::paths::are_beyond;
use crate::record::{AlarmCycles, FaultRecords};
use circuit::parts::Fault;
use reach::{Reach, Sort};
use testbench::Testbench;
use workload::run::Kind;

/// The rule by which a fault leaves a run of the mission once nothing more of it can be seen: each goal has differed and each alarm
/// point was raised, but for those that the fault never changes. Runs of a test are followed to their ends.
#[derive(Clone, Copy)]
pub(crate) struct AllShown<'a> {
    pub bench: &'a Testbench<'a>,
    // the paths to the alarm points
    pub paths: &'a [Reach],
    pub draw: &'a [[Option<Fault>; 2]],
}

// Whether a goal has differed.
fn has_differed(goals: &[FirstCycles], g: usize, fault: u32) -> bool
    ensures { result ≡ true → is_some (first_of (goal_cycles goals.now g) fault) ≡ true }
{
    match goals.get(g) {
        Some(goal) => goal.first(fault).is_some(),
        None => false,
    }
}

// Whether each of so many goals has differed.
fn have_differed(goals: &[FirstCycles], count: usize, fault: u32) -> bool
    ensures { result ≡ true → (g : ℕ) → g < count → is_some (first_of (goal_cycles goals.now g) fault) ≡ true }
{
    for g in 0..count {
        if !has_differed(goals, g, fault) {
            return false;
        }
    }
    true
}

// Whether an alarm point was raised.
fn was_raised(alarms: &[AlarmCycles], a: usize, fault: u32) -> bool
    ensures { result ≡ true → is_some (first_of (alarm_cycles alarms.now a).raised fault) ≡ true }
{
    match alarms.get(a) {
        Some(alarm) => alarm.raised().first(fault).is_some(),
        None => false,
    }
}

impl AllShown<'_> {
    // Whether no fault of these changes an observation point.
    fn are_harmless(&self, faults: &[Option<Fault>]) -> bool
        ensures { result ≡ true → (g : ℕ) → g < length self.now.bench.now.points.goals
            → All (NeverChange self.now.bench.now.circuit (somes faults.now)) (goal_at self.now.bench.now.points.goals g).observe }
    {
        let latches = self.bench.net().latches();
        are_beyond(self.bench.reach(), latches, faults, Sort::Observation)
    }

    // Whether no fault of these changes an alarm point.
    fn are_silent(&self, a: usize, faults: &[Option<Fault>]) -> bool
        requires paths { ArePathsTo self.now.bench.now.circuit self.now.bench.now.points self.now.paths.now }
        requires nets { All (IsNet self.now.bench.now.circuit) self.now.bench.now.points.alarm }
        ensures { result ≡ true → a < length self.now.bench.now.points.alarm
            → NeverChange self.now.bench.now.circuit (somes faults.now) (alarm_at self.now.bench.now.points.alarm a) }
    {
        match self.paths.get(a) {
            Some(reach) => are_beyond(reach, self.bench.net().latches(), faults, Sort::Alarm),
            None => false,
        }
    }

    // Whether an alarm point was raised, or these faults never change it.
    fn is_closed(
        &self,
        alarms: &[AlarmCycles],
        a: usize,
        faults: &[Option<Fault>],
        fault: u32,
    ) -> bool
        requires paths { ArePathsTo self.now.bench.now.circuit self.now.bench.now.points self.now.paths.now }
        requires nets { All (IsNet self.now.bench.now.circuit) self.now.bench.now.points.alarm }
        ensures { result ≡ true → a < length self.now.bench.now.points.alarm → (is_some (first_of (alarm_cycles alarms.now a).raised fault) ≡ true)
            ⊎ NeverChange self.now.bench.now.circuit (somes faults.now) (alarm_at self.now.bench.now.points.alarm a) }
    {
        if was_raised(alarms, a, fault) {
            return true;
        }
        self.are_silent(a, faults)
    }

    // Whether each alarm point was raised, but for those that these faults never change.
    fn have_raised(&self, alarms: &[AlarmCycles], faults: &[Option<Fault>], fault: u32) -> bool
        requires paths { ArePathsTo self.now.bench.now.circuit self.now.bench.now.points self.now.paths.now }
        ensures { result ≡ true → (a : ℕ) → a < length self.now.bench.now.points.alarm
            → (is_some (first_of (alarm_cycles alarms.now a).raised fault) ≡ true)
            ⊎ NeverChange self.now.bench.now.circuit (somes faults.now) (alarm_at self.now.bench.now.points.alarm a) }
    {
        let nets = self.bench.points().alarm.as_slice();
        for a in 0..nets.len() {
            if !self.is_closed(alarms, a, faults, fault) {
                return false;
            }
        }
        true
    }

    // Whether each goal has differed, if these faults change one at all.
    fn have_reached(&self, goals: &[FirstCycles], faults: &[Option<Fault>], fault: u32) -> bool
        ensures { result ≡ true → (g : ℕ) → g < length self.now.bench.now.points.goals
            → (is_some (first_of (goal_cycles goals.now g) fault) ≡ true)
            ⊎ All (NeverChange self.now.bench.now.circuit (somes faults.now)) (goal_at self.now.bench.now.points.goals g).observe }
    {
        let count = self.bench.points().goals.as_slice().len();
        if have_differed(goals, count, fault) {
            return true;
        }
        self.are_harmless(faults)
    }

    // Whether these faults have shown all that they can.
    fn have_shown(&self, records: &FaultRecords, faults: &[Option<Fault>], fault: u32) -> bool
        requires paths { ArePathsTo self.now.bench.now.circuit self.now.bench.now.points self.now.paths.now }
        ensures { result ≡ true → HaveShownAll self.now.bench.now.circuit self.now.bench.now.points (somes faults.now) (record_of records.now fault) }
    {
        self.have_reached(records.goals(), faults, fault)
            && self.have_raised(records.alarms(), faults, fault)
    }
}

impl LeavingRule for AllShown<'_> {
    ghost is_sound = { λ rule. ArePathsTo rule.bench.now.circuit rule.bench.now.points rule.paths.now };

    ghost may_leave = { λ rule fault kind _ r.
        (is_mission kind ≡ true) × HaveShownAll rule.bench.now.circuit rule.bench.now.points (loaded_faults rule.draw.now fault) r };

    fn leaves(&self, fault: u32, kind: Kind, _cycles: u32, records: &FaultRecords) -> bool {
        match (kind, self.draw.get(fault as usize)) {
            (Kind::Mission, Some(faults)) => self.have_shown(records, faults, fault),
            _ => false,
        }
    }
}
