// What a run shows of one fault.
ghost use Rattle.std.specs.Prelude.{◌≡◌, ◌<◌, ◌||◌, ◌&&◌, ℕ, IfOk, None, false, is_some, length, slice_index_or};
ghost use Rattle.workload.specs.Runs.{is_test};
ghost use Rattle.first_cycles.specs.Shown.{Shown};
ghost use Rattle.fault_runs.specs.First.{first_of};
ghost use Rattle.fault_runs.specs.Records.{AreRecordsFor, alarm_cycles, goal_cycles, record_of};
ghost use Rattle.fault_runs.specs.Whole.{HasShownRun};
ghost use Rattle.reading_planes.specs.Folded.{AreCyclesFor, AreCyclesOf};

use crate::late::first_of_others;
use crate::notice::some_other;
use alarm_points::Points;
use fault_runs::{AlarmCycles, FaultRecords, FirstCycles};
use room::{NoRoom, filled};
use std::alloc::Global;
use std::marker::Model;
use workload::run::Kind;

/// What a run has shown of one fault: of each goal the first difference, of each alarm point the first alarm and whether it gives notice,
/// the earliest alarm, and whether any alarm point gives notice. No call but `new` takes memory.
#[derive(Drop)]
pub struct FaultCycles {
    pub(crate) differences: Vec<Option<u32>>,
    pub(crate) alarms: Vec<Option<u32>>,
    pub(crate) notices: Vec<bool>,
    pub(crate) first: Option<u32>,
    pub(crate) noticed: bool,
}

impl Model for FaultCycles {
    ghost use Rattle.reading_planes.specs.Folded.{FaultCycles as Cycles};

    ghost Value = { Cycles };

    ghost view = { λ c. record { differences = c.differences.items; alarms = c.alarms.items; notices = c.notices.items; first = c.first; noticed = c.noticed } };
}

// Takes the first difference of each goal.
fn take_differences(goals: &[FirstCycles], fault: u32, differences: &mut [Option<u32>])
    requires { length differences.old ≡ length goals.now }
    ensures { (g : ℕ) → g < length goals.now → slice_index_or differences.new g None ≡ first_of (goal_cycles goals.now g) fault }
{
    for (g, goal) in goals.iter().enumerate() {
        differences[g] = goal.first(fault);
    }
}

// Takes the first alarm of each alarm point.
fn take_alarms(points: &[AlarmCycles], fault: u32, alarms: &mut [Option<u32>])
    requires { length alarms.old ≡ length points.now }
    ensures { (a : ℕ) → a < length points.now → slice_index_or alarms.new a None ≡ first_of (alarm_cycles points.now a).raised fault }
{
    for (a, point) in points.iter().enumerate() {
        alarms[a] = point.raised().first(fault);
    }
}

// Whether an alarm point gives notice in a run of this kind: it is raised, or silenced in a test.
fn gives_notice(kind: Kind, point: &AlarmCycles, fault: u32) -> bool
    ensures { result ≡ (is_some (first_of point.now.raised fault) || (is_test kind && is_some (first_of point.now.silenced fault))) }
{
    let raised = point.raised().first(fault).is_some();
    match kind {
        Kind::Mission => raised,
        Kind::Test => raised || point.silenced().first(fault).is_some(),
    }
}

// Takes of each alarm point whether it gives notice in a run of this kind.
fn take_notices(kind: Kind, points: &[AlarmCycles], fault: u32, notices: &mut [bool])
    requires { length notices.old ≡ length points.now }
    ensures { (a : ℕ) → a < length points.now
        → slice_index_or notices.new a false ≡ (is_some (first_of (alarm_cycles points.now a).raised fault) || (is_test kind && is_some (first_of (alarm_cycles points.now a).silenced fault))) }
{
    for (a, point) in points.iter().enumerate() {
        notices[a] = gives_notice(kind, point, fault);
    }
}

impl FaultCycles {
    /// Room for what a run shows of a fault.
    pub fn new(alloc: Global, points: &Points) -> Result<Self, NoRoom>
        ensures { IfOk result (AreCyclesFor points.now) }
    {
        let alarms = points.alarm.as_slice().len();
        Ok(FaultCycles {
            differences: filled(alloc, None, points.goals.as_slice().len())?,
            alarms: filled(alloc, None, alarms)?,
            notices: filled(alloc, false, alarms)?,
            first: None,
            noticed: false,
        })
    }

    /// Takes what a run of this kind has shown of a fault, by its number in the draw; what was here before is no matter.
    pub(crate) fn load(&mut self, kind: Kind, points: &Points, records: &FaultRecords, fault: u32)
        requires fit { AreRecordsFor points.now records.now }
        requires made { AreCyclesFor points.now self.old }
        ensures made { AreCyclesFor points.now self.new }
        ensures loaded { (s : Shown) → s.kind ≡ kind → HasShownRun points.now s (record_of records.now fault) → AreCyclesOf points.now s self.new }
    {
        let nets = points.alarm.as_slice();
        take_differences(records.goals(), fault, self.differences.as_mut_slice());
        take_alarms(records.alarms(), fault, self.alarms.as_mut_slice());
        take_notices(kind, records.alarms(), fault, self.notices.as_mut_slice());
        self.first = first_of_others(nets, self.alarms.as_slice(), None);
        self.noticed = some_other(nets, self.notices.as_slice(), None);
    }

    // Whether some goal has differed.
    fn has_difference(&self) -> bool
        ensures { result ≡ false → (g : ℕ) → g < length self.now.differences → slice_index_or self.now.differences g None ≡ None }
    {
        for difference in self.differences.as_slice() {
            if difference.is_some() {
                return true;
            }
        }
        false
    }

    /// Whether anything was shown: some goal has differed, or some alarm point gives notice.
    pub(crate) fn has_some(&self) -> bool
        ensures difference { result ≡ false → (g : ℕ) → g < length self.now.differences → slice_index_or self.now.differences g None ≡ None }
        ensures noticed { result ≡ false → self.now.noticed ≡ false }
    {
        self.noticed || self.has_difference()
    }
}
