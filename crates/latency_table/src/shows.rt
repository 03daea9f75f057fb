// What a run shows of one fault.
ghost use Rattle.std.specs.Prelude.{◌≡◌, ◌<◌, ◌||◌, ℕ, List, Option, None, Some, false, find, is_some, length, map, option_and_then};
ghost use Rattle.std.specs.List.{list_any};
ghost use Rattle.circuit.specs.declared.parts.Fault.{Fault};
ghost use Rattle.circuit.specs.declared.parts.NetId.{NetId as NetValue};
ghost use Rattle.circuit.specs.Circuit.{Circuit};
ghost use Rattle.workload.specs.declared.run.Run.{Run};
ghost use Rattle.alarm_points.specs.declared.Goal.{Goal as GoalValue};
ghost use Rattle.alarm_points.specs.Interval.{interval_of};
ghost use Rattle.first_cycles.specs.FirstCycles.{comes_late as late_by, earliest};
ghost use Rattle.first_cycles.specs.Shown.{longest, needed as needed_by, shown_in};
ghost use Rattle.readings.specs.Laws.{is_at};
ghost use Rattle.fault_runs.specs.First.{first_of};
ghost use Rattle.fault_runs.specs.Records.{AreRecordsFor, alarm_cycles, goal_cycles, record_of};
ghost use Rattle.fault_runs.specs.Whole.{HasShownRun};
ghost use Rattle.latency_table.specs.Latency.{IsShownBy};
ghost use Rattle.testbench.specs.Points.{alarm_at, goal_at};

use crate::latency::RunShows;
use alarm_points::{Goal, Points};
use circuit::parts::NetId;
use fault_runs::{AlarmCycles, FaultRecords, FirstCycles};
use first_cycles::late::{comes_late, earlier, longer, needed};
use workload::run::Kind;

// The earliest first difference of all goals of a fault.
fn earliest_difference(goals: &[FirstCycles], fault: u32) -> Option<u32>
    ensures { result ≡ earliest (map (λ goal. first_of goal fault) goals.now) }
{
    let mut first = None;
    for goal in goals {
        first = earlier(first, goal.first(fault));
    }
    first
}

// The earliest first alarm of all alarm points of a fault.
fn earliest_alarm(alarms: &[AlarmCycles], fault: u32) -> Option<u32>
    ensures { result ≡ earliest (map (λ alarm. first_of alarm.raised fault) alarms.now) }
{
    let mut first = None;
    for alarm in alarms {
        first = earlier(first, alarm.raised().first(fault));
    }
    first
}

// Whether an alarm point is first raised in this cycle.
fn is_first_at(alarm: &AlarmCycles, fault: u32, cycle: u32) -> bool
    ensures { result ≡ is_at (first_of alarm.now.raised fault) cycle }
{
    match alarm.raised().first(fault) {
        Some(first) => first == cycle,
        None => false,
    }
}

// The first of the alarm points that are first raised in this cycle.
fn first_point(nets: &[NetId], alarms: &[AlarmCycles], fault: u32, cycle: u32) -> Option<NetId>
    requires count { length alarms.now ≡ length nets.now }
    ensures { (first : NetValue → Option ℕ) → ((a : ℕ) → a < length nets.now → first_of (alarm_cycles alarms.now a).raised fault ≡ first (alarm_at nets.now a))
        → result ≡ find (λ net. is_at (first net) cycle) nets.now }
{
    for (a, net) in nets.iter().enumerate() {
        if is_first_at(&alarms[a], fault, cycle) {
            return Some(*net);
        }
    }
    None
}

// The same of the cycle of the first alarm, where there is one.
fn point_of(nets: &[NetId], alarms: &[AlarmCycles], fault: u32, alarm: Option<u32>) -> Option<NetId>
    requires count { length alarms.now ≡ length nets.now }
    ensures { (first : NetValue → Option ℕ) → ((a : ℕ) → a < length nets.now → first_of (alarm_cycles alarms.now a).raised fault ≡ first (alarm_at nets.now a))
        → result ≡ option_and_then (λ cycle. find (λ net. is_at (first net) cycle) nets.now) alarm }
{
    match alarm {
        Some(cycle) => first_point(nets, alarms, fault, cycle),
        None => None,
    }
}

// Whether some alarm point is silenced of a fault.
fn some_silenced(alarms: &[AlarmCycles], fault: u32) -> bool
    ensures { result ≡ list_any (λ alarm. is_some (first_of alarm.silenced fault)) alarms.now }
{
    let mut silenced = false;
    for alarm in alarms {
        silenced |= alarm.silenced().first(fault).is_some();
    }
    silenced
}

// The least interval that would do for all goals, where this is the first alarm.
fn longest_needed(goals: &[FirstCycles], fault: u32, alarm: Option<u32>) -> Option<u32>
    ensures { result ≡ longest (map (λ goal. needed_by (first_of goal fault) alarm) goals.now) }
{
    let mut interval = Some(0);
    for goal in goals {
        interval = longer(interval, needed(goal.first(fault), alarm));
    }
    interval
}

// Whether the first difference of some goal comes late, where this is the first alarm: each goal has the interval of its own, or else
// this one.
fn some_late(
    goals: &[Goal],
    ftti: u32,
    kept: &[FirstCycles],
    fault: u32,
    alarm: Option<u32>,
) -> bool
    requires count { length kept.now ≡ length goals.now }
    ensures { (difference : GoalValue → Option ℕ) → ((g : ℕ) → g < length goals.now → first_of (goal_cycles kept.now g) fault ≡ difference (goal_at goals.now g))
        → result ≡ list_any (λ goal. late_by (interval_of ftti goal) (difference goal) alarm) goals.now }
{
    let mut late = false;
    for (g, goal) in goals.iter().enumerate() {
        let interval = goal.ftti.unwrap_or(ftti);
        late |= comes_late(interval, kept[g].first(fault), alarm);
    }
    late
}

// What a run of the mission shows of a fault, where this is its first alarm.
fn mission_shows(
    points: &Points,
    ftti: u32,
    kept: &FaultRecords,
    fault: u32,
    alarm: Option<u32>,
    point: Option<NetId>,
) -> RunShows
    requires fit { AreRecordsFor points.now kept.now }
    ensures alarm { result.alarm ≡ alarm }
    ensures point { result.point ≡ point }
    ensures noticed { result.noticed ≡ is_some alarm }
    ensures reached { result.reached ≡ earliest (map (λ goal. first_of goal fault) kept.now.goals) }
    ensures interval { result.interval ≡ longest (map (λ goal. needed_by (first_of goal fault) alarm) kept.now.goals) }
    ensures late { (difference : GoalValue → Option ℕ) → ((g : ℕ) → g < length points.now.goals → first_of (goal_cycles kept.now.goals g) fault ≡ difference (goal_at points.now.goals g))
        → result.late ≡ list_any (λ goal. late_by (interval_of ftti goal) (difference goal) alarm) points.now.goals }
{
    let goals = points.goals.as_slice();
    RunShows {
        late: some_late(goals, ftti, kept.goals(), fault, alarm),
        noticed: alarm.is_some(),
        reached: earliest_difference(kept.goals(), fault),
        alarm,
        point,
        interval: longest_needed(kept.goals(), fault, alarm),
    }
}

// What a test shows of a fault, where this is its first alarm.
fn test_shows(kept: &FaultRecords, fault: u32, alarm: Option<u32>, point: Option<NetId>) -> RunShows
    ensures { result ≡ record { late = false; noticed = is_some alarm || list_any (λ a. is_some (first_of a.silenced fault)) kept.now.alarms; reached = None; alarm = alarm; point = point; interval = Some 0 } }
{
    RunShows {
        late: false,
        noticed: alarm.is_some() || some_silenced(kept.alarms(), fault),
        reached: None,
        alarm,
        point,
        interval: Some(0),
    }
}

/// What a run of this kind shows of a fault, by its record. `ftti` is the interval of the settings in cycles, for the goals without one
/// of their own.
pub(crate) fn fault_shows(
    kind: Kind,
    points: &Points,
    ftti: u32,
    kept: &FaultRecords,
    fault: u32,
) -> RunShows
    requires fit { AreRecordsFor points.now kept.now }
    ensures { (c : Circuit) (run : Run) (x : List Fault) → run.kind ≡ kind → HasShownRun points.now (shown_in c x run) (record_of kept.now fault)
        → IsShownBy points.now ftti (shown_in c x run) result }
{
    let alarm = earliest_alarm(kept.alarms(), fault);
    let nets = points.alarm.as_slice();
    let point = point_of(nets, kept.alarms(), fault, alarm);
    match kind {
        Kind::Mission => mission_shows(points, ftti, kept, fault, alarm, point),
        Kind::Test => test_shows(kept, fault, alarm, point),
    }
}
