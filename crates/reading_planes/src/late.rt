// Whether a fault is late by a reading.
ghost use Rattle.std.specs.Prelude.{◌≡◌, ◌<◌, ℕ, None, Option, length, map, Some, if◌then◌else◌, slice_index_or};
ghost use Rattle.circuit.specs.declared.parts.NetId.{NetId as NetValue};
ghost use Rattle.first_cycles.specs.FirstCycles.{earlier as earlier_of, earliest};
ghost use Rattle.first_cycles.specs.Shown.{Shown};
ghost use Rattle.reading_planes.specs.Folded.{AreCyclesFor, AreCyclesOf, late_by};
ghost use Rattle.reading_planes.specs.Readings.{IsReadingOf, others, points_by};
ghost use Rattle.reading_planes.specs.Folded.{differences_by};
ghost use Rattle.testbench.specs.Points.{alarm_at};

use crate::cycles::FaultCycles;
use crate::reading::{Reading, interval_of, is_other};
use alarm_points::{Goal, Points};
use circuit::parts::NetId;
use first_cycles::late::{earlier, some_goal_comes_late};

// The earlier of two cycles, where the second counts.
fn earlier_if(counts: bool, first: Option<u32>, second: Option<u32>) -> Option<u32>
    ensures { result ≡ (if counts then earlier_of first second else first) }
{
    if counts {
        earlier(first, second)
    } else {
        first
    }
}

/// The earliest alarm of all alarm points but one. `alarms` has the first alarm of each, in order.
pub(crate) fn first_of_others(
    nets: &[NetId],
    alarms: &[Option<u32>],
    out: Option<NetId>,
) -> Option<u32>
    requires { length alarms.now ≡ length nets.now }
    ensures { (alarm : NetValue → Option ℕ) → ((a : ℕ) → a < length nets.now → slice_index_or alarms.now a None ≡ alarm (alarm_at nets.now a))
        → result ≡ earliest (map alarm (others out nets.now)) }
{
    let mut first = None;
    for (a, net) in nets.iter().enumerate() {
        first = earlier_if(is_other(*net, out), first, alarms[a]);
    }
    first
}

// The earliest alarm without this point: that of the others counts only where the point has the earliest itself.
fn first_without(nets: &[NetId], cycles: &FaultCycles, a: u32) -> Option<u32>
    requires alarm { a < length nets.now }
    requires count { length cycles.now.alarms ≡ length nets.now }
    ensures { (alarm : NetValue → Option ℕ) → ((b : ℕ) → b < length nets.now → slice_index_or cycles.now.alarms b None ≡ alarm (alarm_at nets.now b))
        → cycles.now.first ≡ earliest (map alarm nets.now) → result ≡ earliest (map alarm (others (Some (alarm_at nets.now a)) nets.now)) }
{
    let alarms = cycles.alarms.as_slice();
    if alarms[a as usize] == cycles.first {
        first_of_others(nets, alarms, Some(nets[a as usize]))
    } else {
        cycles.first
    }
}

// The earliest alarm of a reading.
fn first_alarm(points: &Points, reading: Reading, cycles: &FaultCycles) -> Option<u32>
    requires reading { IsReadingOf points.now reading }
    requires made { AreCyclesFor points.now cycles.now }
    ensures { (s : Shown) → AreCyclesOf points.now s cycles.now → result ≡ earliest (map s.alarm (points_by points.now reading).alarm) }
{
    match reading {
        Reading::Only(a) => cycles.alarms.as_slice()[a as usize],
        Reading::Bare | Reading::BareGoal(_) => None,
        Reading::Without(a) => first_without(points.alarm.as_slice(), cycles, a),
        _ => cycles.first,
    }
}

// The goals of a reading.
fn goals_of(points: &Points, reading: Reading) -> &[Goal]
    requires { IsReadingOf points.now reading }
    ensures { result.now ≡ (points_by points.now reading).goals }
{
    let goals = points.goals.as_slice();
    match reading {
        Reading::Goal(g) | Reading::BareGoal(g) => &goals[g as usize..g as usize + 1],
        _ => goals,
    }
}

// Their first differences.
fn differences_of<'a>(
    points: &Points,
    reading: Reading,
    cycles: &'a FaultCycles,
) -> &'a [Option<u32>]
    requires reading { IsReadingOf points.now reading }
    requires made { AreCyclesFor points.now cycles.now }
    ensures { result.now ≡ differences_by cycles.now.differences reading }
{
    let differences = cycles.differences.as_slice();
    match reading {
        Reading::Goal(g) | Reading::BareGoal(g) => &differences[g as usize..g as usize + 1],
        _ => differences,
    }
}

/// Whether the first difference of some goal of a reading comes late. `ftti` is the interval of the settings, in cycles.
pub(crate) fn is_late(points: &Points, ftti: u32, reading: Reading, cycles: &FaultCycles) -> bool
    requires reading { IsReadingOf points.now reading }
    requires made { AreCyclesFor points.now cycles.now }
    ensures { (s : Shown) → AreCyclesOf points.now s cycles.now → result ≡ late_by points.now ftti reading s }
{
    let alarm = first_alarm(points, reading, cycles);
    let goals = goals_of(points, reading);
    let differences = differences_of(points, reading, cycles);
    some_goal_comes_late(goals, interval_of(reading, ftti), differences, alarm)
}
