// The readings of a plan.
ghost use Rattle.std.specs.Prelude.{◌≡◌, ◌≤◌, ◌++◌, IfOk, flat_map, length, map};
ghost use Rattle.fm_base.specs.Lists.{below};
ghost use Rattle.reading_planes.specs.Readings.{coverage_list as pairs_of, ftti_by, is_other as is_other_of, pair_of, reading_list as list_of};
ghost use Rattle.reading_planes.specs.declared.reading.Reading.TheVariants.{Goal, Interval, Only, Whole, Without};

use alarm_points::Points;
use circuit::parts::NetId;
use room::{NoRoom, push};
use std::alloc::Global;

/// A reading of a plan: which goals and which alarm points count, and in which interval. Goals and alarm points are told by their
/// numbers, in the order of the points.
#[derive(Clone, Copy, Debug, PartialEq, Eq)]
pub enum Reading {
    /// The plan itself.
    Whole,
    /// One safety goal alone.
    Goal(u32),
    /// All alarm points but this one.
    Without(u32),
    /// One alarm point alone.
    Only(u32),
    /// Another fault tolerant time interval in cycles, for the goals without one of their own.
    Interval(u32),
    /// The plan itself, without any alarm point.
    Bare,
    /// One safety goal alone, without any alarm point.
    BareGoal(u32),
}

// Each goal alone.
fn push_goals(list: &mut Vec<Reading>, count: u32) -> Result<(), NoRoom>
    ensures { IfOk result (λ _. list.new.items ≡ list.old.items ++ map (λ g. Goal g) (below count)) }
{
    for g in 0..count {
        push(list, Reading::Goal(g))?;
    }
    Ok(())
}

// Each goal alone, with the alarm points and without any.
fn push_pairs(list: &mut Vec<Reading>, count: u32) -> Result<(), NoRoom>
    ensures { IfOk result (λ _. list.new.items ≡ list.old.items ++ flat_map pair_of (below count)) }
{
    for g in 0..count {
        push(list, Reading::Goal(g))?;
        push(list, Reading::BareGoal(g))?;
    }
    Ok(())
}

// Each alarm point left out.
fn push_without(list: &mut Vec<Reading>, count: u32) -> Result<(), NoRoom>
    ensures { IfOk result (λ _. list.new.items ≡ list.old.items ++ map (λ a. Without a) (below count)) }
{
    for a in 0..count {
        push(list, Reading::Without(a))?;
    }
    Ok(())
}

// Each alarm point alone.
fn push_only(list: &mut Vec<Reading>, count: u32) -> Result<(), NoRoom>
    ensures { IfOk result (λ _. list.new.items ≡ list.old.items ++ map (λ a. Only a) (below count)) }
{
    for a in 0..count {
        push(list, Reading::Only(a))?;
    }
    Ok(())
}

// Each of these intervals.
fn push_intervals(list: &mut Vec<Reading>, intervals: &[u32]) -> Result<(), NoRoom>
    ensures { IfOk result (λ _. list.new.items ≡ list.old.items ++ map (λ cycles. Interval cycles) intervals.now) }
{
    for cycles in intervals {
        push(list, Reading::Interval(*cycles))?;
    }
    Ok(())
}

/// All readings with these points: the plan itself; each goal alone; each alarm point left out; each alone; each of these intervals,
/// in cycles.
pub fn reading_list(
    alloc: Global,
    points: &Points,
    intervals: &[u32],
) -> Result<Vec<Reading>, NoRoom>
    requires goals { length points.now.goals ≤ 4 }
    requires alarms { length points.now.alarm ≤ 1024 }
    ensures { IfOk result (λ list. list.items ≡ list_of points.now intervals.now) }
{
    let goals = points.goals.as_slice().len() as u32;
    let alarms = points.alarm.as_slice().len() as u32;
    let mut list = Vec::new(alloc);
    push(&mut list, Reading::Whole)?;
    push_goals(&mut list, goals)?;
    push_without(&mut list, alarms)?;
    push_only(&mut list, alarms)?;
    push_intervals(&mut list, intervals)?;
    Ok(list)
}

/// The readings of coverage with these points: the plan itself, and it without any alarm point; where there are several goals, the same
/// of each goal alone.
pub fn coverage_list(alloc: Global, points: &Points) -> Result<Vec<Reading>, NoRoom>
    requires goals { length points.now.goals ≤ 4 }
    ensures { IfOk result (λ list. list.items ≡ pairs_of points.now) }
{
    let goals = points.goals.as_slice().len() as u32;
    let several = if goals > 1 { goals } else { 0 };
    let mut list = Vec::new(alloc);
    push(&mut list, Reading::Whole)?;
    push(&mut list, Reading::Bare)?;
    push_pairs(&mut list, several)?;
    Ok(list)
}

/// The interval of a reading for goals without one of their own, where that of the settings is `ftti`, in cycles.
pub fn interval_of(reading: Reading, ftti: u32) -> u32
    ensures { result ≡ ftti_by ftti reading }
{
    match reading {
        Reading::Interval(cycles) => cycles,
        _ => ftti,
    }
}

/// Whether a net is another than this one, if there is one.
pub(crate) fn is_other(net: NetId, out: Option<NetId>) -> bool
    ensures { result ≡ is_other_of net out }
{
    match out {
        Some(out) => net.0 != out.0,
        None => true,
    }
}
