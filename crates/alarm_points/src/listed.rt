// The rows of a points file, as they are read, and the points that they list.
ghost use Rattle.std.specs.Prelude.{◌≡◌, ◌≤◌, ◌^◌, ◌||◌, [], length, map, filter, find, position, option_map, bytes_eq, IfOk, OnOk};
ghost use Rattle.std.specs.List.{list_any};
ghost use Rattle.circuit.specs.Circuit.{Circuit};
ghost use Rattle.circuit.specs.Sound.{IsNetlist};
ghost use Rattle.fm_base.specs.Answers.{Gives};
ghost use Rattle.fm_base.specs.Lists.{firsts};
ghost use Rattle.alarm_points.specs.Listed.{begins_goal as begins_goal_of, fault_by, goals_with, IsAdded, Lists};
ghost use Rattle.alarm_points.specs.PointsSteps.{goal_from as goal_of, is_alarm, is_bad_goal as bad_goal, is_bad_interval as bad_interval, is_observe, keeps_interval as keeps_interval_of, observing_under, point_of, points_unless, points_listed, same_goal_under, same_point};

use crate::header::Header;
use crate::interval::{interval_of, is_dash};
use crate::nets::NetNames;
use crate::{Goal, GoalList, Points, PointsFault, PointsKind};
use circuit::netlist::Netlist;
use circuit::parts::{NetId, NetIds};
use csv_rows::Row;
use fm_base::field::is_label;
use fm_base::{NameIndex, Refusal, Seq};
use room::{NoRoom, from_slice};
use std::alloc::Global;

const MOST_POINTS: usize = 1024;

const MOST_GOALS: usize = 4;

// The names of the nets, in order of their numbers.
fn names_of(alloc: Global, net: &Netlist) -> Result<NetNames<'_>, NoRoom>
    ensures names { IfOk result (λ index. index ≡ net.now.names) }
    ensures few { IfOk result (λ index. length index ≤ 2 ^ 18) }
    ensures sound { IsNetlist net.now }
{
    let mut index = NetNames::new(alloc);
    let names = net.names();
    for name in names {
        index.insert(name.as_slice())?;
    }
    Ok(index)
}

fn find_net(nets: &NetNames<'_>, name: &[u8]) -> Option<NetId>
    requires { length nets.now ≤ 2 ^ 18 }
    ensures { option_map (λ net. net.0) result ≡ position (bytes_eq name.now) nets.now }
{
    match nets.number(name) {
        Some(number) => Some(NetId(number as u32)),
        None => None,
    }
}

fn has_point(header: Header, rows: &[Row], row: &Row) -> bool
    ensures { result ≡ list_any (same_point header row.now) rows.now }
{
    rows.iter().any(|other| header.same_point(row, other))
}

// The first row that observes for the goal of a row.
fn first_of_goal<'a>(header: Header, rows: &'a [Row], row: &Row) -> Option<&'a Row>
    ensures { option_map (λ first. first.now) result ≡ find (same_goal_under header row.now) (observing_under header rows.now) }
{
    rows.iter()
        .filter(|other| header.is_observe(other))
        .find(|other| header.same_goal(row, other))
}

fn keeps_interval(header: Header, rows: &[Row], row: &Row) -> bool
    ensures { result ≡ keeps_interval_of header rows.now row.now }
{
    match first_of_goal(header, rows, row) {
        Some(first) => header.interval(first) == header.interval(row),
        None => true,
    }
}

// Whether a row is the first that observes for its goal, whose name is then added to the others.
fn begins_goal(header: Header, goals: &mut NameIndex, row: &Row) -> Result<bool, NoRoom>
    ensures goals { OnOk result (goals.new ≡ goals_with header goals.old row.now) }
    ensures begins { IfOk result (λ begins. begins ≡ begins_goal_of header goals.old row.now) }
{
    if header.is_observe(row) {
        goals.insert(header.goal(row))
    } else {
        Ok(false)
    }
}

fn is_bad_goal(header: Header, goals: &NameIndex, row: &Row) -> bool
    ensures { result ≡ bad_goal header goals.now row.now }
{
    match header {
        Header::OneGoal => false,
        Header::NamedGoals => {
            let goal = header.goal(row);
            if header.is_observe(row) {
                !is_label(goal) || (goals.len() >= MOST_GOALS && !goals.contains(goal))
            } else {
                !is_dash(goal)
            }
        }
    }
}

fn is_bad_interval(header: Header, rows: &[Row], row: &Row) -> bool
    ensures { result ≡ bad_interval header rows.now row.now }
{
    match header {
        Header::OneGoal => false,
        Header::NamedGoals => {
            let interval = header.interval(row);
            if header.is_observe(row) {
                interval_of(interval).is_none() || !keeps_interval(header, rows, row)
            } else {
                !is_dash(interval)
            }
        }
    }
}

// Whether some row names an observation point.
fn observes(header: Header, rows: &[Row]) -> bool
    ensures { result ≡ list_any (is_observe header) rows.now }
{
    rows.iter().any(|row| header.is_observe(row))
}

// The net that a row names.
fn net_of(header: Header, nets: &NetNames<'_>, row: &Row) -> NetId
    requires { length nets.now ≤ 2 ^ 18 }
    ensures { (c : Circuit) → nets.now ≡ c.names → result ≡ point_of c header row.now }
{
    find_net(nets, header.net(row)).unwrap_or(NetId(0))
}

// The goal of a row that is the first of it.
fn goal_from(
    alloc: Global,
    header: Header,
    nets: &NetNames<'_>,
    rows: &[Row],
    first: &Row,
) -> Result<Goal, NoRoom>
    requires { length nets.now ≤ 2 ^ 18 }
    ensures { (c : Circuit) → nets.now ≡ c.names → IfOk result (λ goal. goal ≡ goal_of c header rows.now first.now) }
{
    let mut observe = Seq::new(alloc);
    for row in rows {
        if header.is_observe(row) && header.same_goal(first, row) {
            observe.push(net_of(header, nets, row))?;
        }
    }
    Ok(Goal {
        name: Seq::from_vec(from_slice(alloc, header.goal(first))?),
        ftti: interval_of(header.interval(first)).unwrap_or(None),
        observe,
    })
}

fn goals_of(
    alloc: Global,
    header: Header,
    nets: &NetNames<'_>,
    rows: &[Row],
) -> Result<GoalList, NoRoom>
    requires { length nets.now ≤ 2 ^ 18 }
    ensures { (c : Circuit) → nets.now ≡ c.names
        → IfOk result (λ goals. goals ≡ map (goal_of c header rows.now) (firsts (same_goal_under header) (observing_under header rows.now))) }
{
    let mut names = NameIndex::new(alloc);
    let mut goals = Seq::new(alloc);
    for row in rows {
        if begins_goal(header, &mut names, row)? {
            goals.push(goal_from(alloc, header, nets, rows, row)?)?;
        }
    }
    Ok(goals)
}

fn alarms_of(
    alloc: Global,
    header: Header,
    nets: &NetNames<'_>,
    rows: &[Row],
) -> Result<NetIds, NoRoom>
    requires { length nets.now ≤ 2 ^ 18 }
    ensures { (c : Circuit) → nets.now ≡ c.names → IfOk result (λ alarm. alarm ≡ map (point_of c header) (filter (is_alarm header) rows.now)) }
{
    let mut alarm = Seq::new(alloc);
    for row in rows {
        if header.is_alarm(row) {
            alarm.push(net_of(header, nets, row))?;
        }
    }
    Ok(alarm)
}

/// The rows under the header that were read, none of which has a fault.
#[derive(Drop)]
pub(crate) struct Listed<'n> {
    alloc: Global,
    header: Header,
    /// The names of all nets, in order of their numbers.
    nets: NetNames<'n>,
    /// The names of the goals, in order of first row.
    goals: NameIndex,
    rows: Seq<Row>,
}

impl<'n> Listed<'n> {
    /// No rows yet.
    pub(crate) fn new(alloc: Global, net: &'n Netlist, header: Header) -> Result<Self, NoRoom>
        ensures lists { IfOk result (Lists net.now header []) }
        ensures sound { IsNetlist net.now }
    {
        Ok(Listed {
            alloc,
            header,
            nets: names_of(alloc, net)?,
            goals: NameIndex::new(alloc),
            rows: Seq::new(alloc),
        })
    }

    /// The number of rows.
    pub(crate) fn len(&self) -> usize
        ensures { result ≡ length self.now.rows }
    {
        self.rows.len()
    }

    /// What is wrong with the next row: the least kind.
    pub(crate) fn fault(&self, row: &Row) -> Option<PointsKind>
        requires { length self.now.nets ≤ 2 ^ 18 }
        ensures { result ≡ fault_by self.now row.now }
    {
        let header = self.header;
        let rows = self.rows.as_slice();
        if row.len() != header.width() {
            Some(PointsKind::BadCsv)
        } else if !header.is_observe(row) && !header.is_alarm(row) {
            Some(PointsKind::BadKind)
        } else if find_net(&self.nets, header.net(row)).is_none() {
            Some(PointsKind::UnknownNet)
        } else if has_point(header, rows, row) {
            Some(PointsKind::Twice)
        } else if rows.len() >= MOST_POINTS {
            Some(PointsKind::TooLarge)
        } else if is_bad_goal(header, &self.goals, row) {
            Some(PointsKind::BadGoal)
        } else if is_bad_interval(header, rows, row) {
            Some(PointsKind::BadInterval)
        } else {
            None
        }
    }

    /// Takes in a row that has no fault.
    pub(crate) fn add(&mut self, row: Row) -> Result<(), NoRoom>
        ensures { OnOk result (IsAdded self.old self.new row) }
    {
        begins_goal(self.header, &mut self.goals, &row)?;
        self.rows.push(row)?;
        Ok(())
    }

    /// The points of all rows.
    pub(crate) fn finish(self) -> Result<Points, Refusal<PointsFault>>
        requires { length self.nets ≤ 2 ^ 18 }
        ensures { (c : Circuit) → self.entry.nets ≡ c.names
            → Gives (points_unless None (list_any (is_observe self.entry.header) self.entry.rows) (points_listed c self.entry.header self.entry.rows)) result }
    {
        let Listed {
            alloc,
            header,
            nets,
            rows,
            ..
        } = self;
        let rows = rows.as_slice();
        if !observes(header, rows) {
            return Err(refusal(1, PointsKind::NoObserve));
        }
        Ok(Points {
            goals: goals_of(alloc, header, &nets, rows)?,
            alarm: alarms_of(alloc, header, &nets, rows)?,
        })
    }
}

/// The refusal of a file at a row.
pub(crate) fn refusal(row: u32, kind: PointsKind) -> Refusal<PointsFault>
    ensures { result ≡ Refusal.Fault (record { row = row; kind = kind }) }
{
    Refusal::Fault(PointsFault { row, kind })
}
