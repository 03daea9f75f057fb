// Safety goals with their observation points, and alarm points.
#![tactic(auto)]

pub mod file;
mod header;
mod interval;
mod listed;
mod nets;
pub mod outputs;
pub mod window;
pub mod windows;
pub mod windows4;

use circuit::parts::NetIds;
use csv_rows::FaultyRow;
use fm_base::{Name, Seq};

/// A safety goal: its observation points, and its own fault tolerant time interval, if it has one.
#[derive(Drop)]
pub struct Goal {
    pub name: Name,
    pub ftti: Option<u32>,
    pub observe: NetIds,
}

pub type GoalList = Seq<Goal>;

/// The safety goals, and the alarm points, which serve all of them.
#[derive(Drop)]
pub struct Points {
    pub goals: GoalList,
    pub alarm: NetIds,
}

/// The kinds of refusal of a points file. On one row the first of these decides.
#[derive(Clone, Copy, Debug, PartialEq, Eq)]
pub enum PointsKind {
    /// There is no header, or a row has another number of fields than the header.
    BadCsv,
    /// Neither `observe` nor `alarm`.
    BadKind,
    /// No net has the name.
    UnknownNet,
    /// The same goal, kind and net stood in an earlier row.
    Twice,
    /// More than 1,024 points.
    TooLarge,
    /// There is no observation point. This is looked at after all rows, and shown at row 1.
    NoObserve,
    /// The goal of an observation point is malformed or would be the fifth, or that of an alarm point isn't `-`.
    BadGoal,
    /// The interval of an observation point is malformed or another than that of the goal's first row, or that of an alarm
    /// point isn't `-`.
    BadInterval,
}

/// The first faulty row, and the kind of its fault.
pub type PointsFault = FaultyRow<PointsKind>;
