// The cones of the points.
ghost use Rattle.std.specs.Prelude.{◌≡◌, ◌↔◌, All, IfOk, IsTrue};
ghost use Rattle.circuit.specs.Sound.{IsNet};
ghost use Rattle.alarm_points.specs.PointsFile.{observed};
ghost use Rattle.alarm_points.specs.PointsKept.{ArePointsFor};
ghost use Rattle.reach.specs.Paths.{CanChangeSome, IsCone};
ghost use Rattle.reach.specs.Reached.{nets_of};

use crate::cone::{cone_of, is_in_cone};
use alarm_points::Points;
use circuit::netlist::Netlist;
use circuit::parts::{Fault, Latch, NetId};
use room::{NoRoom, extend};
use std::alloc::Global;
use std::marker::Model;
use std::snapshot::Snapshot;

/// The two sorts of points.
#[derive(Clone, Copy, Debug, PartialEq, Eq)]
pub enum Sort {
    Alarm,
    /// The observation points of all goals.
    Observation,
}

/// From which nets of a netlist a path through tables and latches leads to an alarm point, and from which one leads to an observation
/// point of some goal. It takes a byte for each net and each of both.
#[derive(Drop)]
pub struct Reach {
    circuit: Snapshot<Netlist>,
    points: Snapshot<Points>,
    alarm: Vec<bool>,
    observation: Vec<bool>,
}

impl Model for Reach {
    ghost use Rattle.alarm_points.specs.PointsFile.{observed};
    ghost use Rattle.reach.specs.Paths.{IsCone};
    ghost use Rattle.reach.specs.Reached.{Reached};

    ghost Value = { Reached };

    ghost view = { λ r. record { circuit = r.circuit.value; points = r.points.value } };

    ghost invariant = { λ r. IsCone r.circuit.value r.points.value.alarm r.alarm.items × IsCone r.circuit.value (observed r.points.value) r.observation.items };
}

// The observation points of all goals.
fn observed_nets(alloc: Global, points: &Points) -> Result<Vec<NetId>, NoRoom>
    ensures { IfOk result (λ nets. nets.items ≡ observed points.now) }
{
    let mut nets = Vec::new(alloc);
    for goal in points.goals.as_slice() {
        extend(&mut nets, goal.observe.as_slice())?;
    }
    Ok(nets)
}

impl Reach {
    /// What leads to these points. The time is linear in the nets and in what tables and latches read.
    pub fn new(alloc: Global, netlist: &Netlist, points: &Points) -> Result<Self, NoRoom>
        requires { ArePointsFor netlist.now points.now }
        ensures { IfOk result (λ made. made ≡ record { circuit = netlist.now; points = points.now }) }
    {
        let nets = observed_nets(alloc, points)?;
        let alarm = cone_of(alloc, netlist, points.alarm.as_slice())?;
        let observation = cone_of(alloc, netlist, &nets)?;
        Ok(Reach {
            circuit: Snapshot::of(netlist),
            points: Snapshot::of(points),
            alarm,
            observation,
        })
    }

    // The marks of a sort of points.
    fn cone(&self, sort: Sort) -> &[bool]
        ensures { IsCone self.now.circuit (nets_of self.now.points sort) result.now }
    {
        match sort {
            Sort::Alarm => &self.alarm,
            Sort::Observation => &self.observation,
        }
    }

    /// Whether a fault can change a point of this sort. `latches` are those of the netlist.
    pub fn can_change(&self, latches: &[Latch], fault: Fault, sort: Sort) -> bool
        requires { latches.now ≡ self.now.circuit.latches }
        ensures { IsTrue result ↔ CanChangeSome self.now.circuit fault (nets_of self.now.points sort) }
    {
        is_in_cone(latches, self.cone(sort), fault)
    }
}
