// The faults of a netlist, each with its representative.
ghost use Rattle.std.specs.Prelude.{◌≡◌, ◌<◌, ◌≤◌, IfOk, length, map};
ghost use Rattle.circuit.specs.Order.{IsOrder};
ghost use Rattle.circuit.specs.Sound.{IsNetlist};
ghost use Rattle.alarm_points.specs.PointsKept.{ArePointsFor};
ghost use Rattle.fault_list.specs.Faults.{fault_at};
ghost use Rattle.fault_list.specs.Kept.{most_faults};
ghost use Rattle.fm_base.specs.Lists.{below};
ghost use Rattle.collapse_map.specs.Collapsed.{AreFaultsOf, rep_count, rep_of, watched};
ghost use Rattle.collapse_map.specs.Next.{representative};
ghost use Rattle.collapse_map.specs.Same.{LookSame};
ghost use Rattle.collapse_map.specs.Settled.{collapsed};

use crate::links::link_all;
use crate::looks::looks_of;
use crate::numbers::{count_own, own_numbers};
use alarm_points::Points;
use circuit::netlist::Netlist;
use fault_list::FaultList;
use fm_base::Seq;
use netlist_levels::Order;
use room::NoRoom;
use std::alloc::Global;
use std::marker::Model;
use std::snapshot::Snapshot;

/// The faults of a netlist, each with the number of the fault that stands for it.
#[derive(Drop)]
pub struct Collapse {
    circuit: Snapshot<Netlist>,
    faults: Snapshot<FaultList>,
    points: Snapshot<Points>,
    reps: Seq<u32>,
    count: u32,
}

impl Model for Collapse {
    ghost use Rattle.collapse_map.specs.Collapsed.{Collapsed, HoldsRepresentatives, watched};

    ghost Value = { Collapsed };

    ghost view = { λ c. record { circuit = c.circuit.value; faults = c.faults.value; watched = watched c.points.value } };

    ghost invariant = { λ c. HoldsRepresentatives (record { circuit = c.circuit.value; faults = c.faults.value; watched = watched c.points.value }) c.reps c.count };
}

// The number of the representative of each fault.
fn representatives(
    alloc: Global,
    net: &Netlist,
    order: &Order,
    faults: &FaultList,
    points: &Points,
) -> Result<Vec<u32>, NoRoom>
    requires order { IsOrder net.now order.now }
    requires faults { AreFaultsOf net.now faults.now }
    requires points { ArePointsFor net.now points.now }
    ensures numbers { IfOk result (λ reps. reps.items ≡ map (rep_of (collapsed net.now faults.now (watched points.now))) (below (length faults.now))) }
    ensures few { IfOk result (λ reps. length faults.now ≤ most_faults) }
    ensures sound { IsNetlist net.now }
{
    let looks = looks_of(alloc, net, points)?;
    let mut reps = own_numbers(alloc, faults)?;
    link_all(alloc, net, order, &looks, &mut reps)?;
    Ok(reps)
}

impl Collapse {
    /// The representatives of the faults of a netlist, where these points are watched.
    pub fn new(
        alloc: Global,
        net: &Netlist,
        order: &Order,
        faults: &FaultList,
        points: &Points,
    ) -> Result<Collapse, NoRoom>
        requires order { IsOrder net.now order.now }
        requires faults { AreFaultsOf net.now faults.now }
        requires points { ArePointsFor net.now points.now }
        ensures { IfOk result (λ made. made ≡ record { circuit = net.now; faults = faults.now; watched = watched points.now }) }
    {
        let reps = representatives(alloc, net, order, faults, points)?;
        let count = count_own(&reps);
        Ok(Collapse {
            circuit: Snapshot::of(net),
            faults: Snapshot::of(faults),
            points: Snapshot::of(points),
            reps: Seq::from_vec(reps),
            count,
        })
    }

    /// The number of the representative of fault i: the last of the faults behind tables that it is equal to, or the fault itself.
    /// Each alone, the two give each watched net the same value in every cycle of every run.
    pub fn rep(&self, i: u32) -> u32
        requires { i < length self.now.faults }
        ensures number { result ≡ rep_of self.now i }
        ensures within { result < length self.now.faults }
        ensures fault { fault_at self.now.faults result ≡ representative self.now.circuit self.now.watched (fault_at self.now.faults i) }
        ensures same { LookSame self.now.circuit self.now.watched (fault_at self.now.faults i) (fault_at self.now.faults result) }
    {
        self.reps.as_slice()[i as usize]
    }

    /// The number of faults that are their own representatives.
    pub fn count(&self) -> u32
        ensures { result ≡ rep_count self.now }
    {
        self.count
    }
}
