// From where paths lead to each alarm point.
ghost use Rattle.std.specs.Prelude.{◌≡◌, ◌<◌, ◌≤◌, ℕ, All, IfOk, false, true, length, slice_index_or};
ghost use Rattle.circuit.specs.declared.parts.NetId.{NetId as NetValue};
ghost use Rattle.circuit.specs.Sound.{IsNet};
ghost use Rattle.lane_words.specs.Loads.{somes};
ghost use Rattle.reach.specs.Paths.{CanChangeSome};
ghost use Rattle.reach.specs.Reached.{Reached, nets_of};
ghost use Rattle.fault_runs.specs.Whole.{ArePathsTo, alarm_alone as alone};
ghost use Rattle.testbench.specs.Points.{alarm_at};

use alarm_points::Points;
use circuit::netlist::Netlist;
use circuit::parts::{Fault, Latch, NetId};
use fm_base::Seq;
use reach::{Reach, Sort};
use room::{NoRoom, from_array, push};
use std::alloc::Global;
use std::marker::Model;
use testbench::Testbench;

// The most nets, counted once for each alarm point, of which paths are kept, in two bytes each.
const MOST_MARKS: usize = 1 << 22;

/// From where paths lead to each alarm point of a testbench.
#[derive(Drop)]
pub struct PointPaths {
    pub(crate) paths: Vec<Reach>,
}

impl Model for PointPaths {
    ghost use Rattle.std.specs.Prelude.{List};
    ghost use Rattle.reach.specs.Reached.{Reached};

    ghost Value = { List Reached };

    ghost view = { λ p. p.paths.items };
}

// An alarm point alone.
fn alarm_alone(alloc: Global, net: NetId) -> Result<Points, NoRoom>
    ensures { IfOk result (λ points. points ≡ alone net) }
{
    Ok(Points {
        goals: Seq::new(alloc),
        alarm: Seq::from_vec(from_array(alloc, [net])?),
    })
}

// From where paths lead to an alarm point.
fn paths_to(alloc: Global, netlist: &Netlist, net: NetId) -> Result<Reach, NoRoom>
    requires { IsNet netlist.now net }
    ensures { IfOk result (λ reach. reach ≡ record { circuit = netlist.now; points = alone net }) }
{
    let points = alarm_alone(alloc, net)?;
    Reach::new(alloc, netlist, &points)
}

// The same of each of these.
fn paths_to_each(alloc: Global, netlist: &Netlist, nets: &[NetId]) -> Result<Vec<Reach>, NoRoom>
    requires { All (IsNet netlist.now) nets.now }
    ensures count { IfOk result (λ paths. length paths.items ≡ length nets.now) }
    ensures each { IfOk result (λ paths. (a : ℕ) (d : Reached) → a < length paths.items
        → slice_index_or paths.items a d ≡ record { circuit = netlist.now; points = alone (alarm_at nets.now a) }) }
{
    let mut paths = Vec::new(alloc);
    for net in nets {
        push(&mut paths, paths_to(alloc, netlist, *net)?)?;
    }
    Ok(paths)
}

// The alarm points whose paths are looked for: all, or none where that would take too much memory.
fn followed<'a>(netlist: &Netlist, nets: &'a [NetId]) -> &'a [NetId]
    ensures count { length result.now ≤ length nets.now }
    ensures each { (a : ℕ) (d : NetValue) → a < length result.now → slice_index_or result.now a d ≡ slice_index_or nets.now a d }
{
    if nets.len() > MOST_MARKS / netlist.nets().max(1) {
        &[]
    } else {
        nets
    }
}

impl PointPaths {
    /// The paths to the alarm points of a testbench. A search backwards is made from each, in two bytes for each net; where that would take
    /// more than 8 MiB none is made, and then no fault is known to leave an alarm point alone.
    pub fn new(alloc: Global, bench: &Testbench<'_>) -> Result<Self, NoRoom>
        ensures { IfOk result (ArePathsTo bench.now.circuit bench.now.points) }
    {
        let nets = followed(bench.net(), bench.points().alarm.as_slice());
        let paths = paths_to_each(alloc, bench.net(), nets)?;
        Ok(PointPaths { paths })
    }
}

/// Whether none of these faults can change a point of a sort. `latches` are those of the netlist.
pub(crate) fn are_beyond(
    reach: &Reach,
    latches: &[Latch],
    faults: &[Option<Fault>],
    sort: Sort,
) -> bool
    requires { latches.now ≡ reach.now.circuit.latches }
    ensures { result ≡ true → All (λ fault. ¬ (CanChangeSome reach.now.circuit fault (nets_of reach.now.points sort))) (somes faults.now) }
{
    for fault in faults {
        match fault {
            Some(fault) => {
                if reach.can_change(latches, *fault, sort) {
                    return false;
                }
            }
            None => {}
        }
    }
    true
}
