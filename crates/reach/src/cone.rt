// The cone of influence of some nets.
ghost use Rattle.std.specs.Prelude.{◌≡◌, ◌↔◌, All, IfOk, IsTrue, List};
ghost use Rattle.circuit.specs.Circuit.{Circuit};
ghost use Rattle.circuit.specs.Sound.{IsNet};
ghost use Rattle.circuit.specs.Value.{bit_at};
ghost use Rattle.circuit.specs.declared.parts.NetId.{NetId as Net};
ghost use Rattle.reach.specs.Paths.{CanChangeSome, IsCone};

use crate::search::Search;
use circuit::netlist::Netlist;
use circuit::parts::{Fault, Latch, NetId};
use room::NoRoom;
use std::alloc::Global;

/// A mark for each net from which a path leads to one of these nets.
pub(crate) fn cone_of(
    alloc: Global,
    netlist: &Netlist,
    goals: &[NetId],
) -> Result<Vec<bool>, NoRoom>
    requires { All (IsNet netlist.now) goals.now }
    ensures { IfOk result (λ marks. IsCone netlist.now goals.now marks.items) }
{
    let mut search = Search::new(alloc, netlist.nets())?;
    search.find_all(goals)?;
    search.finish(netlist)?;
    Ok(search.marks)
}

// Whether a net is marked; one behind the last isn't.
fn is_marked(marks: &[bool], net: NetId) -> bool
    ensures { result ≡ bit_at marks.now net.0 }
{
    match marks.get(net.0 as usize) {
        Some(mark) => *mark,
        None => false,
    }
}

/// Whether a fault acts on a net of a cone, where these are the latches of the netlist.
pub(crate) fn is_in_cone(latches: &[Latch], cone: &[bool], fault: Fault) -> bool
    ensures { (c : Circuit) (goals : List Net) → latches.now ≡ c.latches → IsCone c goals cone.now → (IsTrue result ↔ CanChangeSome c fault goals) }
{
    match fault {
        Fault::Stuck(net, _) => is_marked(cone, net),
        Fault::Pulse(net, _) => is_marked(cone, net),
        Fault::Flip(latch, _) => match latches.get(latch as usize) {
            Some(latch) => is_marked(cone, latch.to),
            None => false,
        },
    }
}
