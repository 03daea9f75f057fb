// What is read, and where.
ghost use Rattle.std.specs.Prelude.{◌≡◌, ◌≤◌, ◌<◌, ◌+◌, ◌^◌, ◌++◌, ◌∷◌, [], All, IfOk, OnOk, length, map};
ghost use Rattle.circuit.specs.Order.{IsOrder};
ghost use Rattle.circuit.specs.Sound.{IsNet, IsNetlist};
ghost use Rattle.circuit.specs.Value.{driver_at};
ghost use Rattle.fanout.specs.Edges.{edges_at, edges_from};
ghost use Rattle.fanout.specs.Readers.{all_reads, driver_reads};

use circuit::netlist::Netlist;
use circuit::parts::{Driver, Latch, NetId};
use room::{NoRoom, push};
use std::alloc::Global;

/// A net that is read at a place.
#[derive(Clone, Copy)]
pub(crate) struct Edge {
    pub net: u32,
    pub place: u32,
}

// The nets that the table of a net reads; none where no table drives it.
fn reads_of(netlist: &Netlist, net: NetId) -> &[NetId]
    requires { IsNet netlist.now net }
    ensures { result.now ≡ driver_reads netlist.now (driver_at netlist.now net.0) }
{
    match netlist.driver(net) {
        Driver::Table(k) => netlist.table(k).ins.as_slice(),
        _ => &[],
    }
}

fn push_edges(edges: &mut Vec<Edge>, nets: &[NetId], place: u32) -> Result<(), NoRoom>
    ensures { OnOk result (edges.new.items ≡ edges.old.items ++ edges_at place nets.now) }
{
    for net in nets {
        push(edges, Edge { net: net.0, place })?;
    }
    Ok(())
}

fn push_tables(edges: &mut Vec<Edge>, netlist: &Netlist, order: &[NetId]) -> Result<(), NoRoom>
    requires nets { All (IsNet netlist.now) order.now }
    requires few { length order.now < 2 ^ 32 }
    requires empty { edges.old.items ≡ [] }
    ensures { OnOk result (edges.new.items ≡ edges_from 0 (map (λ net. driver_reads netlist.now (driver_at netlist.now net.0)) order.now)) }
{
    for (place, net) in order.iter().enumerate() {
        push_edges(edges, reads_of(netlist, *net), place as u32)?;
    }
    Ok(())
}

fn push_latches(edges: &mut Vec<Edge>, latches: &[Latch], first: u32) -> Result<(), NoRoom>
    requires { first + length latches.now < 2 ^ 32 }
    ensures { OnOk result (edges.new.items ≡ edges.old.items ++ edges_from first (map (λ latch. latch.from ∷ []) latches.now)) }
{
    for (number, latch) in latches.iter().enumerate() {
        push_edges(edges, &[latch.from], first + number as u32)?;
    }
    Ok(())
}

/// All nets that are read, place by place.
pub(crate) fn edges_of(
    alloc: Global,
    netlist: &Netlist,
    order: &[NetId],
) -> Result<Vec<Edge>, NoRoom>
    requires { IsOrder netlist.now order.now }
    ensures edges { IfOk result (λ edges. edges.items ≡ edges_from 0 (all_reads (record { circuit = netlist.now; order = order.now }))) }
    ensures sound { IsNetlist netlist.now }
{
    let mut edges = Vec::new(alloc);
    let latches = netlist.latches();
    push_tables(&mut edges, netlist, order)?;
    push_latches(&mut edges, latches, order.len() as u32)?;
    Ok(edges)
}
