// The numbers of representatives, from behind a table to in front of it.
ghost use Rattle.std.specs.Prelude.{◌≡◌, ◌+◌, ◌*◌, ◌<◌, ◌≤◌, ◌^◌, List, length, map, OnOk, ℕ};
ghost use Rattle.circuit.specs.declared.parts.Fault.{Fault as FaultValue};
ghost use Rattle.circuit.specs.declared.parts.NetId.{NetId as Net};
ghost use Rattle.circuit.specs.Order.{IsOrder, net_at};
ghost use Rattle.circuit.specs.Sound.{IsNet};
ghost use Rattle.collapse_map.specs.Settled.{AreGiven, AreAllReached, collapsed, linked, stuck_number};
ghost use Rattle.collapse_map.specs.Wants.{wants};

use crate::fixed::{fixed_value, wants_of};
use crate::looks::{Looks, is_one};
use circuit::netlist::Netlist;
use circuit::parts::{Driver, NetId, Table};
use netlist_levels::Order;
use room::NoRoom;
use std::alloc::Global;

// The number of a stuck-at fault.
fn stuck_number(net: NetId, v: bool) -> usize
    ensures { result ≡ stuck_number net.0 v }
{
    let first = 2 * net.0 as usize;
    if v { first + 1 } else { first }
}

// Where the value at a place of a table fixes it, the fault there takes the number of the fault behind the table.
fn link(table: &Table, counts: &[usize], place: usize, to: NetId, v: bool, reps: &mut [u32])
    requires counts { counts.now ≡ map wants table.now.rows }
    requires place { place < length table.now.ins }
    requires front { 2 * (net_at table.now.ins place).0 + 1 < length reps.old }
    requires back { 2 * to.0 + 1 < length reps.old }
    ensures { reps.new ≡ linked table.now place to v reps.old }
{
    let read = table.ins.as_slice()[place];
    if let Some(u) = fixed_value(table, counts, place, v) {
        reps[stuck_number(read, v)] = reps[stuck_number(to, u)];
    }
}

// The numbers of the faults in front of the table of a net, where those of the faults on the net are known.
fn link_table(
    alloc: Global,
    net: &Netlist,
    to: NetId,
    looks: &[Looks],
    reps: &mut [u32],
) -> Result<(), NoRoom>
    requires to { IsNet net.now to }
    requires looks { length looks.now ≡ length net.now.drivers }
    requires reps { 2 * length net.now.drivers ≤ length reps.old }
    ensures { OnOk result ((faults : List FaultValue) (watched order : List Net) (at : ℕ) → AreGiven (collapsed net.now faults watched) looks.now order
        → at < length order → net_at order at ≡ to → AreAllReached (collapsed net.now faults watched) order (at + 1) reps.old
        → AreAllReached (collapsed net.now faults watched) order at reps.new) }
{
    let Driver::Table(k) = net.driver(to) else {
        return Ok(());
    };
    let table = net.table(k);
    let counts = wants_of(alloc, table)?;
    for (place, read) in table.ins.as_slice().iter().enumerate() {
        if is_one(looks[read.0 as usize]) {
            link(table, &counts, place, to, false, reps);
            link(table, &counts, place, to, true, reps);
        }
    }
    Ok(())
}

/// From the numbers of the faults themselves to those of their representatives, in one pass over the order from its end. It takes
/// time linear in the netlist.
pub(crate) fn link_all(
    alloc: Global,
    net: &Netlist,
    order: &Order,
    looks: &[Looks],
    reps: &mut [u32],
) -> Result<(), NoRoom>
    requires order { IsOrder net.now order.now }
    requires looks { length looks.now ≡ length net.now.drivers }
    requires reps { 2 * length net.now.drivers ≤ length reps.old }
    ensures { OnOk result ((faults : List FaultValue) (watched : List Net) → AreGiven (collapsed net.now faults watched) looks.now order.now
        → AreAllReached (collapsed net.now faults watched) order.now (length order.now) reps.old
        → AreAllReached (collapsed net.now faults watched) order.now 0 reps.new) }
{
    let nets = order.nets();
    for at in (0..nets.len()).rev() {
        link_table(alloc, net, nets[at], looks, reps)?;
    }
    Ok(())
}
