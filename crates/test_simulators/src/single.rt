// The values of all nets by a simulation of one faulty circuit.
ghost use Rattle.circuit.specs.Order.{IsOrder};

use crate::hand::INPUTS;
use circuit::netlist::Netlist;
use circuit::parts::{Fault, NetId};
use cycle_sim::sim::Sim;
use netlist_levels::Order;
use room::NoRoom;
use std::alloc::Global;

// The bits of the nets in this cycle, behind those of a number.
fn with_nets(number: u32, net: &Netlist, sim: &Sim) -> u32 {
    let mut longer = number;
    for n in 0..net.nets() as u32 {
        longer = longer << 1 | sim.net(NetId(n)) as u32;
    }
    longer
}

/// The bits of the nets in all cycles.
pub fn single_bits(
    alloc: Global,
    net: &Netlist,
    order: &Order,
    faults: &[Fault],
) -> Result<u32, NoRoom>
    requires { IsOrder net.now order.now }
{
    let mut bits = 0;
    let mut sim = Sim::new(alloc, net, order)?;
    sim.start();
    for t in 0..4 {
        sim.cycle(net, order, &[INPUTS[t]], faults);
        bits = with_nets(bits, net, &sim);
    }
    Ok(bits)
}
