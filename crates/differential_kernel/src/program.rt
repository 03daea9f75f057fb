// The tables of a netlist, as a kernel evaluates them.
ghost use Rattle.std.specs.Prelude.{IfOk};
ghost use Rattle.circuit.specs.Order.{IsOrder};
ghost use Rattle.differential_kernel.specs.Parts.{IsProgramOf};

use circuit::netlist::Netlist;
use circuit::parts::NetId;
use lane_words::Word;
use lane_words::gate::{Gate, Masks};
use lane_words::program::{make_gates, make_ops};
use room::NoRoom;
use std::alloc::Global;

/// What is made once of a netlist and an order of its tables.
#[derive(Drop)]
pub struct Program<W> {
    /// The table of each place in the order.
    pub gates: Vec<Gate>,
    /// The masks of each operation.
    pub ops: Vec<Masks<W>>,
}

impl<W: Word> Program<W> {
    /// The program of a netlist and an order of its tables.
    pub fn new(alloc: Global, netlist: &Netlist, order: &[NetId]) -> Result<Self, NoRoom>
        requires { IsOrder netlist.now order.now }
        ensures { IfOk result (IsProgramOf W.lanes W.lane_bit netlist.now order.now) }
    {
        let gates = make_gates(alloc, netlist, order)?;
        let ops = make_ops(alloc)?;
        Ok(Program { gates, ops })
    }
}
