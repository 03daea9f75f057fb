// What a cycle is given.
use circuit::netlist::Netlist;
use circuit::parts::NetId;
use fanout::Fanout;

/// A netlist, an order of its tables, the readers of its nets, and the golden value of each net in one cycle.
#[derive(Drop)]
pub struct GoldenCycle<'a> {
    pub netlist: &'a Netlist,
    pub order: &'a [NetId],
    pub fanout: &'a Fanout,
    pub row: &'a [u64],
}
