// What a netlist is simulated with.
use circuit::netlist::Netlist;
use circuit::parts::NetId;
use fanout::Fanout;
use lane_words::gate::Gate;

/// A netlist, an order of its tables, a gate for each of these, and the readers of its nets.
#[derive(Drop)]
pub(crate) struct Wiring<'a> {
    pub netlist: &'a Netlist,
    pub order: &'a [NetId],
    pub gates: &'a [Gate],
    pub fanout: &'a Fanout,
}
