// What is asked about every workload.
use alarm_points::Points;
use circuit::netlist::Netlist;
use coverage_claim::Held;
use fault_list::FaultList;
use netlist_levels::Order;

/// What is asked of a netlist: for which runs and windows, of which faults, and which nets are a part.
#[derive(Clone, Copy)]
pub struct Inquiry<'a> {
    pub netlist: &'a Netlist,
    /// An order of evaluation of its tables.
    pub order: &'a Order,
    /// The nets that shall not differ without an alarm, and the alarm nets.
    pub points: &'a Points,
    /// The inputs that are held.
    pub held: &'a [Held],
    /// The first cycle that is spoken of: from then on no alarm net is 1 without faults.
    pub from: u32,
    /// The most cycles from a difference to its alarm: at most 8.
    pub window: u32,
    /// For how many cycles more the run without faults raises no alarm either: at most 8.
    pub ahead: u32,
    pub faults: &'a FaultList,
    /// The number of each net's part.
    pub parts: &'a [u32],
    /// How many parts there are.
    pub part_count: u32,
}
