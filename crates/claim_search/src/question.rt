// What is asked, and of what.
use circuit::netlist::Netlist;
use circuit::parts::NetId;
use coverage_claim::{Held, Site};
use region_search::{TablePlace, Watchers};

/// A netlist, and what a search needs to know of it.
#[derive(Clone, Copy)]
pub struct Searched<'a> {
    pub netlist: &'a Netlist,
    /// Who looks again where a net has lost a pair.
    pub watchers: &'a Watchers,
    /// Its tables by their places in the order.
    pub tables: &'a [TablePlace],
}

/// What is asked of a netlist, but for the region.
#[derive(Clone, Copy)]
pub struct Posed<'a> {
    /// The nets that shall not differ without an alarm.
    pub observed: &'a [NetId],
    pub alarms: &'a [NetId],
    /// The inputs that are held.
    pub held: &'a [Held],
    /// The first cycle that the claim is about.
    pub from: u32,
    /// The most cycles from a difference to its alarm.
    pub window: u32,
    /// For how many cycles more the run without faults raises no alarm either.
    pub ahead: u32,
}

/// What is asked of a netlist: whether an alarm comes in time, whatever happens in a region.
#[derive(Clone, Copy)]
pub struct Question<'a> {
    pub posed: Posed<'a>,
    /// What faults may do at each net.
    pub sites: &'a [Site],
}
