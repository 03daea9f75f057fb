// Who looks again where a set has lost a pair.
ghost use Rattle.std.specs.Prelude.{◌≡◌, ◌≢◌, ◌<◌, ◌≤◌, ◌+◌, ◌*◌, ◌^◌, ℕ, true, length, All, Contains, IfOk, IfSome, Some, slice_index};
ghost use Rattle.std.specs.List.{slice_get};
ghost use Rattle.circuit.specs.Order.{IsOrder, net_at};
ghost use Rattle.circuit.specs.Sound.{IsNet};
ghost use Rattle.circuit.specs.declared.parts.Latch.{Latch};
ghost use Rattle.place_set.specs.Places.{has};
ghost use Rattle.region_search.specs.Search.{Wakes, place_in, places_of};
ghost use Rattle.region_search.specs.Watch.{AreOwnOfLatches, AreOwnOfTables};

use circuit::netlist::Netlist;
use circuit::parts::{Latch, NetId};
use fanout::Fanout;
use netlist_levels::Order;
use place_set::PlaceSet;
use room::{NoRoom, filled};
use std::alloc::Global;
use std::marker::Model;

// The net of each table has its place in the order.
fn note_tables(order: &[NetId], own: &mut [u32])
    requires few { length order.now < 2 ^ 32 }
    requires nets { All (λ net. net.0 < length own.old) order.now }
    requires apart { (i j : ℕ) → i < length order.now → j < length order.now → i ≢ j → (net_at order.now i).0 ≢ (net_at order.now j).0 }
    ensures { AreOwnOfTables order.now own.new }
{
    for (place, net) in order.iter().enumerate() {
        own[net.0 as usize] = place as u32;
    }
}

// And that of each latch its number behind all tables.
fn note_latches(latches: &[Latch], first: u32, own: &mut [u32])
    requires few { first + length latches.now < 2 ^ 32 }
    requires nets { All (λ latch. latch.to.0 < length own.old) latches.now }
    requires apart { (i j : ℕ) (latch other : Latch) → slice_get latches.now i ≡ Some latch → slice_get latches.now j ≡ Some other → i ≢ j → latch.to.0 ≢ other.to.0 }
    ensures noted { AreOwnOfLatches first latches.now own.new }
    ensures others { (net : ℕ) → All (λ latch. latch.to.0 ≢ net) latches.now → slice_index own.new net ≡ slice_index own.old net }
{
    for (number, latch) in latches.iter().enumerate() {
        own[latch.to.0 as usize] = first + number as u32;
    }
}

// The net of each table and latch has its place in a frame.
fn note_own(netlist: &Netlist, order: &[NetId], own: &mut [u32])
    requires order { IsOrder netlist.now order.now }
    requires count { length own.old ≡ length netlist.now.drivers }
    ensures tables { AreOwnOfTables order.now own.new }
    ensures latches { AreOwnOfLatches (length order.now) netlist.now.latches own.new }
{
    let latches = netlist.latches();
    note_tables(order, own);
    note_latches(latches, order.len() as u32, own);
}

// The places in a frame of all nets' own tables and latches, of so many; that of an input is behind all.
fn own_places(
    alloc: Global,
    netlist: &Netlist,
    order: &[NetId],
    places: u32,
) -> Result<Vec<u32>, NoRoom>
    requires { IsOrder netlist.now order.now }
    ensures count { IfOk result (λ own. length own.items ≡ length netlist.now.drivers) }
    ensures tables { IfOk result (λ own. AreOwnOfTables order.now own.items) }
    ensures latches { IfOk result (λ own. AreOwnOfLatches (length order.now) netlist.now.latches own.items) }
{
    let mut own = filled(alloc, places, netlist.nets())?;
    note_own(netlist, order, &mut own);
    Ok(own)
}

// The readers of a net wait, in the frame whose places begin here.
fn wake_all(waiting: &mut PlaceSet, first: usize, readers: &[u32])
    requires few { first < 2 ^ 62 }
    requires inside { (place : ℕ) → Contains readers.now place → first + place < waiting.old.bound }
    ensures bound { waiting.new.bound ≡ waiting.old.bound }
    ensures stays { (place : ℕ) → has waiting.old place ≡ true → has waiting.new place ≡ true }
    ensures woken { (place : ℕ) → Contains readers.now place → has waiting.new (first + place) ≡ true }
{
    for reader in readers {
        waiting.put(first + *reader as usize);
    }
}

/// Who looks again where a net has lost a pair: its readers, and its own table or latch.
#[derive(Drop)]
pub struct Watchers {
    fanout: Fanout,
    // How many places a frame has for tables, and in all.
    tables: usize,
    places: usize,
    // The place of each net's own table or latch; that of an input is behind all.
    own: Vec<u32>,
}

impl Model for Watchers {
    ghost use Rattle.fanout.specs.Readers.{Ordered};
    ghost use Rattle.region_search.specs.Watch.{AreWatchers};

    ghost Value = { Ordered };

    ghost view = { λ w. w.fanout };

    ghost invariant = { λ w. AreWatchers w.fanout w.tables w.places w.own.items };
}

impl Watchers {
    /// Who looks again, in a netlist with an order of its tables. The time is linear in the number of nets and of those that tables and
    /// latches read.
    pub fn new(alloc: Global, netlist: &Netlist, order: &Order) -> Result<Watchers, NoRoom>
        requires { IsOrder netlist.now order.now }
        ensures { IfOk result (λ watchers. watchers ≡ record { circuit = netlist.now; order = order.now }) }
    {
        let nets = order.nets();
        let tables = nets.len();
        let places = tables + netlist.latches().len();
        let own = own_places(alloc, netlist, nets, places as u32)?;
        let fanout = Fanout::new(alloc, netlist, order)?;
        Ok(Watchers {
            fanout,
            tables,
            places,
            own,
        })
    }

    /// How many places a frame has, of which those of tables come first.
    pub fn places(&self) -> (usize, usize)
        ensures tables { result.0 ≡ length self.now.order }
        ensures all { result.1 ≡ places_of self.now }
        ensures few { result.1 ≤ 2 ^ 20 }
    {
        (self.tables, self.places)
    }

    /// The place in the order of the table that drives a net, if one does.
    pub fn table_of(&self, net: NetId) -> Option<usize>
        requires net { IsNet self.now.circuit net }
        ensures place { IfSome result (λ place. place < length self.now.order) }
        ensures own { (p : ℕ) → p < length self.now.order → (net_at self.now.order p).0 ≡ net.0 → result ≡ Some p }
    {
        let own = self.own[net.0 as usize] as usize;
        if own < self.tables { Some(own) } else { None }
    }

    /// Where the table of a place in the order waits, in a frame.
    pub fn table_place(&self, frame: u32, place: usize) -> usize
        requires { place < length self.now.order }
        ensures value { result ≡ place_in self.now frame place }
        ensures inside { place < places_of self.now }
    {
        frame as usize * self.places + place
    }

    /// Where a latch waits, in a frame.
    pub fn latch_place(&self, frame: u32, latch: usize) -> usize
        requires { latch < length self.now.circuit.latches }
        ensures value { result ≡ place_in self.now frame (length self.now.order + latch) }
        ensures inside { length self.now.order + latch < places_of self.now }
    {
        frame as usize * self.places + self.tables + latch
    }

    /// The places that look again where a net in a frame has lost a pair wait from now on.
    pub fn wake(&self, waiting: &mut PlaceSet, frame: u32, net: NetId)
        requires net { IsNet self.now.circuit net }
        requires frame { (frame + 1) * places_of self.now ≤ waiting.old.bound }
        ensures { Wakes self.now frame net.0 waiting.old waiting.new }
    {
        let first = frame as usize * self.places;
        wake_all(waiting, first, self.fanout.readers(net));
        let own = self.own[net.0 as usize] as usize;
        if own < self.tables {
            waiting.put(first + own);
            return;
        }
        if own >= self.places {
            return;
        }
        if frame == 0 {
            return;
        }
        waiting.put((frame as usize - 1) * self.places + own);
    }
}
