// The values of all nets, and the tables that one of their inputs has changed.
ghost use Rattle.std.specs.Prelude.{◌≡◌, ◌<◌, ◌/◌, ◌==◌, ℕ, true, Contains, IfOk, length, if◌then◌else◌};
ghost use Rattle.circuit.specs.Order.{IsOrder};
ghost use Rattle.circuit.specs.Sound.{IsNet};
ghost use Rattle.place_set.specs.Places.{has, value_in};
ghost use Rattle.golden_run.specs.Events.{AreValuesOf, HasSizes, IsChanged, IsWiring, ordered_of};

use crate::wiring::Wiring;
use circuit::netlist::Netlist;
use circuit::parts::NetId;
use lane_words::Word;
use netlist_levels::Order;
use place_set::{PlaceSet, value_in_words};
use room::{NoRoom, filled};
use std::alloc::Global;

/// The values of all nets, and the places of the tables that are to be evaluated.
#[derive(Drop)]
pub(crate) struct Values {
    // A bit for each net, 64 to a word.
    pub row: Vec<u64>,
    pub marks: PlaceSet,
    // Whether all tables count as marked.
    pub all: bool,
}

impl Values {
    /// Values of which nothing is known: all tables count as marked.
    pub fn new(alloc: Global, netlist: &Netlist, order: &Order) -> Result<Self, NoRoom>
        requires { IsOrder netlist.now order.now }
        ensures { IfOk result (λ values. AreValuesOf (record { circuit = netlist.now; order = order.now }) values) }
    {
        let width = netlist.nets() / 64 + 1;
        Ok(Values {
            row: filled(alloc, 0, width)?,
            marks: PlaceSet::new(alloc, order.nets().len() as u32)?,
            all: true,
        })
    }
}

// Marks the places of tables among these, and leaves out those of latches, which are behind.
fn mark_all(places: &[u32], marks: &mut PlaceSet)
    ensures bound { marks.new.bound ≡ marks.old.bound }
    ensures kept { (p : ℕ) → has marks.old p ≡ true → has marks.new p ≡ true }
    ensures marked { (p : ℕ) → p < marks.old.bound → Contains places.now p → has marks.new p ≡ true }
{
    for place in places {
        if *place < marks.bound() {
            marks.put(*place as usize);
        }
    }
}

/// Sets the bit at a place.
pub(crate) fn put_bit(words: &mut [u64], place: usize, value: bool)
    requires { place / 64 < length words.old }
    ensures count { length words.new ≡ length words.old }
    ensures bits { (p : ℕ) → value_in words.new p ≡ (if p == place then value else value_in words.old p) }
{
    let at = place / 64;
    words[at] = words[at].put((place % 64) as u32, value);
}

/// Gives a net a value: where that is another one, the tables that read the net are marked, if not all count as marked.
pub(crate) fn change(wiring: &Wiring<'_>, net: NetId, value: bool, values: &mut Values)
    requires wiring { IsWiring wiring.now }
    requires net { IsNet wiring.now.netlist.now net }
    requires sizes { HasSizes (ordered_of wiring.now) values.old }
    ensures { IsChanged (ordered_of wiring.now) net.0 value values.old values.new }
{
    if value_in_words(&values.row, net.0 as usize) != value {
        put_bit(&mut values.row, net.0 as usize, value);
        if !values.all {
            mark_all(wiring.fanout.readers(net), &mut values.marks);
        }
    }
}
