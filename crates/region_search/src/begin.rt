// The sets at the beginning of a search.
ghost use Rattle.std.specs.Prelude.{◌≡◌, ◌<◌, ◌≤◌, ◌+◌, ◌*◌, ◌^◌, ℕ, Bool, true, false, length, All, IfOk};
ghost use Rattle.circuit.specs.Order.{net_at};
ghost use Rattle.circuit.specs.Sound.{IsNetlist};
ghost use Rattle.coverage_claim.specs.Region.{may_show};
ghost use Rattle.coverage_claim.specs.Rules.{MayGo, everything};
ghost use Rattle.coverage_claim.specs.Stretch.{Stretch, held_at as value_at};
ghost use Rattle.fanout.specs.Readers.{Ordered};
ghost use Rattle.pair_sets.specs.Pairs.{has};
ghost use Rattle.region_search.specs.Begin.{BeginsSo, IsSaidOf};
ghost use Rattle.region_search.specs.Search.{places_of};
ghost use Rattle.region_search.specs.BeginSteps.{AreFewer, AreStartsDone, IsAsLong, IsBegun, IsDone, IsFrameDone, allows, held_of, held_passes, input_passes, is_quiet};

use crate::frames::FrameSets;
use crate::search::Search;
use crate::watch::Watchers;
use circuit::netlist::Netlist;
use circuit::parts::NetId;
use coverage_claim::{Held, Site};
use pair_sets::PairSet;
use place_set::PlaceSet;
use room::NoRoom;
use std::alloc::Global;

/// What a search begins with: what is known at single nets.
#[derive(Clone, Copy)]
pub struct Beginning<'a> {
    /// What faults may do at each net.
    pub sites: &'a [Site],
    /// The inputs that are held.
    pub held: &'a [Held],
    /// The cycle of frame 0.
    pub first: u32,
    /// The nets that are 0 in all frames without faults.
    pub silent: &'a [NetId],
    /// The last frame in which they are with faults too.
    pub until: u32,
    /// The pairs that each latch may show in frame 0.
    pub starts: &'a [PairSet],
}

// The pairs that an input of this site may show: both runs have the same inputs.
fn input_pairs(site: Site) -> PairSet
    ensures { (g f : Bool) → has result g f ≡ may_show site g f }
{
    PairSet::EQUAL.shown(site)
}

// The value that an input is held at in a cycle, if one is given.
fn held_at(held: Held, cycle: u64) -> Option<bool>
    ensures { result ≡ value_at held cycle }
{
    if cycle < u64::from(held.from) {
        held.before
    } else {
        Some(held.value)
    }
}

// The pairs with this golden value.
pub(crate) fn golden_pairs(golden: Option<bool>) -> PairSet
    ensures { (g f : Bool) → has result g f ≡ allows golden g f }
{
    match golden {
        Some(value) => PairSet::of(!value, value, !value, value),
        None => PairSet::ALL,
    }
}

// The pairs of a silent net in a frame.
fn quiet_pairs(frame: u32, until: u32) -> PairSet
    ensures { (g f : Bool) → has result g f ≡ is_quiet frame until g f }
{
    PairSet::of(true, false, until < frame, false)
}

impl Search {
    ghost use Rattle.region_search.specs.Going.{GoesOn, IsFor, sets_of};

    /// A search in so many frames of a netlist, with these who look again. It takes the memory of all that `begin` and `settle` do: a byte
    /// for each net and frame, and a bit for each table, latch and frame.
    pub fn new(
        alloc: Global,
        netlist: &Netlist,
        watchers: &Watchers,
        frames: usize,
    ) -> Result<Search, NoRoom>
        requires netlist { watchers.now.circuit ≡ netlist.now }
        requires frames { frames ≤ 2 ^ 16 }
        requires few { frames * places_of watchers.now < 2 ^ 32 }
        ensures fits { IfOk result (IsFor watchers.now) }
        ensures frames { IfOk result (λ search. search.sets.frames ≡ frames) }
    {
        let (_, places) = watchers.places();
        let sets = FrameSets::new(alloc, netlist.nets(), frames)?;
        let waiting = PlaceSet::new(alloc, (frames * places) as u32)?;
        Ok(Search {
            sets,
            waiting,
            empty: false,
        })
    }

    // Leaves a net in a frame these pairs alone, and notes where none is left.
    fn limit(&mut self, frame: u32, net: NetId, to: PairSet)
        requires frame { frame < self.old.sets.frames }
        requires net { net.0 < self.old.sets.nets }
        ensures size { IsAsLong self.old self.new }
        ensures fewer { AreFewer (sets_of self.old.sets) (sets_of self.new.sets) }
        ensures there { (a b : Bool) → sets_of self.new.sets frame net.0 a b ≡ true → has to a b ≡ true }
        ensures begun { (s : Stretch) → frame ≤ s.last → ((a b : Bool) → has to a b ≡ false → MayGo s everything frame net.0 a b)
            → IsBegun s self.old → IsBegun s self.new }
    {
        self.sets.cut(frame as usize, net, to);
        if !self.sets.get(frame as usize, net).is_empty() {
            return;
        }
        self.empty = true;
    }

    // The inputs of a frame have equal values, but for the region.
    fn limit_inputs(&mut self, netlist: &Netlist, beginning: &Beginning<'_>, frame: u32)
        requires frame { frame < self.old.sets.frames }
        requires nets { self.old.sets.nets ≡ length netlist.now.drivers }
        requires said { IsSaidOf netlist.now beginning.now }
        ensures size { IsAsLong self.old self.new }
        ensures fewer { AreFewer (sets_of self.old.sets) (sets_of self.new.sets) }
        ensures done { IsDone frame (λ k. (net_at netlist.now.inputs k).0) (input_passes netlist.now beginning.now) (length netlist.now.inputs) (sets_of self.new.sets) }
        ensures begun { (s : Stretch) → BeginsSo netlist.now s self.old.sets.frames beginning.now → IsBegun s self.old → IsBegun s self.new }
    {
        for net in netlist.inputs() {
            self.limit(frame, *net, input_pairs(beginning.sites[net.0 as usize]));
        }
    }

    // What is held in a frame has its value there.
    fn limit_held(&mut self, netlist: &Netlist, beginning: &Beginning<'_>, frame: u32)
        requires frame { frame < self.old.sets.frames }
        requires nets { self.old.sets.nets ≡ length netlist.now.drivers }
        requires said { IsSaidOf netlist.now beginning.now }
        ensures size { IsAsLong self.old self.new }
        ensures fewer { AreFewer (sets_of self.old.sets) (sets_of self.new.sets) }
        ensures done { IsDone frame (λ j. (held_of beginning.now.held.now j).net.0) (held_passes beginning.now frame) (length beginning.now.held.now) (sets_of self.new.sets) }
        ensures begun { (s : Stretch) → BeginsSo netlist.now s self.old.sets.frames beginning.now → IsBegun s self.old → IsBegun s self.new }
    {
        let cycle = u64::from(beginning.first) + u64::from(frame);
        for held in beginning.held {
            self.limit(frame, held.net, golden_pairs(held_at(*held, cycle)));
        }
    }

    // Silent nets are 0.
    fn limit_silent(&mut self, netlist: &Netlist, beginning: &Beginning<'_>, frame: u32)
        requires frame { frame < self.old.sets.frames }
        requires nets { self.old.sets.nets ≡ length netlist.now.drivers }
        requires said { IsSaidOf netlist.now beginning.now }
        ensures size { IsAsLong self.old self.new }
        ensures fewer { AreFewer (sets_of self.old.sets) (sets_of self.new.sets) }
        ensures done { IsDone frame (λ j. (net_at beginning.now.silent.now j).0) (λ j. is_quiet frame beginning.now.until) (length beginning.now.silent.now) (sets_of self.new.sets) }
        ensures begun { (s : Stretch) → BeginsSo netlist.now s self.old.sets.frames beginning.now → IsBegun s self.old → IsBegun s self.new }
    {
        for net in beginning.silent {
            self.limit(frame, *net, quiet_pairs(frame, beginning.until));
        }
    }

    // Latches start with their pairs.
    fn limit_starts(&mut self, netlist: &Netlist, beginning: &Beginning<'_>)
        requires frame { 0 < self.old.sets.frames }
        requires nets { self.old.sets.nets ≡ length netlist.now.drivers }
        requires said { IsSaidOf netlist.now beginning.now }
        ensures size { IsAsLong self.old self.new }
        ensures fewer { AreFewer (sets_of self.old.sets) (sets_of self.new.sets) }
        ensures done { AreStartsDone netlist.now beginning.now (sets_of self.new.sets) }
        ensures sound { IsNetlist netlist.now }
        ensures begun { (s : Stretch) → BeginsSo netlist.now s self.old.sets.frames beginning.now → IsBegun s self.old → IsBegun s self.new }
    {
        for (number, latch) in netlist.latches().iter().enumerate() {
            self.limit(0, latch.to, beginning.starts[number]);
        }
    }

    // The rules that look at one set of a frame alone.
    fn limit_frame(&mut self, netlist: &Netlist, beginning: &Beginning<'_>, frame: u32)
        requires frame { frame < self.old.sets.frames }
        requires nets { self.old.sets.nets ≡ length netlist.now.drivers }
        requires said { IsSaidOf netlist.now beginning.now }
        ensures size { IsAsLong self.old self.new }
        ensures fewer { AreFewer (sets_of self.old.sets) (sets_of self.new.sets) }
        ensures done { IsFrameDone netlist.now beginning.now frame (sets_of self.new.sets) }
        ensures begun { (s : Stretch) → BeginsSo netlist.now s self.old.sets.frames beginning.now → IsBegun s self.old → IsBegun s self.new }
    {
        self.limit_inputs(netlist, beginning, frame);
        self.limit_held(netlist, beginning, frame);
        self.limit_silent(netlist, beginning, frame);
    }

    // And those of all frames.
    fn limit_frames(&mut self, netlist: &Netlist, beginning: &Beginning<'_>)
        requires nets { self.old.sets.nets ≡ length netlist.now.drivers }
        requires said { IsSaidOf netlist.now beginning.now }
        ensures size { IsAsLong self.old self.new }
        ensures fewer { AreFewer (sets_of self.old.sets) (sets_of self.new.sets) }
        ensures done { (frame : ℕ) → frame < self.old.sets.frames → IsFrameDone netlist.now beginning.now frame (sets_of self.new.sets) }
        ensures begun { (s : Stretch) → BeginsSo netlist.now s self.old.sets.frames beginning.now → IsBegun s self.old → IsBegun s self.new }
    {
        for frame in 0..self.sets.frames as u32 {
            self.limit_frame(netlist, beginning, frame);
        }
    }

    /// Begins a search anew, whatever it was before: all pairs everywhere, but for those that go by the rules that look at one set alone.
    /// All places wait. No memory is taken.
    pub fn begin(&mut self, netlist: &Netlist, beginning: &Beginning<'_>)
        requires nets { self.old.sets.nets ≡ length netlist.now.drivers }
        requires frames { 0 < self.old.sets.frames }
        requires said { IsSaidOf netlist.now beginning.now }
        ensures fits { (o : Ordered) → IsFor o self.old → IsFor o self.new }
        ensures frames { self.new.sets.frames ≡ self.old.sets.frames }
        ensures goes_on { (o : Ordered) (s : Stretch) → o.circuit ≡ netlist.now → IsFor o self.old → BeginsSo netlist.now s self.old.sets.frames beginning.now
            → GoesOn o s everything everything self.new }
    {
        self.sets.refill();
        self.empty = false;
        self.limit_frames(netlist, beginning);
        self.limit_starts(netlist, beginning);
        self.waiting.fill();
    }
}
