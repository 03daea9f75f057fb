// The steps of a search.
ghost use Rattle.std.specs.Prelude.{◌≡◌, ◌<◌, ◌≤◌, ◌+◌, ◌*◌, ℕ, Bool, true, false, length, All, MatchOption, Some};
ghost use Rattle.std.specs.List.{slice_get};
ghost use Rattle.circuit.specs.Sound.{IsNet, IsNetlist};
ghost use Rattle.circuit.specs.Order.{net_at};
ghost use Rattle.coverage_claim.specs.Rules.{MayGo, Sets, only};
ghost use Rattle.coverage_claim.specs.Stretch.{Stretch};
ghost use Rattle.pair_sets.specs.Choice.{set_at};
ghost use Rattle.pair_sets.specs.Pairs.{has};
ghost use Rattle.pair_sets.specs.Tables.{AreSetsOf, IsTruth};
ghost use Rattle.place_set.specs.Places.{has as waits};

use crate::frames::FrameSets;
use crate::watch::Watchers;
use circuit::parts::{Latch, NetId};
use coverage_claim::Site;
use pair_sets::{PairSet, TableRule};
use place_set::PlaceSet;

/// A table by its place in the order.
#[derive(Clone, Copy)]
pub struct TablePlace {
    /// Its own net.
    pub own: NetId,
    /// How many nets it reads. With more than six it isn't looked into.
    pub count: usize,
    /// Each net that it reads, once; behind these anything.
    pub reads: [NetId; 6],
    /// A bit for each row; the first net that is read is the highest digit of a row's number.
    pub truth: u64,
}

/// A search: the sets of all frames, the places of tables and latches that wait to be looked at, and whether a set has become empty.
#[derive(Drop)]
pub struct Search {
    pub sets: FrameSets,
    pub waiting: PlaceSet,
    pub empty: bool,
}

impl Search {
    ghost use Rattle.coverage_claim.specs.Largest.{AreAmong};
    ghost use Rattle.region_search.specs.Search.{place_in};
    ghost use Rattle.region_search.specs.Settled.{HoldsAll, IsLatchSettled, IsTableSettled, NothingWaits};
    ghost use Rattle.region_search.specs.Steps.{AreCut};
    ghost use Rattle.region_search.specs.Going.{AreSites, GoesOn, IsFor, IsFurther, IsLookedAt, IsMade, MayAllGo, sets_of};

    /// Leaves a net in a frame these pairs alone. Where one goes, all who look again wait, and it is noted where none is left.
    pub fn narrow(&mut self, watchers: &Watchers, frame: u32, net: NetId, to: PairSet)
        requires fits { IsFor watchers.now self.old }
        requires frame { frame < self.old.sets.frames }
        requires net { IsNet watchers.now.circuit net }
        ensures fits { IsFor watchers.now self.new }
        ensures frames { self.new.sets.frames ≡ self.old.sets.frames }
        ensures sets { (i n : ℕ) (a b : Bool) → sets_of self.new.sets i n a b ≡ only (sets_of self.old.sets) frame net.0 (has to) i n a b }
        ensures goes_on { (s : Stretch) (bounds q : Sets) → GoesOn watchers.now s bounds q self.old
            → MayAllGo s q frame net.0 (sets_of self.old.sets frame net.0) (has to) → GoesOn watchers.now s bounds q self.new }
        ensures anew { (s : Stretch) (bounds others q : Sets) → GoesOn watchers.now s bounds q self.old → HoldsAll s others (sets_of self.new.sets)
            → GoesOn watchers.now s others (sets_of self.new.sets) self.new }
        ensures further { IsFurther self.old self.new }
    {
        if !self.sets.cut(frame as usize, net, to) {
            return;
        }
        watchers.wake(&mut self.waiting, frame, net);
        if !self.sets.get(frame as usize, net).is_empty() {
            return;
        }
        self.empty = true;
    }

    // Takes pairs away from both nets of a latch.
    fn narrow_latch(&mut self, watchers: &Watchers, frame: u32, latch: Latch, site: Site)
        requires fits { IsFor watchers.now self.old }
        requires frame { frame + 1 < self.old.sets.frames }
        requires from { IsNet watchers.now.circuit latch.from }
        requires to { IsNet watchers.now.circuit latch.to }
        ensures fits { IsFor watchers.now self.new }
        ensures frames { self.new.sets.frames ≡ self.old.sets.frames }
        ensures goes_on { (s : Stretch) (bounds : Sets) (l : ℕ) → s.region latch.to.0 ≡ site → slice_get s.circuit.latches l ≡ Some latch
            → GoesOn watchers.now s bounds (sets_of self.old.sets) self.old → GoesOn watchers.now s bounds (sets_of self.old.sets) self.new }
        ensures settled { (s : Stretch) → s.region latch.to.0 ≡ site → IsLatchSettled s (sets_of self.new.sets) frame latch }
        ensures further { IsFurther self.old self.new }
    {
        let to = self.sets.get(frame as usize + 1, latch.to);
        self.narrow(watchers, frame, latch.from, to.driving(site));
        let from = self.sets.get(frame as usize, latch.from);
        self.narrow(watchers, frame + 1, latch.to, from.shown(site));
    }

    /// Looks at a latch between a frame and the next one: afterwards it takes nothing away, and doesn't wait.
    pub fn look_at_latch(
        &mut self,
        watchers: &Watchers,
        frame: u32,
        number: usize,
        latch: Latch,
        site: Site,
    )
        requires fits { IsFor watchers.now self.old }
        requires frame { frame + 1 < self.old.sets.frames }
        requires latch { slice_get watchers.now.circuit.latches number ≡ Some latch }
        requires from { IsNet watchers.now.circuit latch.from }
        requires to { IsNet watchers.now.circuit latch.to }
        ensures fits { IsFor watchers.now self.new }
        ensures frames { self.new.sets.frames ≡ self.old.sets.frames }
        ensures goes_on { (s : Stretch) (bounds : Sets) → s.region latch.to.0 ≡ site → GoesOn watchers.now s bounds (sets_of self.old.sets) self.old
            → GoesOn watchers.now s bounds (sets_of self.old.sets) self.new }
        ensures settled { (s : Stretch) → s.region latch.to.0 ≡ site → IsLatchSettled s (sets_of self.new.sets) frame latch }
        ensures work { IsLookedAt self.old self.new (place_in watchers.now frame (length watchers.now.order + number)) }
    {
        self.narrow_latch(watchers, frame, latch, site);
        self.waiting.remove(watchers.latch_place(frame, number));
    }

    // The sets of some nets in a frame.
    fn gather(&self, frame: u32, nets: &[NetId], into: &mut [PairSet])
        requires frame { frame < self.now.sets.frames }
        requires nets { All (λ net. net.0 < self.now.sets.nets) nets.now }
        requires size { length into.old ≡ length nets.now }
        ensures { AreSetsOf (sets_of self.now.sets) frame nets.now into.new }
    {
        for i in 0..nets.len() {
            into[i] = self.sets.get(frame as usize, nets[i]);
        }
    }

    // Leaves each of some nets in a frame its pairs alone.
    fn narrow_all(&mut self, watchers: &Watchers, frame: u32, nets: &[NetId], lefts: &[PairSet])
        requires fits { IsFor watchers.now self.old }
        requires frame { frame < self.old.sets.frames }
        requires nets { All (IsNet watchers.now.circuit) nets.now }
        requires size { length lefts.now ≡ length nets.now }
        ensures fits { IsFor watchers.now self.new }
        ensures frames { self.new.sets.frames ≡ self.old.sets.frames }
        ensures sets { AreCut frame (λ i. (net_at nets.now i).0) (λ i. has (set_at lefts.now i)) (length nets.now) (sets_of self.old.sets) (sets_of self.new.sets) }
        ensures goes_on { (s : Stretch) (bounds q : Sets) → GoesOn watchers.now s bounds q self.old
            → ((i : ℕ) → i < length nets.now → (a b : Bool) → has (set_at lefts.now i) a b ≡ false → MayGo s q frame (net_at nets.now i).0 a b)
            → GoesOn watchers.now s bounds q self.new }
        ensures further { IsFurther self.old self.new }
    {
        for i in 0..nets.len() {
            self.narrow(watchers, frame, nets[i], lefts[i]);
        }
    }

    // Takes pairs away from the nets of a table.
    fn narrow_table(
        &mut self,
        watchers: &Watchers,
        frame: u32,
        own: NetId,
        rule: TableRule,
        reads: &[NetId],
    )
        requires fits { IsFor watchers.now self.old }
        requires frame { frame < self.old.sets.frames }
        requires own { IsNet watchers.now.circuit own }
        requires reads { All (IsNet watchers.now.circuit) reads.now }
        requires few { length reads.now ≤ 6 }
        ensures fits { IsFor watchers.now self.new }
        ensures frames { self.new.sets.frames ≡ self.old.sets.frames }
        ensures goes_on { (s : Stretch) (bounds : Sets) (k : ℕ) → s.region own.0 ≡ rule.site → IsTruth s.circuit k own reads.now rule.truth
            → GoesOn watchers.now s bounds (sets_of self.old.sets) self.old → GoesOn watchers.now s bounds (sets_of self.old.sets) self.new }
        ensures settled { (s : Stretch) (k : ℕ) → frame ≤ s.last → s.region own.0 ≡ rule.site → IsTruth s.circuit k own reads.now rule.truth
            → IsTableSettled s (sets_of self.new.sets) frame k own }
        ensures further { IsFurther self.old self.new }
    {
        let mut buffer = [PairSet::NONE; 6];
        let sets = &mut buffer[..reads.len()];
        self.gather(frame, reads, sets);
        let own_left = rule.narrow(sets, self.sets.get(frame as usize, own));
        self.narrow_all(watchers, frame, reads, sets);
        self.narrow(watchers, frame, own, own_left);
    }

    /// Looks at a table in a frame, by its place in the order and its truth table: afterwards it takes nothing away, and doesn't wait.
    pub fn look_at_table(
        &mut self,
        watchers: &Watchers,
        frame: u32,
        place: usize,
        rule: TableRule,
        own: NetId,
        reads: &[NetId],
    )
        requires fits { IsFor watchers.now self.old }
        requires frame { frame < self.old.sets.frames }
        requires place { place < length watchers.now.order }
        requires at { net_at watchers.now.order place ≡ own }
        requires own { IsNet watchers.now.circuit own }
        requires reads { All (IsNet watchers.now.circuit) reads.now }
        requires few { length reads.now ≤ 6 }
        ensures fits { IsFor watchers.now self.new }
        ensures frames { self.new.sets.frames ≡ self.old.sets.frames }
        ensures goes_on { (s : Stretch) (bounds : Sets) (k : ℕ) → s.region own.0 ≡ rule.site → IsTruth s.circuit k own reads.now rule.truth
            → GoesOn watchers.now s bounds (sets_of self.old.sets) self.old → GoesOn watchers.now s bounds (sets_of self.old.sets) self.new }
        ensures settled { (s : Stretch) (k : ℕ) → frame ≤ s.last → s.region own.0 ≡ rule.site → IsTruth s.circuit k own reads.now rule.truth
            → IsTableSettled s (sets_of self.new.sets) frame k own }
        ensures work { IsLookedAt self.old self.new (place_in watchers.now frame place) }
    {
        self.narrow_table(watchers, frame, own, rule, reads);
        self.waiting.remove(watchers.table_place(frame, place));
    }

    // Looks at the table of a place in the order.
    fn look_at_place(
        &mut self,
        watchers: &Watchers,
        tables: &[TablePlace],
        sites: &[Site],
        frame: u32,
        place: usize,
    )
        requires fits { IsFor watchers.now self.old }
        requires made { IsMade watchers.now tables.now watchers.now.circuit.latches sites.now }
        requires frame { frame < self.old.sets.frames }
        requires place { place < length watchers.now.order }
        ensures fits { IsFor watchers.now self.new }
        ensures frames { self.new.sets.frames ≡ self.old.sets.frames }
        ensures goes_on { (s : Stretch) (bounds : Sets) → AreSites watchers.now s.region sites.now → GoesOn watchers.now s bounds (sets_of self.old.sets) self.old
            → GoesOn watchers.now s bounds (sets_of self.old.sets) self.new }
        ensures work { IsLookedAt self.old self.new (place_in watchers.now frame place) }
    {
        let table = tables[place];
        if table.count > 6 {
            self.waiting.remove(watchers.table_place(frame, place));
            return;
        }
        let rule = TableRule {
            truth: table.truth,
            site: sites[table.own.0 as usize],
        };
        self.look_at_table(
            watchers,
            frame,
            place,
            rule,
            table.own,
            &table.reads[..table.count],
        );
    }

    // Looks at a latch between a frame and the next one; behind the last frame there is nothing to look at.
    fn look_at_number(
        &mut self,
        watchers: &Watchers,
        latches: &[Latch],
        sites: &[Site],
        frame: u32,
        number: usize,
    )
        requires fits { IsFor watchers.now self.old }
        requires sound { IsNetlist watchers.now.circuit }
        requires latches { latches.now ≡ watchers.now.circuit.latches }
        requires sites { length sites.now ≡ length watchers.now.circuit.drivers }
        requires frame { frame < self.old.sets.frames }
        requires number { number < length latches.now }
        ensures fits { IsFor watchers.now self.new }
        ensures frames { self.new.sets.frames ≡ self.old.sets.frames }
        ensures goes_on { (s : Stretch) (bounds : Sets) → AreSites watchers.now s.region sites.now → GoesOn watchers.now s bounds (sets_of self.old.sets) self.old
            → GoesOn watchers.now s bounds (sets_of self.old.sets) self.new }
        ensures work { IsLookedAt self.old self.new (place_in watchers.now frame (length watchers.now.order + number)) }
    {
        if frame as usize + 1 == self.sets.frames {
            self.waiting.remove(watchers.latch_place(frame, number));
            return;
        }
        let latch = latches[number];
        self.look_at_latch(watchers, frame, number, latch, sites[latch.to.0 as usize]);
    }

    // Looks at a place that waits.
    fn look_at(
        &mut self,
        watchers: &Watchers,
        tables: &[TablePlace],
        latches: &[Latch],
        sites: &[Site],
        at: usize,
    )
        requires fits { IsFor watchers.now self.old }
        requires made { IsMade watchers.now tables.now latches.now sites.now }
        requires inside { at < self.old.waiting.bound }
        ensures fits { IsFor watchers.now self.new }
        ensures frames { self.new.sets.frames ≡ self.old.sets.frames }
        ensures goes_on { (s : Stretch) (bounds : Sets) → AreSites watchers.now s.region sites.now → GoesOn watchers.now s bounds (sets_of self.old.sets) self.old
            → GoesOn watchers.now s bounds (sets_of self.old.sets) self.new }
        ensures work { IsLookedAt self.old self.new at }
    {
        let (first, places) = watchers.places();
        let frame = (at / places) as u32;
        let place = at % places;
        if place < first {
            self.look_at_place(watchers, tables, sites, frame, place);
            return;
        }
        self.look_at_number(watchers, latches, sites, frame, place - first);
    }

    // Some place that waits: the first from one on, or else the first of all.
    fn next(&self, from: usize) -> Option<usize>
        ensures { MatchOption result ((p : ℕ) → waits self.now.waiting p ≡ false) (λ q. (q < self.now.waiting.bound) × (waits self.now.waiting q ≡ true)) }
    {
        match self.waiting.next_from(from) {
            Some(at) => Some(at),
            None => self.waiting.next_from(0),
        }
    }

    /// Looks at all places that wait, until none does or a set has become empty. `tables` are those of the netlist by their places in
    /// the order, `latches` its latches, and `sites` say of each net what faults may do there.
    pub fn settle(
        &mut self,
        watchers: &Watchers,
        tables: &[TablePlace],
        latches: &[Latch],
        sites: &[Site],
    )
        requires fits { IsFor watchers.now self.old }
        requires made { IsMade watchers.now tables.now latches.now sites.now }
        ensures fits { IsFor watchers.now self.new }
        ensures frames { self.new.sets.frames ≡ self.old.sets.frames }
        ensures goes_on { (s : Stretch) (bounds : Sets) → AreSites watchers.now s.region sites.now → GoesOn watchers.now s bounds (sets_of self.old.sets) self.old
            → GoesOn watchers.now s bounds (sets_of self.new.sets) self.new }
        ensures among { (s : Stretch) (bounds : Sets) → AreSites watchers.now s.region sites.now → GoesOn watchers.now s bounds (sets_of self.old.sets) self.old
            → AreAmong s (sets_of self.new.sets) (sets_of self.old.sets) }
        ensures settled { self.new.empty ≡ false → (s : Stretch) (bounds : Sets) → AreSites watchers.now s.region sites.now
            → GoesOn watchers.now s bounds (sets_of self.old.sets) self.old → NothingWaits s (sets_of self.new.sets) }
    {
        let mut from = 0;
        'places: while !self.empty {
            let Some(at) = self.next(from) else {
                return;
            };
            self.look_at(watchers, tables, latches, sites, at);
            from = at;
        }
    }
}
