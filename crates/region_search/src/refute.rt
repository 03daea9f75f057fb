// A pair that is tried: the search goes on in a copy, with this pair alone at its net.
ghost use Rattle.std.specs.Prelude.{◌≡◌, ◌<◌, ◌≤◌, ◌*◌, ◌^◌, ℕ, Bool, true, false, not, All, IfOk};
ghost use Rattle.circuit.specs.Sound.{IsNet};
ghost use Rattle.coverage_claim.specs.Largest.{IsRefuted};
ghost use Rattle.coverage_claim.specs.Rules.{Sets, only, this_pair};
ghost use Rattle.coverage_claim.specs.Stretch.{Stretch};
ghost use Rattle.region_search.specs.Refute.{IsCopy, NoneHave, NoneHaveGolden};
ghost use Rattle.region_search.specs.Search.{places_of};

use crate::begin::golden_pairs;
use crate::near::nets_near;
use crate::search::{Search, TablePlace};
use crate::watch::Watchers;
use circuit::netlist::Netlist;
use circuit::parts::{Latch, NetId};
use coverage_claim::Site;
use pair_sets::PairSet;
use room::NoRoom;
use std::alloc::Global;

/// A pair at a net in a frame.
#[derive(Clone, Copy, Debug, PartialEq, Eq)]
pub struct PairAt {
    pub frame: u32,
    pub net: NetId,
    pub golden: bool,
    pub faulty: bool,
}

/// What pairs are tried in.
#[derive(Drop)]
pub struct Trial {
    /// A second search, for a pair alone.
    pub pair: Search,
    /// A third one, for a case of it: one golden value alone at a net near it.
    pub case: Search,
    /// Whether a pair that isn't refuted alone is tried by cases too.
    pub by_cases: bool,
}

impl Trial {
    ghost use Rattle.region_search.specs.Going.{AreFor};

    /// What pairs are tried in, in so many frames of a netlist; by cases only once `by_cases` is set. It takes twice the memory of a search.
    pub fn new(
        alloc: Global,
        netlist: &Netlist,
        watchers: &Watchers,
        frames: usize,
    ) -> Result<Trial, NoRoom>
        requires netlist { watchers.now.circuit ≡ netlist.now }
        requires frames { frames ≤ 2 ^ 16 }
        requires few { frames * places_of watchers.now < 2 ^ 32 }
        ensures fits { IfOk result (AreFor watchers.now) }
        ensures frames { IfOk result (λ trial. trial.pair.sets.frames ≡ frames) }
    {
        let pair = Search::new(alloc, netlist, watchers, frames)?;
        let case = Search::new(alloc, netlist, watchers, frames)?;
        Ok(Trial {
            pair,
            case,
            by_cases: false,
        })
    }
}

// Whether some pair has each golden value.
fn has_both(pairs: PairSet) -> bool {
    (pairs.has(false, false) || pairs.has(false, true))
        && (pairs.has(true, false) || pairs.has(true, true))
}

impl Search {
    ghost use Rattle.region_search.specs.Going.{AreFor, AreSites, GoesOn, IsFor, IsMade, sets_of};

    /// Takes what another search of as many nets and frames has come to in place of its own.
    pub fn copy_from(&mut self, other: &Search)
        requires nets { other.now.sets.nets ≡ self.old.sets.nets }
        requires frames { other.now.sets.frames ≡ self.old.sets.frames }
        requires bound { other.now.waiting.bound ≡ self.old.waiting.bound }
        ensures { IsCopy self.new other.now }
    {
        self.sets.copy_from(&other.sets);
        self.waiting.copy_from(&other.waiting);
        self.empty = other.empty;
    }

    // Whether a pair is refuted by itself. `trial` is left with what the trial came to: a search that goes on with the runs that have the pair.
    fn refutes_alone(
        &self,
        trial: &mut Search,
        watchers: &Watchers,
        tables: &[TablePlace],
        latches: &[Latch],
        sites: &[Site],
        pair: PairAt,
    ) -> bool
        requires fits { IsFor watchers.now self.now }
        requires trial { IsFor watchers.now trial.old }
        requires frames { trial.old.sets.frames ≡ self.now.sets.frames }
        requires made { IsMade watchers.now tables.now latches.now sites.now }
        requires frame { pair.frame < self.now.sets.frames }
        requires net { IsNet watchers.now.circuit pair.net }
        ensures trial { IsFor watchers.now trial.new }
        ensures frames { trial.new.sets.frames ≡ trial.old.sets.frames }
        ensures refuted { result ≡ true → (s : Stretch) (bounds q : Sets) → AreSites watchers.now s.region sites.now → GoesOn watchers.now s bounds q self.now
            → NoneHave s bounds pair.frame pair.net.0 pair.golden pair.faulty }
        ensures open { result ≡ false → (s : Stretch) (bounds q : Sets) → AreSites watchers.now s.region sites.now → GoesOn watchers.now s bounds q self.now
            → ¬ (IsRefuted s pair.frame pair.net.0 pair.golden pair.faulty) }
        ensures goes_on { (s : Stretch) (bounds q : Sets) → AreSites watchers.now s.region sites.now → GoesOn watchers.now s bounds q self.now
            → GoesOn watchers.now s (only bounds pair.frame pair.net.0 (this_pair pair.golden pair.faulty)) (sets_of trial.new.sets) trial.new }
    {
        trial.copy_from(self);
        let alone = PairSet::pair(pair.golden, pair.faulty);
        trial.narrow(watchers, pair.frame, pair.net, alone);
        trial.settle(watchers, tables, latches, sites);
        trial.empty
    }

    // Whether no runs have a golden value at a net in a frame: with it alone there some set has no pair in the end. The search stays as
    // it is; `case` is another one, in which that is tried.
    fn lacks(
        &self,
        case: &mut Search,
        watchers: &Watchers,
        tables: &[TablePlace],
        latches: &[Latch],
        sites: &[Site],
        frame: u32,
        net: NetId,
        golden: bool,
    ) -> bool
        requires fits { IsFor watchers.now self.now }
        requires case { IsFor watchers.now case.old }
        requires frames { case.old.sets.frames ≡ self.now.sets.frames }
        requires made { IsMade watchers.now tables.now latches.now sites.now }
        requires frame { frame < self.now.sets.frames }
        requires net { IsNet watchers.now.circuit net }
        ensures case { IsFor watchers.now case.new }
        ensures frames { case.new.sets.frames ≡ case.old.sets.frames }
        ensures none { result ≡ true → (s : Stretch) (bounds q : Sets) → AreSites watchers.now s.region sites.now → GoesOn watchers.now s bounds q self.now
            → NoneHaveGolden s bounds frame net.0 golden }
    {
        case.copy_from(self);
        case.narrow(watchers, frame, net, golden_pairs(Some(golden)));
        case.settle(watchers, tables, latches, sites);
        case.empty
    }

    // Goes on with a golden value alone at a net in a frame, where no runs have the other one.
    fn keep(
        &mut self,
        watchers: &Watchers,
        tables: &[TablePlace],
        latches: &[Latch],
        sites: &[Site],
        frame: u32,
        net: NetId,
        golden: bool,
    )
        requires fits { IsFor watchers.now self.old }
        requires made { IsMade watchers.now tables.now latches.now sites.now }
        requires frame { frame < self.old.sets.frames }
        requires net { IsNet watchers.now.circuit net }
        ensures fits { IsFor watchers.now self.new }
        ensures frames { self.new.sets.frames ≡ self.old.sets.frames }
        ensures goes_on { (s : Stretch) (bounds q : Sets) → AreSites watchers.now s.region sites.now → GoesOn watchers.now s bounds q self.old
            → NoneHaveGolden s bounds frame net.0 (not golden) → GoesOn watchers.now s bounds (sets_of self.new.sets) self.new }
    {
        self.narrow(watchers, frame, net, golden_pairs(Some(golden)));
        self.settle(watchers, tables, latches, sites);
    }

    // Tries both golden values of a net in a frame, where it may have both: where one has no runs, the search goes on with the other.
    fn split_at(
        &mut self,
        case: &mut Search,
        watchers: &Watchers,
        tables: &[TablePlace],
        latches: &[Latch],
        sites: &[Site],
        frame: u32,
        net: NetId,
    )
        requires fits { IsFor watchers.now self.old }
        requires case { IsFor watchers.now case.old }
        requires case_frames { case.old.sets.frames ≡ self.old.sets.frames }
        requires made { IsMade watchers.now tables.now latches.now sites.now }
        requires frame { frame < self.old.sets.frames }
        requires net { IsNet watchers.now.circuit net }
        ensures fits { IsFor watchers.now self.new }
        ensures frames { self.new.sets.frames ≡ self.old.sets.frames }
        ensures case { IsFor watchers.now case.new }
        ensures case_frames { case.new.sets.frames ≡ case.old.sets.frames }
        ensures goes_on { (s : Stretch) (bounds : Sets) → AreSites watchers.now s.region sites.now → GoesOn watchers.now s bounds (sets_of self.old.sets) self.old
            → GoesOn watchers.now s bounds (sets_of self.new.sets) self.new }
    {
        if !has_both(self.sets.get(frame as usize, net)) {
            return;
        }
        if self.lacks(case, watchers, tables, latches, sites, frame, net, false) {
            self.keep(watchers, tables, latches, sites, frame, net, true);
            return;
        }
        if !self.lacks(case, watchers, tables, latches, sites, frame, net, true) {
            return;
        }
        self.keep(watchers, tables, latches, sites, frame, net, false);
    }

    // Tries both golden values of each of some nets in a frame, until a set has become empty.
    fn split_all(
        &mut self,
        case: &mut Search,
        watchers: &Watchers,
        tables: &[TablePlace],
        latches: &[Latch],
        sites: &[Site],
        frame: u32,
        nets: &[NetId],
    )
        requires fits { IsFor watchers.now self.old }
        requires case { IsFor watchers.now case.old }
        requires case_frames { case.old.sets.frames ≡ self.old.sets.frames }
        requires made { IsMade watchers.now tables.now latches.now sites.now }
        requires frame { frame < self.old.sets.frames }
        requires nets { All (IsNet watchers.now.circuit) nets.now }
        ensures fits { IsFor watchers.now self.new }
        ensures frames { self.new.sets.frames ≡ self.old.sets.frames }
        ensures case { IsFor watchers.now case.new }
        ensures case_frames { case.new.sets.frames ≡ case.old.sets.frames }
        ensures goes_on { (s : Stretch) (bounds : Sets) → AreSites watchers.now s.region sites.now → GoesOn watchers.now s bounds (sets_of self.old.sets) self.old
            → GoesOn watchers.now s bounds (sets_of self.new.sets) self.new }
    {
        for net in nets {
            if self.empty {
                return;
            }
            self.split_at(case, watchers, tables, latches, sites, frame, *net);
        }
    }

    // Whether a trial of a pair comes to an empty set where both golden values of the nets near it are tried, one after the other.
    fn ends_by_cases(
        &mut self,
        case: &mut Search,
        watchers: &Watchers,
        tables: &[TablePlace],
        latches: &[Latch],
        sites: &[Site],
        pair: PairAt,
    ) -> bool
        requires fits { IsFor watchers.now self.old }
        requires case { IsFor watchers.now case.old }
        requires case_frames { case.old.sets.frames ≡ self.old.sets.frames }
        requires made { IsMade watchers.now tables.now latches.now sites.now }
        requires frame { pair.frame < self.old.sets.frames }
        requires net { IsNet watchers.now.circuit pair.net }
        ensures fits { IsFor watchers.now self.new }
        ensures frames { self.new.sets.frames ≡ self.old.sets.frames }
        ensures case { IsFor watchers.now case.new }
        ensures case_frames { case.new.sets.frames ≡ case.old.sets.frames }
        ensures refuted { result ≡ true → (s : Stretch) (bounds : Sets) → AreSites watchers.now s.region sites.now
            → GoesOn watchers.now s (only bounds pair.frame pair.net.0 (this_pair pair.golden pair.faulty)) (sets_of self.old.sets) self.old
            → NoneHave s bounds pair.frame pair.net.0 pair.golden pair.faulty }
    {
        let near = nets_near(watchers, tables, pair.net);
        self.split_all(
            case,
            watchers,
            tables,
            latches,
            sites,
            pair.frame,
            &near.nets[..near.count],
        );
        self.empty
    }

    /// Whether a pair is refuted: with it alone at its net, some set has no pair in the end. Where that isn't so, and `trial` is by cases, each
    /// golden value of the nets near it is tried too. The search stays as it is, and `trial` is overwritten. It costs a copy of all sets, a byte for each
    /// net and frame, and what `settle` does; by cases as much again for each of at most 48 cases.
    pub fn refutes(
        &self,
        trial: &mut Trial,
        watchers: &Watchers,
        tables: &[TablePlace],
        latches: &[Latch],
        sites: &[Site],
        pair: PairAt,
    ) -> bool
        requires fits { IsFor watchers.now self.now }
        requires trial { AreFor watchers.now trial.old }
        requires frames { trial.old.pair.sets.frames ≡ self.now.sets.frames }
        requires made { IsMade watchers.now tables.now latches.now sites.now }
        requires frame { pair.frame < self.now.sets.frames }
        requires net { IsNet watchers.now.circuit pair.net }
        ensures trial { AreFor watchers.now trial.new }
        ensures frames { trial.new.pair.sets.frames ≡ trial.old.pair.sets.frames }
        ensures refuted { result ≡ true → (s : Stretch) (bounds q : Sets) → AreSites watchers.now s.region sites.now → GoesOn watchers.now s bounds q self.now
            → NoneHave s bounds pair.frame pair.net.0 pair.golden pair.faulty }
        ensures open { result ≡ false → (s : Stretch) (bounds q : Sets) → AreSites watchers.now s.region sites.now → GoesOn watchers.now s bounds q self.now
            → ¬ (IsRefuted s pair.frame pair.net.0 pair.golden pair.faulty) }
    {
        if self.refutes_alone(&mut trial.pair, watchers, tables, latches, sites, pair) {
            return true;
        }
        if !trial.by_cases {
            return false;
        }
        trial
            .pair
            .ends_by_cases(&mut trial.case, watchers, tables, latches, sites, pair)
    }
}
