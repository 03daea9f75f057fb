// The first frame of a window: which pairs there would break a claim, and aren't refuted.
ghost use Rattle.std.specs.Prelude.{◌≡◌, ◌<◌, ◌≤◌, ◌+◌, ℕ, Bool, true, false, not, ◌&&◌, ◌||◌, length, All, Some};
ghost use Rattle.std.specs.List.{slice_get};
ghost use Rattle.circuit.specs.Sound.{IsNet};
ghost use Rattle.coverage_claim.specs.Claim.{unequal};
ghost use Rattle.coverage_claim.specs.Largest.{IsRefuted};
ghost use Rattle.coverage_claim.specs.Rules.{LieIn, Sets};
ghost use Rattle.coverage_claim.specs.Stretch.{AreSo, Stretch, Values};
ghost use Rattle.pair_sets.specs.Choice.{set_at};
ghost use Rattle.pair_sets.specs.Pairs.{has};
ghost use Rattle.region_search.specs.Refute.{NoneHave};
ghost use Rattle.region_search.specs.Window.{IsForced, leaves_from};
ghost use Rattle.region_search.specs.Work.{pair_count, pairs_left};

use crate::refute::{PairAt, Trial};
use crate::search::{Search, TablePlace};
use crate::watch::Watchers;
use circuit::parts::{Latch, NetId};
use coverage_claim::Site;
use pair_sets::PairSet;

// The two pairs of unequal values.
fn unequal_pairs() -> PairSet
    ensures { (g f : Bool) → has result g f ≡ unequal g f }
{
    PairSet::of(false, true, true, false)
}

// Whether a latch with these starts may show another pair, of those that have this golden value.
fn shows_other(shown: PairSet, starts: PairSet, golden: bool) -> bool
    ensures { result ≡ ((has shown golden false && not (has starts golden false)) || (has shown golden true && not (has starts golden true))) }
{
    (shown.has(golden, false) && !starts.has(golden, false))
        || (shown.has(golden, true) && !starts.has(golden, true))
}

// Whether it may come to one, where the net that it reads has this pair.
fn may_leave(starts: PairSet, site: Site, golden: bool, faulty: bool) -> bool
    ensures { result ≡ leaves_from site (has starts) golden faulty }
{
    let pair = PairSet::pair(golden, faulty);
    shows_other(pair.shown(site), starts, golden)
}

// The pairs with which it may.
fn leaving_pairs(starts: PairSet, site: Site) -> PairSet
    ensures { (g f : Bool) → has result g f ≡ leaves_from site (has starts) g f }
{
    PairSet::of(
        may_leave(starts, site, false, false),
        may_leave(starts, site, true, false),
        may_leave(starts, site, false, true),
        may_leave(starts, site, true, true),
    )
}

impl Search {
    ghost use Rattle.region_search.specs.Going.{AreFor, AreSites, GoesOn, IsFor, IsMade};

    // Whether a pair is one of some, and not refuted.
    fn stands(
        &self,
        trial: &mut Trial,
        watchers: &Watchers,
        tables: &[TablePlace],
        latches: &[Latch],
        sites: &[Site],
        pairs: PairSet,
        pair: PairAt,
    ) -> bool
        requires fits { IsFor watchers.now self.now }
        requires trial { AreFor watchers.now trial.old }
        requires frames { trial.old.pair.sets.frames ≡ self.now.sets.frames }
        requires made { IsMade watchers.now tables.now latches.now sites.now }
        requires frame { pair.frame < self.now.sets.frames }
        requires net { IsNet watchers.now.circuit pair.net }
        ensures trial { AreFor watchers.now trial.new }
        ensures frames { trial.new.pair.sets.frames ≡ trial.old.pair.sets.frames }
        ensures among { result ≡ true → has pairs pair.golden pair.faulty ≡ true }
        ensures none { result ≡ false → has pairs pair.golden pair.faulty ≡ true → (s : Stretch) (bounds q : Sets) → AreSites watchers.now s.region sites.now
            → GoesOn watchers.now s bounds q self.now → NoneHave s bounds pair.frame pair.net.0 pair.golden pair.faulty }
        ensures open { result ≡ true → (s : Stretch) (bounds q : Sets) → AreSites watchers.now s.region sites.now → GoesOn watchers.now s bounds q self.now
            → ¬ (IsRefuted s pair.frame pair.net.0 pair.golden pair.faulty) }
    {
        let here = self.sets.get(pair.frame as usize, pair.net).and(pairs);
        if !here.has(pair.golden, pair.faulty) {
            return false;
        }
        !self.refutes(trial, watchers, tables, latches, sites, pair)
    }

    // Those of some pairs of a net in a frame that aren't refuted, tried one at a time. A pair that the net hasn't is refuted at no cost.
    fn standing(
        &self,
        trial: &mut Trial,
        watchers: &Watchers,
        tables: &[TablePlace],
        latches: &[Latch],
        sites: &[Site],
        frame: u32,
        net: NetId,
        pairs: PairSet,
    ) -> PairSet
        requires fits { IsFor watchers.now self.now }
        requires trial { AreFor watchers.now trial.old }
        requires frames { trial.old.pair.sets.frames ≡ self.now.sets.frames }
        requires made { IsMade watchers.now tables.now latches.now sites.now }
        requires frame { frame < self.now.sets.frames }
        requires net { IsNet watchers.now.circuit net }
        ensures trial { AreFor watchers.now trial.new }
        ensures frames { trial.new.pair.sets.frames ≡ trial.old.pair.sets.frames }
        ensures among { (a b : Bool) → has result a b ≡ true → has pairs a b ≡ true }
        ensures none { (s : Stretch) (bounds q : Sets) → AreSites watchers.now s.region sites.now → GoesOn watchers.now s bounds q self.now
            → (a b : Bool) → has pairs a b ≡ true → has result a b ≡ false → NoneHave s bounds frame net.0 a b }
        ensures open { (s : Stretch) (bounds q : Sets) → AreSites watchers.now s.region sites.now → GoesOn watchers.now s bounds q self.now
            → (a b : Bool) → has result a b ≡ true → ¬ (IsRefuted s frame net.0 a b) }
    {
        let at = PairAt {
            frame,
            net,
            golden: false,
            faulty: false,
        };
        let zeros = self.stands(trial, watchers, tables, latches, sites, pairs, at);
        let golden = PairAt { golden: true, ..at };
        let golden = self.stands(trial, watchers, tables, latches, sites, pairs, golden);
        let faulty = PairAt { faulty: true, ..at };
        let faulty = self.stands(trial, watchers, tables, latches, sites, pairs, faulty);
        let ones = PairAt {
            golden: true,
            faulty: true,
            ..at
        };
        let ones = self.stands(trial, watchers, tables, latches, sites, pairs, ones);
        PairSet::of(zeros, golden, faulty, ones)
    }

    /// Whether none of some nets differs in frame 0, since both unequal pairs of each are refuted.
    pub fn agrees(
        &self,
        trial: &mut Trial,
        watchers: &Watchers,
        tables: &[TablePlace],
        latches: &[Latch],
        sites: &[Site],
        nets: &[NetId],
    ) -> bool
        requires fits { IsFor watchers.now self.now }
        requires trial { AreFor watchers.now trial.old }
        requires frames { trial.old.pair.sets.frames ≡ self.now.sets.frames }
        requires made { IsMade watchers.now tables.now latches.now sites.now }
        requires frame { 0 < self.now.sets.frames }
        requires nets { All (IsNet watchers.now.circuit) nets.now }
        ensures trial { AreFor watchers.now trial.new }
        ensures frames { trial.new.pair.sets.frames ≡ trial.old.pair.sets.frames }
        ensures same { result ≡ true → (s : Stretch) (bounds q : Sets) → AreSites watchers.now s.region sites.now → GoesOn watchers.now s bounds q self.now
            → (golden faulty : Values) → AreSo s golden faulty → LieIn s bounds golden faulty → All (λ net. golden 0 net.0 ≡ faulty 0 net.0) nets.now }
        ensures open { result ≡ false → (s : Stretch) (bounds q : Sets) → AreSites watchers.now s.region sites.now → GoesOn watchers.now s bounds q self.now
            → ¬ (All (λ net. (a b : Bool) → unequal a b ≡ true → IsRefuted s 0 net.0 a b) nets.now) }
    {
        for net in nets {
            let pairs = unequal_pairs();
            let standing = self.standing(trial, watchers, tables, latches, sites, 0, *net, pairs);
            if !standing.is_empty() {
                return false;
            }
        }
        true
    }

    // The pairs that a latch may start the next cycle with, where it may start this one with `start`: one more for each pair that may
    // lead it away and isn't refuted, and each that its own net may show then.
    fn grown(
        &self,
        trial: &mut Trial,
        watchers: &Watchers,
        tables: &[TablePlace],
        latches: &[Latch],
        sites: &[Site],
        latch: Latch,
        start: PairSet,
    ) -> PairSet
        requires fits { IsFor watchers.now self.now }
        requires trial { AreFor watchers.now trial.old }
        requires frames { trial.old.pair.sets.frames ≡ self.now.sets.frames }
        requires made { IsMade watchers.now tables.now latches.now sites.now }
        requires frame { 0 < self.now.sets.frames }
        requires from { IsNet watchers.now.circuit latch.from }
        requires to { IsNet watchers.now.circuit latch.to }
        ensures trial { AreFor watchers.now trial.new }
        ensures frames { trial.new.pair.sets.frames ≡ trial.old.pair.sets.frames }
        ensures grows { (a b : Bool) → has start a b ≡ true → has result a b ≡ true }
        ensures again { (s : Stretch) (bounds q : Sets) → AreSites watchers.now s.region sites.now → GoesOn watchers.now s bounds q self.now
            → (golden faulty : Values) → AreSo s golden faulty → LieIn s bounds golden faulty
            → leaves_from (s.region latch.to.0) (has result) (golden 0 latch.from.0) (faulty 0 latch.from.0) ≡ false }
        ensures forced { (s : Stretch) (bounds q : Sets) → AreSites watchers.now s.region sites.now → GoesOn watchers.now s bounds q self.now
            → (x y : Bool) → has result x y ≡ true → IsForced s latch (has start) x y }
    {
        let site = sites[latch.to.0 as usize];
        let pairs = leaving_pairs(start, site);
        let leaving = self.standing(
            trial, watchers, tables, latches, sites, 0, latch.from, pairs,
        );
        start.or(leaving.shown(site))
    }

    // Lets the starts of a latch grow by the pairs that they are forced to have; answers whether they have grown.
    fn grow_at(
        &self,
        trial: &mut Trial,
        watchers: &Watchers,
        tables: &[TablePlace],
        latches: &[Latch],
        sites: &[Site],
        latch: Latch,
        start: &mut PairSet,
    ) -> bool
        requires fits { IsFor watchers.now self.now }
        requires trial { AreFor watchers.now trial.old }
        requires frames { trial.old.pair.sets.frames ≡ self.now.sets.frames }
        requires made { IsMade watchers.now tables.now latches.now sites.now }
        requires frame { 0 < self.now.sets.frames }
        requires from { IsNet watchers.now.circuit latch.from }
        requires to { IsNet watchers.now.circuit latch.to }
        ensures trial { AreFor watchers.now trial.new }
        ensures frames { trial.new.pair.sets.frames ≡ trial.old.pair.sets.frames }
        ensures same { result ≡ false → start.new ≡ start.old }
        ensures keeps { (a b : Bool) → has start.old a b ≡ true → has start.new a b ≡ true }
        ensures again { result ≡ false → (s : Stretch) (bounds q : Sets) → AreSites watchers.now s.region sites.now → GoesOn watchers.now s bounds q self.now
            → (golden faulty : Values) → AreSo s golden faulty → LieIn s bounds golden faulty
            → leaves_from (s.region latch.to.0) (has start.old) (golden 0 latch.from.0) (faulty 0 latch.from.0) ≡ false }
        ensures grows { result ≡ true → pair_count start.old + 1 ≤ pair_count start.new }
        ensures forced { (s : Stretch) (bounds q : Sets) → AreSites watchers.now s.region sites.now → GoesOn watchers.now s bounds q self.now
            → (x y : Bool) → has start.new x y ≡ true → IsForced s latch (has start.old) x y }
    {
        let grown = self.grown(trial, watchers, tables, latches, sites, latch, *start);
        if grown.is_inside(*start) {
            return false;
        }
        *start = grown;
        true
    }

    /// Lets the starts of all latches grow by the pairs that they are forced to have, each once; answers whether some have grown. Where
    /// none has, each latch starts the next cycle as it may start this one.
    pub fn grow(
        &self,
        trial: &mut Trial,
        watchers: &Watchers,
        tables: &[TablePlace],
        latches: &[Latch],
        sites: &[Site],
        starts: &mut [PairSet],
    ) -> bool
        requires fits { IsFor watchers.now self.now }
        requires trial { AreFor watchers.now trial.old }
        requires frames { trial.old.pair.sets.frames ≡ self.now.sets.frames }
        requires made { IsMade watchers.now tables.now latches.now sites.now }
        requires frame { 0 < self.now.sets.frames }
        requires starts { length starts.old ≡ length latches.now }
        ensures trial { AreFor watchers.now trial.new }
        ensures frames { trial.new.pair.sets.frames ≡ trial.old.pair.sets.frames }
        ensures same { result ≡ false → starts.new ≡ starts.old }
        ensures keeps { (l : ℕ) (x y : Bool) → has (set_at starts.old l) x y ≡ true → has (set_at starts.new l) x y ≡ true }
        ensures again { result ≡ false → (s : Stretch) (bounds q : Sets) → AreSites watchers.now s.region sites.now → GoesOn watchers.now s bounds q self.now
            → (golden faulty : Values) → AreSo s golden faulty → LieIn s bounds golden faulty → (l : ℕ) (latch : Latch) → slice_get latches.now l ≡ Some latch
            → leaves_from (s.region latch.to.0) (has (set_at starts.old l)) (golden 0 latch.from.0) (faulty 0 latch.from.0) ≡ false }
        ensures grows { result ≡ true → pairs_left starts.old + 1 ≤ pairs_left starts.new }
        ensures forced { (s : Stretch) (bounds q : Sets) → AreSites watchers.now s.region sites.now → GoesOn watchers.now s bounds q self.now
            → (l : ℕ) (latch : Latch) → slice_get latches.now l ≡ Some latch → (x y : Bool) → has (set_at starts.new l) x y ≡ true → IsForced s latch (has (set_at starts.old l)) x y }
    {
        let mut some = false;
        for (number, latch) in latches.iter().enumerate() {
            let grows = self.grow_at(
                trial,
                watchers,
                tables,
                latches,
                sites,
                *latch,
                &mut starts[number],
            );
            some = some | grows;
        }
        some
    }
}
