// Sets of pairs, frame after frame.
ghost use Rattle.std.specs.Prelude.{◌≡◌, ◌<◌, ◌≤◌, ◌+◌, ◌*◌, ◌^◌, ℕ, Bool, true, false, IfOk, length};
ghost use Rattle.coverage_claim.specs.Rules.{only};
ghost use Rattle.pair_sets.specs.Pairs.{has};
ghost use Rattle.region_search.specs.Settled.{sets_in};
ghost use Rattle.region_search.specs.Work.{pairs_left};

use circuit::parts::NetId;
use pair_sets::PairSet;
use room::{NoRoom, filled};
use std::alloc::Global;

// The place of a net in a frame, in an array of frame after frame.
fn place(nets: usize, frames: usize, frame: usize, net: NetId) -> usize
    requires few { frames * nets < 2 ^ 64 }
    requires frame { frame < frames }
    requires net { net.0 < nets }
    ensures value { result ≡ frame * nets + net.0 }
    ensures inside { result < frames * nets }
{
    frame * nets + net.0 as usize
}

/// The pairs that each net may have in each frame.
#[derive(Drop)]
pub struct FrameSets {
    pub nets: usize,
    pub frames: usize,
    pub sets: Vec<PairSet>,
    pub ghost sized: { length sets.items ≡ frames * nets },
    pub ghost few: { frames * nets < 2 ^ 64 },
    pub ghost short: { frames ≤ 2 ^ 16 },
}

impl FrameSets {
    /// All pairs, of so many nets in so many frames.
    pub fn new(alloc: Global, nets: usize, frames: usize) -> Result<FrameSets, NoRoom>
        requires nets { nets ≤ 2 ^ 18 }
        requires frames { frames ≤ 2 ^ 16 }
        ensures nets { IfOk result (λ made. made.nets ≡ nets) }
        ensures frames { IfOk result (λ made. made.frames ≡ frames) }
        ensures all { IfOk result (λ made. (frame net : ℕ) (a b : Bool) → frame < frames → sets_in made.nets made.sets.items frame net a b ≡ true) }
    {
        let sets = filled(alloc, PairSet::ALL, frames * nets)?;
        Ok(FrameSets { nets, frames, sets })
    }

    /// All pairs again.
    pub fn refill(&mut self)
        ensures nets { self.new.nets ≡ self.old.nets }
        ensures frames { self.new.frames ≡ self.old.frames }
        ensures all { (frame net : ℕ) (a b : Bool) → frame < self.old.frames → sets_in self.new.nets self.new.sets.items frame net a b ≡ true }
    {
        self.sets.fill(PairSet::ALL);
    }

    /// Takes the pairs of another one, of as many nets and frames, in place of its own.
    pub fn copy_from(&mut self, other: &FrameSets)
        requires nets { other.now.nets ≡ self.old.nets }
        requires frames { other.now.frames ≡ self.old.frames }
        ensures nets { self.new.nets ≡ self.old.nets }
        ensures frames { self.new.frames ≡ self.old.frames }
        ensures sets { self.new.sets.items ≡ other.now.sets.items }
    {
        self.sets.copy_from_slice(&other.sets);
    }

    /// The pairs of a net in a frame.
    pub fn get(&self, frame: usize, net: NetId) -> PairSet
        requires frame { frame < self.now.frames }
        requires net { net.0 < self.now.nets }
        ensures { (a b : Bool) → has result a b ≡ sets_in self.now.nets self.now.sets.items frame net.0 a b }
    {
        self.sets[place(self.nets, self.frames, frame, net)]
    }

    /// Leaves a net in a frame these pairs alone, and tells whether one went.
    pub fn cut(&mut self, frame: usize, net: NetId, to: PairSet) -> bool
        requires frame { frame < self.old.frames }
        requires net { net.0 < self.old.nets }
        ensures nets { self.new.nets ≡ self.old.nets }
        ensures frames { self.new.frames ≡ self.old.frames }
        ensures sets { (i n : ℕ) (a b : Bool) → sets_in self.new.nets self.new.sets.items i n a b ≡ only (sets_in self.old.nets self.old.sets.items) frame net.0 (has to) i n a b }
        ensures stays { result ≡ false → self.new.sets.items ≡ self.old.sets.items }
        ensures goes { result ≡ true → pairs_left self.new.sets.items + 1 ≤ pairs_left self.old.sets.items }
    {
        let at = place(self.nets, self.frames, frame, net);
        let old = self.sets[at];
        if old.is_inside(to) {
            return false;
        }
        self.sets[at] = old.and(to);
        true
    }
}
