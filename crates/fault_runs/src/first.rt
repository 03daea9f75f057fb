// The first cycle in which something is seen at a point, of each fault of a draw.
ghost use Rattle.std.specs.Prelude.{◌≡◌, ◌<◌, ◌≤◌, ◌+◌, ◌*◌, ℕ, Bool, List, All, IfOk, None, true, is_some, length, slice_index};
ghost use Rattle.fm_base.specs.Planes.{bit};
ghost use Rattle.fault_runs.specs.First.{AreKnown, IsNotIn, SeesSome, fault_in, first_in};
ghost use Rattle.first_cycles.specs.FirstCycles.{first_with};

use lane_words::Word;
use room::{NoRoom, filled};
use std::alloc::Global;
use std::marker::Model;

// Puts a cycle to the fault in a lane of a group, where it hasn't been seen before.
fn see_lane(group: &[u32], lane: usize, cycle: u32, cycles: &mut [Option<u32>])
    requires { All (λ i. i < length cycles.old) group.now }
    ensures seen { lane < length group.now → is_some (first_in cycles.new (fault_in group.now lane)) ≡ true }
    ensures sees { (is_seen : ℕ → Bool) → (lane < length group.now → is_seen (fault_in group.now lane) ≡ true) → SeesSome group.now is_seen cycle cycles.old cycles.new }
{
    if let Some(fault) = group.get(lane) {
        let own = &mut cycles[*fault as usize];
        *own = own.or(Some(cycle));
    }
}

// Puts a cycle to the faults in these lanes of a word of a group.
fn see_lanes(group: &[u32], word: u32, cycle: u32, lanes: u64, cycles: &mut [Option<u32>])
    requires word { word < 4 }
    requires group { All (λ i. i < length cycles.old) group.now }
    ensures seen { (k : ℕ) → k < 64 → word * 64 + k < length group.now → bit lanes k ≡ true → is_some (first_in cycles.new (fault_in group.now (word * 64 + k))) ≡ true }
    ensures sees { (is_seen : ℕ → Bool) → ((k : ℕ) → k < 64 → word * 64 + k < length group.now → bit lanes k ≡ true → is_seen (fault_in group.now (word * 64 + k)) ≡ true)
        → SeesSome group.now is_seen cycle cycles.old cycles.new }
{
    let mut left = lanes;
    while left != 0 {
        let lane = left.trailing_zeros();
        see_lane(group, (word * 64 + lane) as usize, cycle, cycles);
        left &= !(1 << lane);
    }
}

/// The first cycle of a run in which something is seen at a point, of each fault of a draw. Faults are followed in groups: a group has
/// the number in the draw of the fault in each lane.
#[derive(Drop)]
pub struct FirstCycles {
    cycles: Vec<Option<u32>>,
    // The lanes of the present group whose faults have been seen; of other lanes it isn't known.
    known: [u64; 4],
}

impl Model for FirstCycles {
    ghost use Rattle.fault_runs.specs.First.{FirstCycles as Marks};

    ghost Value = { Marks };

    ghost view = { λ f. record { cycles = f.cycles.items; known = f.known } };
}

impl FirstCycles {
    ghost use Rattle.fault_runs.specs.First.{first_of};

    /// Nothing has been seen of so many faults.
    pub fn new(alloc: Global, faults: usize) -> Result<Self, NoRoom>
        ensures count { IfOk result (λ firsts. length firsts.cycles ≡ faults) }
        ensures nothing { IfOk result (λ firsts. (i : ℕ) → first_of firsts i ≡ None) }
    {
        Ok(FirstCycles {
            cycles: filled(alloc, None, faults)?,
            known: [0; 4],
        })
    }

    /// Forgets what was seen: the next cycle is the first of a run.
    pub fn start(&mut self)
        ensures count { length self.new.cycles ≡ length self.old.cycles }
        ensures nothing { (i : ℕ) → first_of self.new i ≡ None }
    {
        self.cycles.fill(None);
    }

    /// Another group begins: nothing is known of its lanes yet.
    pub fn begin(&mut self)
        ensures same { self.new.cycles ≡ self.old.cycles }
        ensures known { (group : List ℕ) → AreKnown group self.new.known self.new.cycles }
    {
        self.known = [0; 4];
    }

    // Shows the lanes of a word of a group in which it is seen in a cycle.
    fn see_word(&mut self, group: &[u32], word: u32, cycle: u32, lanes: u64)
        requires word { word < 4 }
        requires group { All (λ i. i < length self.old.cycles) group.now }
        requires known { AreKnown group.now self.old.known self.old.cycles }
        ensures count { length self.new.cycles ≡ length self.old.cycles }
        ensures known { AreKnown group.now self.new.known self.new.cycles }
        ensures seen { (k : ℕ) → k < 64 → word * 64 + k < length group.now → bit lanes k ≡ true → is_some (first_of self.new (fault_in group.now (word * 64 + k))) ≡ true }
        ensures sees { (is_seen : ℕ → Bool) → ((k : ℕ) → k < 64 → word * 64 + k < length group.now → bit lanes k ≡ true → is_seen (fault_in group.now (word * 64 + k)) ≡ true)
            → SeesSome group.now is_seen cycle self.old.cycles self.new.cycles }
    {
        let fresh = lanes & !self.known[word as usize];
        see_lanes(group, word, cycle, fresh, &mut self.cycles);
        self.known[word as usize] |= fresh;
    }

    /// Shows the lanes of a group in which it is seen in a cycle, which is later than those that were shown before. Behind the group
    /// no lane counts.
    pub fn see<W: Word>(&mut self, group: &[u32], cycle: u32, lanes: W)
        requires few { length group.now ≤ W.lanes }
        requires group { All (λ i. i < length self.old.cycles) group.now }
        requires known { AreKnown group.now self.old.known self.old.cycles }
        ensures count { length self.new.cycles ≡ length self.old.cycles }
        ensures known { AreKnown group.now self.new.known self.new.cycles }
        ensures seen { (is_seen : ℕ → Bool) → ((k : ℕ) → k < length group.now → W.lane_bit lanes k ≡ is_seen (fault_in group.now k))
            → (k : ℕ) → k < length group.now → first_of self.new (fault_in group.now k) ≡ first_with (first_of self.old (fault_in group.now k)) (is_seen (fault_in group.now k)) cycle }
        ensures others { (i : ℕ) → IsNotIn group.now i → first_of self.new i ≡ first_of self.old i }
    {
        for word in 0..W::words() {
            self.see_word(group, word, cycle, lanes.part(word));
        }
    }

    /// The first cycle of a fault, where it has been seen. Of one behind the last nothing was.
    pub fn first(&self, fault: u32) -> Option<u32>
        ensures { result ≡ first_of self.now fault }
    {
        match self.cycles.get(fault as usize) {
            Some(cycle) => *cycle,
            None => None,
        }
    }
}
