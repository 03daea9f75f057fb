// The values that nets have in some cycles of the golden run.
ghost use Rattle.std.specs.Prelude.{◌≡◌, ◌<◌, ◌/◌, ◌||◌, ℕ, IfOk, false, true, length, not, slice_index_or};
ghost use Rattle.place_set.specs.Places.{value_in};
ghost use Rattle.testbench.specs.Seen.{HasRoom, is_seen};

use circuit::parts::NetId;
use place_set::value_in_words;
use room::{NoRoom, filled};
use std::alloc::Global;
use std::marker::Model;

const LANES: usize = 64;

/// Of each net whether it is 1, and whether it is 0, in some of the cycles that were looked at: two bits for each net.
#[derive(Drop)]
pub struct SeenValues {
    ones: Vec<u64>,
    zeros: Vec<u64>,
}

impl Model for SeenValues {
    ghost use Rattle.testbench.specs.Seen.{SeenValues as Seen};

    ghost Value = { Seen };

    ghost view = { λ s. record { ones = s.ones.items; zeros = s.zeros.items } };
}

// The word of a row; behind the end it is 0.
fn word_of(row: &[u64], at: usize) -> u64
    ensures { result ≡ slice_index_or row.now at 0 }
{
    match row.get(at) {
        Some(word) => *word,
        None => 0,
    }
}

// Adds the values of a cycle.
fn add_row(row: &[u64], ones: &mut [u64], zeros: &mut [u64])
    requires { length zeros.old ≡ length ones.old }
    ensures ones { (net : ℕ) → net / 64 < length ones.old → value_in ones.new net ≡ (value_in ones.old net || value_in row.now net) }
    ensures zeros { (net : ℕ) → net / 64 < length ones.old → value_in zeros.new net ≡ (value_in zeros.old net || not (value_in row.now net)) }
{
    for at in 0..ones.len() {
        let word = word_of(row, at);
        ones[at] |= word;
        zeros[at] |= !word;
    }
}

impl SeenValues {
    /// No cycle of so many nets has been looked at yet.
    pub fn new(alloc: Global, nets: usize) -> Result<Self, NoRoom>
        ensures room { IfOk result (HasRoom nets) }
        ensures nothing { IfOk result (λ seen. (net : ℕ) → (value_in seen.ones net ≡ false) × (value_in seen.zeros net ≡ false)) }
    {
        let words = nets.div_ceil(LANES);
        Ok(SeenValues {
            ones: filled(alloc, 0, words)?,
            zeros: filled(alloc, 0, words)?,
        })
    }

    /// Looks at a cycle, of which a row has the values of all nets, a bit each.
    pub fn see(&mut self, row: &[u64])
        requires { length self.old.zeros ≡ length self.old.ones }
        ensures room { (nets : ℕ) → HasRoom nets self.old → HasRoom nets self.new }
        ensures ones { (net : ℕ) → net / 64 < length self.old.ones → value_in self.new.ones net ≡ (value_in self.old.ones net || value_in row.now net) }
        ensures zeros { (net : ℕ) → net / 64 < length self.old.ones → value_in self.new.zeros net ≡ (value_in self.old.zeros net || not (value_in row.now net)) }
    {
        add_row(row, self.ones.as_mut_slice(), self.zeros.as_mut_slice());
    }

    /// Whether a net has this value in some cycle that was looked at.
    pub fn has(&self, net: NetId, value: bool) -> bool
        ensures { result ≡ is_seen self.now net.0 value }
    {
        if value {
            value_in_words(&self.ones, net.0 as usize)
        } else {
            value_in_words(&self.zeros, net.0 as usize)
        }
    }
}
