// What the nets are shown to differ in, by their words or by their values.
ghost use Rattle.std.specs.Prelude.{◌≡◌, ◌<◌, ◌+◌, ◌/◌, ◌^◌, ℕ, false, IfOk, length, slice_index_or};
ghost use Rattle.place_set.specs.Places.{value_in};
ghost use Rattle.differential_kernel.specs.Differences.{AreSameOff, DifferOnlyIn};
ghost use Rattle.differential_kernel.specs.Shown.{shown_of};

use crate::difference::same_words;
use crate::nets::NetDifferences;
use lane_words::{Word, word_at};
use place_set::value_in_words;
use room::{NoRoom, filled};
use std::alloc::Global;

/// What the nets differ in after a cycle. Where it was run by a cone, only `values` has what it left: the value of each net of the
/// cone, beside the golden values of that cycle in `row`; the cone's nets are those that are touched, and their words tell nothing.
#[derive(Drop)]
pub struct ShownNets<W> {
    pub own: NetDifferences<W>,
    pub values: Vec<W>,
    pub row: Vec<u64>,
    pub swept: bool,
}

impl<W: Word> ShownNets<W> {
    /// So many nets that don't differ, read at so many places.
    pub fn new(alloc: Global, nets: usize, places: usize) -> Result<Self, NoRoom>
        requires nets { nets < 2 ^ 32 }
        requires places { places < 2 ^ 32 }
        ensures words { IfOk result (λ s. length s.own.words.items ≡ nets) }
        ensures touched { IfOk result (λ s. DifferOnlyIn W.lanes W.lane_bit s.own.touched s.own.words.items) }
        ensures marks { IfOk result (λ s. s.own.marks.bound ≡ places) }
        ensures values { IfOk result (λ s. length s.values.items ≡ nets) }
        ensures row { IfOk result (λ s. length s.row.items ≡ nets / 64 + 1) }
    {
        let own = NetDifferences::new(alloc, nets, places)?;
        let values = same_words(alloc, nets)?;
        let row = filled(alloc, 0, nets / 64 + 1)?;
        Ok(ShownNets {
            own,
            values,
            row,
            swept: false,
        })
    }

    /// What a net differs in.
    pub fn difference(&self, net: usize) -> W
        requires { AreSameOff W.lanes W.lane_bit self.now.own.touched self.now.own.words.items }
        ensures { (k : ℕ) → k < W.lanes → W.lane_bit result k ≡ shown_of W.lane_bit self.now k net }
    {
        if !self.own.touched.has(net) {
            W::all(false)
        } else if self.swept {
            W::all(value_in_words(&self.row, net)).xor(word_at(&self.values, net))
        } else {
            word_at(&self.own.words, net)
        }
    }
}

// A word of a row, and 0 behind its end.
fn row_word(row: &[u64], at: usize) -> u64
    ensures { result ≡ slice_index_or row.now at 0 }
{
    match row.get(at) {
        Some(word) => *word,
        None => 0,
    }
}

/// Keeps golden values, as many as there is room for.
pub fn keep_row(row: &[u64], kept: &mut [u64])
    ensures { (n : ℕ) → n / 64 < length kept.old → value_in kept.new n ≡ value_in row.now n }
{
    for at in 0..kept.len() {
        kept[at] = row_word(row, at);
    }
}
