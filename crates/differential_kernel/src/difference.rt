// One net's difference: read, forced and stored.
ghost use Rattle.std.specs.Prelude.{◌≡◌, ◌<◌, ℕ, true, false, All, Contains, IfOk, length, slice_index_or, slice_set};
ghost use Rattle.lane_words.specs.Bits.{either};
ghost use Rattle.place_set.specs.Places.{has, value_in};
ghost use Rattle.lane_words.specs.declared.force.Force.{Force as ForceValue};
ghost use Rattle.differential_kernel.specs.Differences.{Grows, IsSame, read_in};
ghost use Rattle.differential_kernel.specs.Forces.{AreIdleOff};
ghost use Rattle.lane_words.specs.Forces.{force_value};
ghost use Rattle.differential_kernel.specs.Noted.{StayNoted};
ghost use Rattle.differential_kernel.specs.Parts.{AreNetsOf};

use crate::force::Forces;
use crate::nets::NetDifferences;
use circuit::parts::NetId;
use fanout::Fanout;
use lane_words::force::{Force, forced_word};
use lane_words::{Word, word_at};
use place_set::{PlaceSet, value_in_words};
use room::{NoRoom, push, with_room};
use std::alloc::Global;

/// Words in which nothing differs.
pub fn same_words<W: Word>(alloc: Global, count: usize) -> Result<Vec<W>, NoRoom>
    ensures count { IfOk result (λ words. length words.items ≡ count) }
    ensures same { IfOk result (λ words. (n : ℕ) → IsSame W.lanes W.lane_bit words.items n) }
{
    let mut words = with_room(alloc, count)?;
    for n in 0..count {
        push(&mut words, W::all(false))?;
    }
    Ok(words)
}

/// A net's golden value, the same in each lane.
#[inline(always)]
pub fn golden_word<W: Word>(row: &[u64], net: u32) -> W
    ensures { (k : ℕ) → k < W.lanes → W.lane_bit result k ≡ value_in row.now net }
{
    W::all(value_in_words(row, net as usize))
}

/// A net's value in each lane.
pub fn value_word<W: Word>(row: &[u64], words: &[W], net: u32) -> W
    ensures { (k : ℕ) → k < W.lanes → W.lane_bit result k ≡ read_in W.lane_bit k row.now words.now net }
{
    let golden: W = golden_word(row, net);
    golden.xor(word_at(words, net as usize))
}

/// What a net differs in, where its own value is forced.
#[inline(always)]
pub fn forced_difference<W: Word>(row: &[u64], forces: &[Force<W>], net: u32, own: W) -> W
    requires { net < length forces.now }
    ensures { (k : ℕ) (d : ForceValue W) → k < W.lanes
        → W.lane_bit result k ≡ either (force_value W.lane_bit k (slice_index_or forces.now net d) (W.lane_bit own k)) (value_in row.now net) }
{
    forced_word(&forces[net as usize], own).xor(golden_word(row, net))
}

/// The same, where the forces on nets that aren't named leave each net as it is; of these no force is read.
#[inline(always)]
pub fn named_difference<W: Word>(row: &[u64], forces: &Forces<W>, net: u32, own: W) -> W
    requires net { net < length forces.now.by_net.items }
    requires idle { AreIdleOff W.lanes W.lane_bit forces.now.named forces.now.by_net.items }
    ensures { (k : ℕ) (d : ForceValue W) → k < W.lanes
        → W.lane_bit result k ≡ either (force_value W.lane_bit k (slice_index_or forces.now.by_net.items net d) (W.lane_bit own k)) (value_in row.now net) }
{
    if forces.named.has(net as usize) {
        forced_difference(row, &forces.by_net, net, own)
    } else {
        own.xor(golden_word(row, net))
    }
}

/// Sets what a net differs in.
pub fn set_word<W: Word>(net: NetId, word: W, words: &mut [W])
    requires { net.0 < length words.old }
    ensures { words.new ≡ slice_set words.old net.0 word }
{
    words[net.0 as usize] = word;
}

fn mark_all(places: &[u32], marks: &mut PlaceSet)
    requires { All (λ place. place < marks.old.bound) places.now }
    ensures bound { marks.new.bound ≡ marks.old.bound }
    ensures kept { Grows marks.old marks.new }
    ensures marked { (p : ℕ) → Contains places.now p → has marks.new p ≡ true }
{
    for place in places {
        marks.put(*place as usize);
    }
}

/// Sets what a net differs in, and notes it where it differs in some lane.
#[inline(always)]
pub fn store<W: Word>(net: NetId, word: W, fanout: &Fanout, nets: &mut NetDifferences<W>)
    requires net { net.0 < length fanout.now.circuit.drivers }
    requires nets { AreNetsOf W.lanes W.lane_bit fanout.now nets.old }
    ensures noted { StayNoted W.lanes W.lane_bit fanout.now nets.old nets.new }
    ensures word { nets.new.words.items ≡ slice_set nets.old.words.items net.0 word }
{
    nets.words[net.0 as usize] = word;
    if !word.is_none() {
        nets.touched.put(net.0 as usize);
        mark_all(fanout.readers(net), &mut nets.marks);
    }
}
