// The latches that faults flip, lane by lane.
ghost use Rattle.std.specs.Prelude.{◌≡◌, ◌≢◌, ◌==◌, ◌<◌, ◌∷◌, ℕ, length};
ghost use Rattle.std.specs.List.{list_any};
ghost use Rattle.circuit.specs.Effects.{has_flip, inverted};
ghost use Rattle.circuit.specs.Trace.{flipped};
ghost use Rattle.circuit.specs.Value.{bit_at};
ghost use Rattle.lane_words.specs.Gates.{plane};
ghost use Rattle.lane_words.specs.Loads.{loaded_faults, is_flip_in, somes};

use crate::word::{Word, word_at};
use circuit::parts::Fault;

/// Whether one of the faults of a lane flips a latch in this cycle.
pub fn is_flipping(faults: &[Option<Fault>], cycle: u32) -> bool
    ensures { result ≡ list_any (is_flip_in cycle) (somes faults.now) }
{
    for fault in faults {
        if let Some(Fault::Flip(_, c)) = fault {
            if *c == cycle {
                return true;
            }
        }
    }
    false
}

fn is_flipped(faults: &[Option<Fault>], latch: u32, cycle: u32) -> bool
    ensures { result ≡ has_flip (somes faults.now) latch cycle }
{
    for fault in faults {
        if let Some(Fault::Flip(l, c)) = fault {
            if *l == latch && *c == cycle {
                return true;
            }
        }
    }
    false
}

// Inverts the bit of a lane in the word of a latch.
fn turn<W: Word>(latch: u32, lane: u32, raw: &mut [W])
    requires { lane < W.lanes }
    ensures own { (l : ℕ) → l < length raw.old
        → bit_at (plane W.lane_bit lane raw.new) l ≡ inverted (latch == l) (bit_at (plane W.lane_bit lane raw.old) l) }
    ensures others { (k : ℕ) → k < W.lanes → k ≢ lane → plane W.lane_bit k raw.new ≡ plane W.lane_bit k raw.old }
{
    let at = latch as usize;
    if at < raw.len() {
        let word = word_at(raw, at);
        raw[at] = word.put(lane, !word.get(lane));
    }
}

// Inverts the latch that a fault flips in this cycle, unless a later fault of the lane does.
fn flip_one<W: Word>(
    fault: Option<Fault>,
    rest: &[Option<Fault>],
    cycle: u32,
    lane: u32,
    raw: &mut [W],
)
    requires { lane < W.lanes }
    ensures own { (l : ℕ) → l < length raw.old
        → inverted (has_flip (somes rest.now) l cycle) (bit_at (plane W.lane_bit lane raw.new) l)
        ≡ inverted (has_flip (somes (fault ∷ rest.now)) l cycle) (bit_at (plane W.lane_bit lane raw.old) l) }
    ensures others { (k : ℕ) → k < W.lanes → k ≢ lane → plane W.lane_bit k raw.new ≡ plane W.lane_bit k raw.old }
{
    if let Some(Fault::Flip(latch, c)) = fault {
        if c == cycle && !is_flipped(rest, latch, cycle) {
            turn(latch, lane, raw);
        }
    }
}

/// Inverts the latches that the faults of one lane flip in this cycle.
pub fn flip_lane<W: Word>(faults: &[Option<Fault>], cycle: u32, lane: u32, raw: &mut [W])
    requires { lane < W.lanes }
    ensures own { (l : ℕ) → l < length raw.old
        → bit_at (plane W.lane_bit lane raw.new) l ≡ inverted (has_flip (somes faults.now) l cycle) (bit_at (plane W.lane_bit lane raw.old) l) }
    ensures others { (k : ℕ) → k < W.lanes → k ≢ lane → plane W.lane_bit k raw.new ≡ plane W.lane_bit k raw.old }
{
    for (i, fault) in faults.iter().enumerate() {
        flip_one(*fault, &faults[i + 1..], cycle, lane, raw);
    }
}

/// Inverts the latches that the faults of each lane flip in this cycle.
pub fn flip_all<W: Word>(loads: &[[Option<Fault>; 2]], cycle: u32, raw: &mut [W])
    requires { length loads.now ≡ W.lanes }
    ensures { (k : ℕ) → k < W.lanes → plane W.lane_bit k raw.new ≡ flipped (loaded_faults loads.now k) cycle (plane W.lane_bit k raw.old) }
{
    for lane in 0..W::count() {
        flip_lane(&loads[lane as usize], cycle, lane, raw);
    }
}
