// The words of the nets that no table drives, and of the latches.
ghost use Rattle.std.specs.Prelude.{◌≡◌, ◌<◌, ℕ, Bool, false, length, map, All};
ghost use Rattle.circuit.specs.Value.{Cycle, bit_at, driven, driver_at};
ghost use Rattle.circuit.specs.Trace.{flipped};
ghost use Rattle.circuit.specs.Order.{net_at};
ghost use Rattle.lane_words.specs.Forces.{AreForces};
ghost use Rattle.lane_kernel.specs.Ends.{AreInputs, IsRight};
ghost use Rattle.lane_words.specs.Gates.{AreLatches, latch_at, plane};
ghost use Rattle.lane_words.specs.Loads.{loaded_faults, somes};
ghost use Rattle.lane_kernel.specs.Marks.{has_transients};

use circuit::parts::{Fault, Latch, NetId};
use lane_words::flip::flip_all;
use lane_words::force::{Force, forced_at};
use lane_words::{Word, word_at};

fn input_word<W: Word>(inputs: &[bool], at: usize) -> W
    ensures { (k : ℕ) → k < W.lanes → W.lane_bit result k ≡ bit_at inputs.now at }
{
    match inputs.get(at) {
        Some(bit) => W::all(*bit),
        None => W::all(false),
    }
}

// Sets the word of a net that has this own word.
fn store_source<W: Word>(net: NetId, own: W, forces: &[Force<W>], words: &mut [W])
    requires net { net.0 < length words.old }
    requires forces { length forces.now ≡ length words.old }
    ensures right { (k : ℕ) (x : Cycle) → k < W.lanes → AreForces W.lane_bit k forces.now x
        → W.lane_bit own k ≡ driven x.state x.inputs (λ j. false) (driver_at x.circuit net.0)
        → IsRight x (plane W.lane_bit k words.new) net.0 }
    ensures keeps { (k m : ℕ) (x : Cycle) → k < W.lanes → AreForces W.lane_bit k forces.now x
        → W.lane_bit own k ≡ driven x.state x.inputs (λ j. false) (driver_at x.circuit net.0)
        → IsRight x (plane W.lane_bit k words.old) m → IsRight x (plane W.lane_bit k words.new) m }
{
    words[net.0 as usize] = forced_at(forces, net.0, own);
}

/// Sets the words of the inputs' nets.
pub fn take_inputs<W: Word>(nets: &[NetId], inputs: &[bool], forces: &[Force<W>], words: &mut [W])
    requires nets { All (λ net. net.0 < length words.old) nets.now }
    requires forces { length forces.now ≡ length words.old }
    ensures { (k : ℕ) (x : Cycle) → k < W.lanes → AreForces W.lane_bit k forces.now x → x.inputs ≡ inputs.now → AreInputs x.circuit nets.now
        → (j : ℕ) → j < length nets.now → IsRight x (plane W.lane_bit k words.new) (net_at nets.now j).0 }
{
    for (j, net) in nets.iter().enumerate() {
        store_source(*net, input_word(inputs, j), forces, words);
    }
}

/// Sets the words of the latches' nets.
pub fn take_latches<W: Word>(latches: &[Latch], raw: &[W], forces: &[Force<W>], words: &mut [W])
    requires nets { All (λ latch. latch.to.0 < length words.old) latches.now }
    requires forces { length forces.now ≡ length words.old }
    ensures right { (k : ℕ) (x : Cycle) → k < W.lanes → AreForces W.lane_bit k forces.now x → x.state ≡ plane W.lane_bit k raw.now → AreLatches x.circuit latches.now
        → (j : ℕ) → j < length latches.now → IsRight x (plane W.lane_bit k words.new) (latch_at latches.now j).to.0 }
    ensures keeps { (k : ℕ) (x : Cycle) → k < W.lanes → AreForces W.lane_bit k forces.now x → x.state ≡ plane W.lane_bit k raw.now → AreLatches x.circuit latches.now
        → (m : ℕ) → IsRight x (plane W.lane_bit k words.old) m → IsRight x (plane W.lane_bit k words.new) m }
{
    for (j, latch) in latches.iter().enumerate() {
        store_source(latch.to, word_at(raw, j), forces, words);
    }
}

/// What the latches take at the end of a cycle.
pub fn take_next<W: Word>(latches: &[Latch], words: &[W], raw: &mut [W])
    requires { length raw.old ≡ length latches.now }
    ensures { (k : ℕ) → k < W.lanes → plane W.lane_bit k raw.new ≡ map (λ latch. bit_at (plane W.lane_bit k words.now) latch.from.0) latches.now }
{
    for (j, latch) in latches.iter().enumerate() {
        raw[j] = word_at(words, latch.from.0 as usize);
    }
}

/// What the latches hold at the start.
pub fn take_first<W: Word>(starts: &[bool], raw: &mut [W])
    requires { length raw.old ≡ length starts.now }
    ensures { (k : ℕ) → k < W.lanes → plane W.lane_bit k raw.new ≡ starts.now }
{
    for (j, start) in starts.iter().enumerate() {
        raw[j] = W::all(*start);
    }
}

/// Inverts the latches that faults flip in this cycle.
pub fn flip<W: Word>(loads: &[[Option<Fault>; 2]], transient: bool, cycle: u32, raw: &mut [W])
    requires lanes { length loads.now ≡ W.lanes }
    requires transient { transient ≡ has_transients loads.now }
    ensures { (k : ℕ) → k < W.lanes → plane W.lane_bit k raw.new ≡ flipped (loaded_faults loads.now k) cycle (plane W.lane_bit k raw.old) }
{
    if transient {
        flip_all(loads, cycle, raw);
    }
}
