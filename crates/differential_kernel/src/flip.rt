// The latches that faults flip. What a latch differs in is inverted where its bit is.
ghost use Rattle.std.specs.Prelude.{◌≡◌, ◌≢◌, ◌<◌, ℕ, length};
ghost use Rattle.circuit.specs.Effects.{has_flip, inverted};
ghost use Rattle.circuit.specs.Value.{bit_at};
ghost use Rattle.circuit.specs.Trace.{flipped};
ghost use Rattle.lane_words.specs.Gates.{plane};
ghost use Rattle.lane_words.specs.Loads.{loaded_faults, somes};
ghost use Rattle.differential_kernel.specs.Differences.{AreSameOff, DifferOnlyIn};
ghost use Rattle.differential_kernel.specs.Forces.{has_acts};

use crate::latches::LatchDifferences;
use crate::note::note_flips;
use circuit::parts::Fault;
use lane_words::Word;
use lane_words::flip::{flip_lane, is_flipping};

// Inverts the latches that the faults of one lane flip in this cycle, which join those that may differ.
fn invert_lane<W: Word>(
    faults: &[Option<Fault>],
    cycle: u32,
    lane: u32,
    latches: &mut LatchDifferences<W>,
)
    requires lane { lane < W.lanes }
    requires bound { latches.old.live.bound ≡ length latches.old.raw.items }
    ensures own { (l : ℕ) → l < length latches.old.raw.items
        → bit_at (plane W.lane_bit lane latches.new.raw.items) l ≡ inverted (has_flip (somes faults.now) l cycle) (bit_at (plane W.lane_bit lane latches.old.raw.items) l) }
    ensures others { (k : ℕ) → k < W.lanes → k ≢ lane → plane W.lane_bit k latches.new.raw.items ≡ plane W.lane_bit k latches.old.raw.items }
    ensures raw { length latches.new.raw.items ≡ length latches.old.raw.items }
    ensures live { latches.new.live.bound ≡ latches.old.live.bound }
    ensures held { AreSameOff W.lanes W.lane_bit latches.old.live latches.old.raw.items → AreSameOff W.lanes W.lane_bit latches.new.live latches.new.raw.items }
{
    if is_flipping(faults, cycle) {
        flip_lane(faults, cycle, lane, &mut latches.raw);
        note_flips(faults, cycle, &mut latches.live);
    }
}

fn flip_all<W: Word>(loads: &[[Option<Fault>; 2]], cycle: u32, latches: &mut LatchDifferences<W>)
    requires lanes { length loads.now ≡ W.lanes }
    requires bound { latches.old.live.bound ≡ length latches.old.raw.items }
    ensures flipped { (k : ℕ) → k < W.lanes → plane W.lane_bit k latches.new.raw.items ≡ flipped (loaded_faults loads.now k) cycle (plane W.lane_bit k latches.old.raw.items) }
    ensures raw { length latches.new.raw.items ≡ length latches.old.raw.items }
    ensures live { latches.new.live.bound ≡ latches.old.live.bound }
    ensures held { AreSameOff W.lanes W.lane_bit latches.old.live latches.old.raw.items → AreSameOff W.lanes W.lane_bit latches.new.live latches.new.raw.items }
{
    for lane in 0..W::count() {
        invert_lane(&loads[lane as usize], cycle, lane, latches);
    }
}

/// Inverts the latches that faults flip in this cycle. `acting` tells whether a flip or a pulse acts in it.
pub fn flip<W: Word>(
    loads: &[[Option<Fault>; 2]],
    acting: bool,
    cycle: u32,
    latches: &mut LatchDifferences<W>,
)
    requires lanes { length loads.now ≡ W.lanes }
    requires acting { acting ≡ has_acts loads.now cycle }
    requires live { DifferOnlyIn W.lanes W.lane_bit latches.old.live latches.old.raw.items }
    ensures flipped { (k : ℕ) → k < W.lanes
        → plane W.lane_bit k latches.new.raw.items ≡ flipped (loaded_faults loads.now k) cycle (plane W.lane_bit k latches.old.raw.items) }
    ensures raw { length latches.new.raw.items ≡ length latches.old.raw.items }
    ensures live { DifferOnlyIn W.lanes W.lane_bit latches.new.live latches.new.raw.items }
{
    if acting {
        flip_all(loads, cycle, latches);
    }
}
