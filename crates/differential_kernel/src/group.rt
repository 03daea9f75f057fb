// The state of one lane, put into others and taken from them: the latches that differ in it, as a set.
ghost use Rattle.std.specs.Prelude.{◌≡◌, ◌≢◌, ◌<◌, ◌==◌, ◌&&◌, ◌||◌, ℕ, length};
ghost use Rattle.circuit.specs.Value.{bit_at};
ghost use Rattle.lane_words.specs.Gates.{plane};
ghost use Rattle.place_set.specs.Places.{has};
ghost use Rattle.differential_kernel.specs.Differences.{DifferOnlyIn};

use crate::latches::LatchDifferences;
use lane_words::{Word, word_at};
use place_set::PlaceSet;

/// Each latch of a set differs in a lane, as those do that differed before.
pub fn put_state<W: Word>(lane: u32, state: &PlaceSet, latches: &mut LatchDifferences<W>)
    requires lane { lane < W.lanes }
    requires bound { state.now.bound ≡ length latches.old.raw.items }
    requires live { DifferOnlyIn W.lanes W.lane_bit latches.old.live latches.old.raw.items }
    ensures own { (l : ℕ) → bit_at (plane W.lane_bit lane latches.new.raw.items) l
        ≡ (has state.now l || bit_at (plane W.lane_bit lane latches.old.raw.items) l) }
    ensures others { (k l : ℕ) → k < W.lanes → k ≢ lane
        → bit_at (plane W.lane_bit k latches.new.raw.items) l ≡ bit_at (plane W.lane_bit k latches.old.raw.items) l }
    ensures raw { length latches.new.raw.items ≡ length latches.old.raw.items }
    ensures live { DifferOnlyIn W.lanes W.lane_bit latches.new.live latches.new.raw.items }
{
    let mut from = 0;
    'latches: while let Some(l) = state.next_from(from) {
        latches.raw[l] = word_at(&latches.raw, l).put(lane, true);
        latches.live.put(l);
        from = l + 1;
    }
}

// Puts a place into a set where it is wanted.
fn put_where(wanted: bool, place: usize, set: &mut PlaceSet)
    requires { place < set.old.bound }
    ensures bound { set.new.bound ≡ set.old.bound }
    ensures has { (p : ℕ) → has set.new p ≡ ((p == place && wanted) || has set.old p) }
{
    if wanted {
        set.put(place);
    }
}

/// Makes a set that of the latches that differ in a lane.
pub fn keep_state<W: Word>(lane: u32, latches: &LatchDifferences<W>, state: &mut PlaceSet)
    requires lane { lane < W.lanes }
    requires bound { state.old.bound ≡ latches.now.live.bound }
    requires live { DifferOnlyIn W.lanes W.lane_bit latches.now.live latches.now.raw.items }
    ensures bound { state.new.bound ≡ state.old.bound }
    ensures state { (l : ℕ) → has state.new l ≡ bit_at (plane W.lane_bit lane latches.now.raw.items) l }
{
    state.clear();
    let mut from = 0;
    'latches: while let Some(l) = latches.live.next_from(from) {
        let differs = word_at(&latches.raw, l).get(lane);
        put_where(differs, l, state);
        from = l + 1;
    }
}
