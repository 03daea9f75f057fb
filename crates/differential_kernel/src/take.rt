// Lanes that go on among others.
ghost use Rattle.std.specs.Prelude.{◌≡◌, ◌<◌, ◌≤◌, ◌^◌, [], ℕ, length};
ghost use Rattle.circuit.specs.Value.{bit_at};
ghost use Rattle.lane_words.specs.Gates.{plane};
ghost use Rattle.lane_words.specs.Loads.{loaded_faults};
ghost use Rattle.differential_kernel.specs.Differences.{AreSameOff, DifferOnlyIn};
ghost use Rattle.differential_kernel.specs.Picked.{AreBelow, lane_at, picked};
ghost use Rattle.differential_kernel.specs.Shown.{shown_of};

use crate::picks::Picks;
use crate::shown::ShownNets;
use crate::sources::clear;
use circuit::parts::Fault;
use lane_words::{Word, word_at};
use place_set::PlaceSet;

// The bits of the lanes that are picked, one behind the other.
fn gather<V: Word, W: Word>(word: V, picks: &Picks) -> W
    requires few { picks.now.count ≤ W.lanes }
    requires below { AreBelow V.lanes picks.now }
    ensures { (place : ℕ) → place < W.lanes → W.lane_bit result place ≡ picked picks.now (V.lane_bit word) place }
{
    let mut gathered = W::all(false);
    for place in 0..picks.count() {
        gathered = gathered.put(place, word.get(picks.lane(place)));
    }
    gathered
}

/// Takes over what differs in the lanes that are picked, where it is in the set; in the lanes behind them nothing differs.
pub fn take_words<V: Word, W: Word>(
    picks: &Picks,
    other_set: &PlaceSet,
    others: &[V],
    set: &mut PlaceSet,
    words: &mut [W],
)
    requires few { picks.now.count ≤ W.lanes }
    requires below { AreBelow V.lanes picks.now }
    requires bounds { other_set.now.bound ≡ set.old.bound }
    requires others { AreSameOff V.lanes V.lane_bit other_set.now others.now }
    requires own { DifferOnlyIn W.lanes W.lane_bit set.old words.old }
    ensures words { (place n : ℕ) → place < W.lanes
        → bit_at (plane W.lane_bit place words.new) n ≡ picked picks.now (λ lane. bit_at (plane V.lane_bit lane others.now) n) place }
    ensures own { DifferOnlyIn W.lanes W.lane_bit set.new words.new }
{
    clear(set, words);
    let mut from = 0;
    'places: while let Some(n) = other_set.next_from(from) {
        words[n] = gather(word_at(others, n), picks);
        set.put(n);
        from = n + 1;
    }
}

/// So what the nets of others are shown to differ in, by words.
pub fn take_nets<V: Word, W: Word>(
    picks: &Picks,
    others: &ShownNets<V>,
    set: &mut PlaceSet,
    words: &mut [W],
)
    requires few { picks.now.count ≤ W.lanes }
    requires below { AreBelow V.lanes picks.now }
    requires bounds { others.now.own.touched.bound ≡ set.old.bound }
    requires others { AreSameOff V.lanes V.lane_bit others.now.own.touched others.now.own.words.items }
    requires own { DifferOnlyIn W.lanes W.lane_bit set.old words.old }
    ensures words { (place n : ℕ) → place < W.lanes
        → bit_at (plane W.lane_bit place words.new) n ≡ picked picks.now (λ lane. shown_of V.lane_bit others.now lane n) place }
    ensures own { DifferOnlyIn W.lanes W.lane_bit set.new words.new }
{
    clear(set, words);
    let mut from = 0;
    'places: while let Some(n) = others.own.touched.next_from(from) {
        words[n] = gather(others.difference(n), picks);
        set.put(n);
        from = n + 1;
    }
}

/// Takes over the faults of the lanes that are picked; the lanes behind them have none.
pub fn take_faults(picks: &Picks, others: &[[Option<Fault>; 2]], faults: &mut [[Option<Fault>; 2]])
    requires below { AreBelow (length others.now) picks.now }
    requires few { length faults.old < 2 ^ 32 }
    ensures taken { (place : ℕ) → place < picks.now.count → place < length faults.old
        → loaded_faults faults.new place ≡ loaded_faults others.now (lane_at picks.now place) }
    ensures rest { (place : ℕ) → picks.now.count ≤ place → loaded_faults faults.new place ≡ [] }
{
    for place in 0..faults.len() {
        faults[place] = if place < picks.count() as usize {
            others[picks.lane(place as u32) as usize]
        } else {
            [None, None]
        };
    }
}
