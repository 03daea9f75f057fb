// Lanes that are dropped.
ghost use Rattle.std.specs.Prelude.{◌≡◌, ◌<◌, ◌&&◌, ℕ, true, false, [], not, length};
ghost use Rattle.circuit.specs.Value.{bit_at};
ghost use Rattle.lane_words.specs.Bits.{either};
ghost use Rattle.lane_words.specs.Gates.{plane};
ghost use Rattle.lane_words.specs.Loads.{loaded_faults, somes};
ghost use Rattle.fanout.specs.Readers.{Ordered};
ghost use Rattle.differential_kernel.specs.Differences.{DifferOnlyIn};
ghost use Rattle.differential_kernel.specs.Shown.{AreShownNetsOf, shown_of, told_in};

use crate::shown::ShownNets;
use circuit::parts::Fault;
use lane_words::Word;
use place_set::{PlaceSet, value_in_words};

// The faults of a lane, or none where it is dropped.
fn unless(out: bool, faults: [Option<Fault>; 2]) -> [Option<Fault>; 2]
    ensures dropped { out ≡ true → somes result ≡ [] }
    ensures others { out ≡ false → result ≡ faults }
{
    if out { [None, None] } else { faults }
}

/// Takes the faults away from the lanes whose bit is set.
pub fn unload<W: Word>(out: W, loads: &mut [[Option<Fault>; 2]])
    requires { length loads.old ≡ W.lanes }
    ensures dropped { (k : ℕ) → k < W.lanes → W.lane_bit out k ≡ true → loaded_faults loads.new k ≡ [] }
    ensures others { (k : ℕ) → k < W.lanes → W.lane_bit out k ≡ false → loaded_faults loads.new k ≡ loaded_faults loads.old k }
{
    for lane in 0..W::count() {
        let at = lane as usize;
        loads[at] = unless(out.get(lane), loads[at]);
    }
}

/// Takes what differs away from the lanes whose bit is set, where it is in the set.
pub fn keep_lanes<W: Word>(out: W, set: &PlaceSet, words: &mut [W])
    requires { DifferOnlyIn W.lanes W.lane_bit set.now words.old }
    ensures { (k n : ℕ) → k < W.lanes → bit_at (plane W.lane_bit k words.new) n ≡ (not (W.lane_bit out k) && bit_at (plane W.lane_bit k words.old) n) }
{
    let keep = out.xor(W::all(true));
    let mut from = 0;
    'places: while let Some(place) = set.next_from(from) {
        words[place] = words[place].and(keep);
        from = place + 1;
    }
}

// A value beside a golden one, where it differs in lanes that are kept; in the others it is the golden one.
fn kept_value<W: Word>(golden: bool, value: W, keep: W) -> W
    ensures { (k : ℕ) → k < W.lanes → W.lane_bit result k ≡ either golden (either golden (W.lane_bit value k) && W.lane_bit keep k) }
{
    let same = W::all(golden);
    same.xor(same.xor(value).and(keep))
}

// The same of nets that are told by their values: there the values become the golden ones.
fn keep_values<W: Word>(out: W, set: &PlaceSet, row: &[u64], values: &mut [W])
    requires { set.now.bound ≡ length values.old }
    ensures { (k n : ℕ) → k < W.lanes → told_in W.lane_bit k row.now set.now values.new n ≡ (not (W.lane_bit out k) && told_in W.lane_bit k row.now set.now values.old n) }
{
    let keep = out.xor(W::all(true));
    let mut from = 0;
    'places: while let Some(place) = set.next_from(from) {
        values[place] = kept_value(value_in_words(row, place), values[place], keep);
        from = place + 1;
    }
}

/// Takes what nets differ in away from the lanes whose bit is set.
pub fn keep_nets<W: Word>(out: W, nets: &mut ShownNets<W>)
    requires own { DifferOnlyIn W.lanes W.lane_bit nets.old.own.touched nets.old.own.words.items }
    requires values { nets.old.own.touched.bound ≡ length nets.old.values.items }
    ensures nets { (o : Ordered) → AreShownNetsOf W.lanes W.lane_bit o nets.old → AreShownNetsOf W.lanes W.lane_bit o nets.new }
    ensures shown { (k n : ℕ) → k < W.lanes → shown_of W.lane_bit nets.new k n ≡ (not (W.lane_bit out k) && shown_of W.lane_bit nets.old k n) }
{
    if nets.swept {
        keep_values(out, &nets.own.touched, &nets.row, &mut nets.values);
    } else {
        keep_lanes(out, &nets.own.touched, &mut nets.own.words);
    }
}
