// What the nets differ in before any table is evaluated: the latches', and what forces leave.
ghost use Rattle.std.specs.Prelude.{◌≡◌, ◌≢◌, ◌<◌, ◌≤◌, ℕ, false, length, MatchOption};
ghost use Rattle.place_set.specs.Places.{is_chosen};
ghost use Rattle.circuit.specs.Value.{bit_at};
ghost use Rattle.lane_words.specs.Gates.{plane};
ghost use Rattle.lane_words.specs.declared.force.Force.{Force as ForceValue};
ghost use Rattle.differential_kernel.specs.Cycle.{IsGoldenCycle, ShowLatches};
ghost use Rattle.differential_kernel.specs.Differences.{DifferOnlyIn, IsEmptySet, IsSame};
ghost use Rattle.differential_kernel.specs.Forced.{forced_in};
ghost use Rattle.differential_kernel.specs.Forces.{ChangeOnly};
ghost use Rattle.differential_kernel.specs.Noted.{AreNoted, StayNoted};
ghost use Rattle.differential_kernel.specs.Parts.{AreForcesOf, AreLatchesOf, AreNetsOf};

use crate::difference::{forced_difference, store, value_word};
use crate::force::Forces;
use crate::golden_cycle::GoldenCycle;
use crate::latches::LatchDifferences;
use crate::nets::NetDifferences;
use circuit::parts::NetId;
use lane_words::{Word, word_at};
use place_set::PlaceSet;

/// Takes away all that differs, where it is in the set.
pub fn clear<W: Word>(set: &mut PlaceSet, words: &mut [W])
    requires { DifferOnlyIn W.lanes W.lane_bit set.old words.old }
    ensures bound { set.new.bound ≡ set.old.bound }
    ensures none { IsEmptySet set.new }
    ensures same { (n : ℕ) → IsSame W.lanes W.lane_bit words.new n }
{
    let mut from = 0;
    'places: while let Some(place) = set.next_from(from) {
        words[place] = W::all(false);
        from = place + 1;
    }
    set.clear();
}

/// The net of each latch that differs differs in what the latch held, and the latch then holds nothing.
pub fn take_live<W: Word>(
    cycle: &GoldenCycle<'_>,
    latches: &mut LatchDifferences<W>,
    nets: &mut NetDifferences<W>,
)
    requires golden { IsGoldenCycle cycle.now }
    requires latches { AreLatchesOf W.lanes W.lane_bit cycle.now.netlist.now latches.old }
    requires nets { AreNetsOf W.lanes W.lane_bit cycle.now.fanout.now nets.old }
    requires none { IsEmptySet nets.old.touched }
    ensures latches { AreLatchesOf W.lanes W.lane_bit cycle.now.netlist.now latches.new }
    ensures none { IsEmptySet latches.new.live }
    ensures noted { AreNoted W.lanes W.lane_bit cycle.now.fanout.now 0 nets.new }
    ensures shown { ShowLatches W.lanes W.lane_bit cycle.now.netlist.now latches.old.raw.items nets.new.words.items }
{
    let ends = cycle.netlist.latches();
    let mut from = 0;
    'latches: while let Some(l) = latches.live.next_from(from) {
        let word = word_at(&latches.raw, l);
        store(ends[l].to, word, cycle.fanout, nets);
        latches.raw[l] = W::all(false);
        latches.live.remove(l);
        from = l + 1;
    }
}

// A net differs in what its force leaves of its value.
fn force_net<W: Word>(
    cycle: &GoldenCycle<'_>,
    net: u32,
    forces: &Forces<W>,
    nets: &mut NetDifferences<W>,
)
    requires net { net < length cycle.now.fanout.now.circuit.drivers }
    requires forces { AreForcesOf W.lanes W.lane_bit (length cycle.now.fanout.now.circuit.drivers) forces.now }
    requires nets { AreNetsOf W.lanes W.lane_bit cycle.now.fanout.now nets.old }
    ensures noted { StayNoted W.lanes W.lane_bit cycle.now.fanout.now nets.old nets.new }
    ensures forced { (k : ℕ) (d : ForceValue W) → k < W.lanes
        → bit_at (plane W.lane_bit k nets.new.words.items) net ≡ forced_in W.lane_bit k cycle.now.row.now forces.now.by_net.items d nets.old.words.items net }
    ensures others { (k n : ℕ) → n ≢ net → bit_at (plane W.lane_bit k nets.new.words.items) n ≡ bit_at (plane W.lane_bit k nets.old.words.items) n }
{
    let own = value_word(cycle.row, &nets.words, net);
    let word = forced_difference(cycle.row, &forces.by_net, net, own);
    store(NetId(net), word, cycle.fanout, nets);
}

// The first net from one on whose golden value a force changes, or that is named and differs.
fn next_forced<W: Word>(
    row: &[u64],
    forces: &Forces<W>,
    touched: &PlaceSet,
    from: usize,
) -> Option<usize>
    requires forces { AreForcesOf W.lanes W.lane_bit touched.now.bound forces.now }
    ensures { MatchOption result
        ((n : ℕ) → from ≤ n → is_chosen row.now forces.now.zeros.words forces.now.ones.words forces.now.named.words touched.now.words n ≡ false)
        (λ q. (from ≤ q) × (q < touched.now.bound)
        × ((n : ℕ) → from ≤ n → n < q → is_chosen row.now forces.now.zeros.words forces.now.ones.words forces.now.named.words touched.now.words n ≡ false)) }
{
    PlaceSet::next_chosen(
        row,
        &forces.zeros,
        &forces.ones,
        &forces.named,
        touched,
        from,
    )
}

/// Each net differs in what its force leaves of its value. Answers of how many a force was read: of those whose golden value is changed by
/// one, and of those that are named and differ.
pub fn force_all<W: Word>(
    cycle: &GoldenCycle<'_>,
    forces: &Forces<W>,
    nets: &mut NetDifferences<W>,
) -> usize
    requires golden { IsGoldenCycle cycle.now }
    requires forces { AreForcesOf W.lanes W.lane_bit (length cycle.now.netlist.now.drivers) forces.now }
    requires changed { ChangeOnly W.lanes W.lane_bit forces.now.zeros forces.now.ones forces.now.by_net.items }
    requires noted { AreNoted W.lanes W.lane_bit cycle.now.fanout.now 0 nets.old }
    ensures noted { AreNoted W.lanes W.lane_bit cycle.now.fanout.now 0 nets.new }
    ensures forced { (k n : ℕ) (d : ForceValue W) → k < W.lanes → n < length cycle.now.netlist.now.drivers
        → bit_at (plane W.lane_bit k nets.new.words.items) n ≡ forced_in W.lane_bit k cycle.now.row.now forces.now.by_net.items d nets.old.words.items n }
    ensures few { result ≤ length cycle.now.netlist.now.drivers }
{
    let mut forced = 0;
    let mut from = 0;
    'nets: while let Some(n) = next_forced(cycle.row, forces, &nets.touched, from) {
        force_net(cycle, n as u32, forces, nets);
        forced += 1;
        from = n + 1;
    }
    forced
}
