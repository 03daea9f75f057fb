// What the points of one cycle show in 64 lanes.
ghost use Rattle.std.specs.Prelude.{◌≡◌, ◌<◌, ◌+◌, ◌&&◌, ◌||◌, ℕ, All, not, take};
ghost use Rattle.std.specs.List.{list_any};
ghost use Rattle.circuit.specs.Sound.{IsNet};
ghost use Rattle.workload.specs.declared.run.Run.{Run};
ghost use Rattle.workload.specs.Runs.{cycles_of};
ghost use Rattle.campaign_plan.specs.Danger.{golden as golden_value, with_faults};
ghost use Rattle.fm_base.specs.Lists.{same_bit};
ghost use Rattle.fm_base.specs.Planes.{bit};

use crate::alarms::{Alarms, QUIET};
use crate::circuits::Circuits;
use circuit::parts::NetId;

// The lanes whose bit isn't the golden one.
fn other_lanes(values: u64, golden: bool) -> u64
    ensures { (k : ℕ) → k < 64 → bit result k ≡ not (same_bit (bit values k) golden) }
{
    if golden { !values } else { values }
}

// The lanes whose bit is 1 where the golden one is 0.
fn raised_lanes(values: u64, golden: bool) -> u64
    ensures { (k : ℕ) → k < 64 → bit result k ≡ (bit values k && not golden) }
{
    if golden { 0 } else { values }
}

// The lanes whose bit is 0 where the golden one is 1.
fn silenced_lanes(values: u64, golden: bool) -> u64
    ensures { (k : ℕ) → k < 64 → bit result k ≡ (not (bit values k) && golden) }
{
    if golden { !values } else { 0 }
}

/// The lanes of either plane.
pub(crate) fn either_lanes(a: u64, b: u64) -> u64
    ensures { (k : ℕ) → bit result k ≡ (bit a k || bit b k) }
{
    a | b
}

// The value of a net in each lane of a word, in the last cycle of a run so far.
fn values_of<B: Circuits>(circuits: &B, word: usize, net: NetId) -> u64
    requires word { word < B.words }
    requires sound { B.IsSound circuits.now }
    ensures { (run : Run) (t k : ℕ) → t < cycles_of run → B.IsAfter circuits.now (take (t + 1) run.vectors) → k < 64 → IsNet (B.loaded circuits.now).circuit net
        → bit result k ≡ with_faults (B.loaded circuits.now).circuit ((B.loaded circuits.now).faults word k) run t net }
{
    circuits.values(net, word)
}

// Its golden value.
fn golden_of<B: Circuits>(circuits: &B, net: NetId) -> bool
    ensures { (run : Run) (t : ℕ) → t < cycles_of run → B.IsAfter circuits.now (take (t + 1) run.vectors) → IsNet (B.loaded circuits.now).circuit net
        → result ≡ golden_value (B.loaded circuits.now).circuit run t net }
{
    circuits.golden(net)
}

/// The lanes in which some of these nets differs from the golden run in the last cycle.
pub(crate) fn differing<B: Circuits>(circuits: &B, word: usize, nets: &[NetId]) -> u64
    requires word { word < B.words }
    requires sound { B.IsSound circuits.now }
    requires nets { All (IsNet (B.loaded circuits.now).circuit) nets.now }
    ensures { (run : Run) (t k : ℕ) → t < cycles_of run → B.IsAfter circuits.now (take (t + 1) run.vectors) → k < 64
        → bit result k ≡ list_any (λ net. not (same_bit (with_faults (B.loaded circuits.now).circuit ((B.loaded circuits.now).faults word k) run t net)
        (golden_value (B.loaded circuits.now).circuit run t net))) nets.now }
{
    let mut differ = 0;
    for net in nets {
        let own = other_lanes(values_of(circuits, word, *net), golden_of(circuits, *net));
        differ = either_lanes(differ, own);
    }
    differ
}

// The alarms so far, and those of one more net.
fn louder(before: Alarms, values: u64, golden: bool) -> Alarms
    ensures raised { (k : ℕ) → k < 64 → bit result.raised k ≡ (bit before.raised k || (bit values k && not golden)) }
    ensures silenced { (k : ℕ) → k < 64 → bit result.silenced k ≡ (bit before.silenced k || (not (bit values k) && golden)) }
{
    Alarms {
        raised: either_lanes(before.raised, raised_lanes(values, golden)),
        silenced: either_lanes(before.silenced, silenced_lanes(values, golden)),
    }
}

/// The lanes in which some of these alarms is 1 in the last cycle, and 0 in the golden run; and those in which some is 0, and 1
/// in the golden run.
pub(crate) fn alarms_in<B: Circuits>(circuits: &B, word: usize, nets: &[NetId]) -> Alarms
    requires word { word < B.words }
    requires sound { B.IsSound circuits.now }
    requires nets { All (IsNet (B.loaded circuits.now).circuit) nets.now }
    ensures raised { (run : Run) (t k : ℕ) → t < cycles_of run → B.IsAfter circuits.now (take (t + 1) run.vectors) → k < 64
        → bit result.raised k ≡ list_any (λ net. with_faults (B.loaded circuits.now).circuit ((B.loaded circuits.now).faults word k) run t net
        && not (golden_value (B.loaded circuits.now).circuit run t net)) nets.now }
    ensures silenced { (run : Run) (t k : ℕ) → t < cycles_of run → B.IsAfter circuits.now (take (t + 1) run.vectors) → k < 64
        → bit result.silenced k ≡ list_any (λ net. not (with_faults (B.loaded circuits.now).circuit ((B.loaded circuits.now).faults word k) run t net)
        && golden_value (B.loaded circuits.now).circuit run t net) nets.now }
{
    let mut found = QUIET;
    for net in nets {
        found = louder(
            found,
            values_of(circuits, word, *net),
            golden_of(circuits, *net),
        );
    }
    found
}
