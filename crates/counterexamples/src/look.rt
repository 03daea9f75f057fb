// What a cycle shows in all lanes. Lane 0 has no fault.
ghost use Rattle.std.specs.Prelude.{◌≡◌, ◌≤◌, ◌<◌, ◌+◌, ◌||◌, [], ℕ, Bool, List, All, Some, length, not, true, false};
ghost use Rattle.circuit.specs.Sound.{IsNet};
ghost use Rattle.circuit.specs.Trace.{trace};
ghost use Rattle.coverage_claim.specs.Stretch.{held_at as value_at};
ghost use Rattle.fm_base.specs.Lists.{same_bit};
ghost use Rattle.fm_base.specs.Planes.{bit};
ghost use Rattle.lane_words.specs.Bank.{AreAfter};
ghost use Rattle.lane_words.specs.Loads.{loaded_faults};
ghost use Rattle.counterexamples.specs.Contradicted.{some_differs, some_raised};
ghost use Rattle.counterexamples.specs.Runs.{AreHeldIn, Looks};

use crate::chance::held_at;
use circuit::parts::NetId;
use claim_search::Posed;
use coverage_claim::Held;
use lane_kernel::Lanes;
use lane_words::Word;

/// What a cycle of a run shows, with a bit for each lane.
#[derive(Clone, Copy)]
pub(crate) struct Seen {
    /// Some observation net differs from lane 0 in it.
    pub(crate) differs: u64,
    /// Some alarm net is 1 in it, or was in a cycle before, from the claim's first cycle on.
    pub(crate) raised: u64,
}

/// Nothing in any lane.
pub(crate) const NOTHING: Seen = Seen {
    differs: 0,
    raised: 0,
};

// The lanes whose bit isn't the golden one.
fn other_lanes(values: u64, golden: bool) -> u64
    ensures { (k : ℕ) → k < 64 → bit result k ≡ not (same_bit (bit values k) golden) }
{
    if golden { !values } else { values }
}

/// The lanes of either word.
pub(crate) fn either_lanes(a: u64, b: u64) -> u64
    ensures { (k : ℕ) → bit result k ≡ (bit a k || bit b k) }
{
    a | b
}

// The lanes in which some of these nets differs from lane 0.
fn differing(lanes: &Lanes, nets: &[NetId]) -> u64
    requires nets { All (IsNet lanes.now.circuit) nets.now }
    requires golden { loaded_faults lanes.now.loads 0 ≡ [] }
    ensures { (vectors : List (List Bool)) (t k : ℕ) → AreAfter 64 bit vectors lanes.now → t + 1 ≡ length vectors → k < 64
        → bit result k ≡ some_differs nets.now (trace lanes.now.circuit [] vectors t) (trace lanes.now.circuit (loaded_faults lanes.now.loads k) vectors t) }
{
    let mut differ = 0;
    for net in nets {
        let values = lanes.net(*net);
        let own = other_lanes(values, values.get(0));
        differ = either_lanes(differ, own);
    }
    differ
}

// The lanes in which some of these nets is 1.
fn raising(lanes: &Lanes, nets: &[NetId]) -> u64
    requires nets { All (IsNet lanes.now.circuit) nets.now }
    ensures { (vectors : List (List Bool)) (t k : ℕ) → AreAfter 64 bit vectors lanes.now → t + 1 ≡ length vectors → k < 64
        → bit result k ≡ some_raised nets.now (trace lanes.now.circuit (loaded_faults lanes.now.loads k) vectors t) }
{
    let mut raised = 0;
    for net in nets {
        let values = lanes.net(*net);
        raised = either_lanes(raised, values);
    }
    raised
}

/// What the last cycle shows, where so many lanes have raised an alarm before it.
pub(crate) fn look(lanes: &Lanes, posed: &Posed<'_>, cycle: u32, raised: u64) -> Seen
    requires observed { All (IsNet lanes.now.circuit) posed.now.observed.now }
    requires alarms { All (IsNet lanes.now.circuit) posed.now.alarms.now }
    requires golden { loaded_faults lanes.now.loads 0 ≡ [] }
    ensures { Looks lanes.now.circuit posed.now (loaded_faults lanes.now.loads) lanes.now cycle raised result }
{
    let differs = differing(lanes, posed.observed);
    if cycle < posed.from {
        return Seen { differs, raised };
    }
    let alarms = raising(lanes, posed.alarms);
    Seen {
        differs,
        raised: either_lanes(raised, alarms),
    }
}

// Whether an input has in lane 0 the value that it is held at in the last cycle, if there is one.
fn is_held(lanes: &Lanes, held: Held, cycle: u32) -> bool
    requires net { IsNet lanes.now.circuit held.net }
    requires golden { loaded_faults lanes.now.loads 0 ≡ [] }
    ensures { result ≡ true → (vectors : List (List Bool)) → AreAfter 64 bit vectors lanes.now → cycle + 1 ≡ length vectors
        → (value : Bool) → value_at held cycle ≡ Some value → trace lanes.now.circuit [] vectors cycle held.net.0 ≡ value }
{
    match held_at(held, cycle) {
        Some(value) => lanes.net(held.net).get(0) == value,
        None => true,
    }
}

/// Whether each of these inputs has.
pub(crate) fn are_held(lanes: &Lanes, held: &[Held], cycle: u32) -> bool
    requires nets { All (λ h. IsNet lanes.now.circuit h.net) held.now }
    requires golden { loaded_faults lanes.now.loads 0 ≡ [] }
    ensures { result ≡ true → AreHeldIn lanes.now.circuit held.now lanes.now cycle }
{
    for input in held {
        if !is_held(lanes, *input, cycle) {
            return false;
        }
    }
    true
}
