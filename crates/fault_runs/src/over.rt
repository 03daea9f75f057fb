// Faults of which nothing more comes in a run.
ghost use Rattle.std.specs.Prelude.{◌≡◌, ◌≤◌, ℕ, false, true};
ghost use Rattle.golden_difference.specs.Beside.{DoNothing};
ghost use Rattle.lane_words.specs.Loads.{somes};
ghost use Rattle.place_set.specs.Places.{has};
ghost use Rattle.fault_runs.specs.Over.{AreOver, IsIdleFrom};

use circuit::parts::Fault;
use place_set::PlaceSet;

// Whether a fault acts in no cycle from this one on, if there is one.
fn is_idle_from(fault: Option<Fault>, cycle: u32) -> bool
    ensures { result ≡ true → IsIdleFrom cycle fault }
{
    match fault {
        Some(Fault::Stuck(_, _)) => false,
        Some(Fault::Flip(_, own) | Fault::Pulse(_, own)) => own < cycle,
        None => true,
    }
}

// Whether none of these faults does anything from a cycle on.
fn are_idle_from(faults: &[Option<Fault>], cycle: u32) -> bool
    ensures { (u : ℕ) → result ≡ true → cycle ≤ u → DoNothing (somes faults.now) u }
{
    for fault in faults {
        if !is_idle_from(*fault, cycle) {
            return false;
        }
    }
    true
}

/// Whether a set has no place.
pub fn is_empty(set: &PlaceSet) -> bool
    ensures { result ≡ true → (p : ℕ) → has set.now p ≡ false }
{
    match set.next_from(0) {
        Some(_) => false,
        None => true,
    }
}

/// Whether nothing more comes of faults that stand before a cycle with this state: no latch differs, and they don't act any more.
pub fn are_over(faults: &[Option<Fault>], cycle: u32, state: &PlaceSet) -> bool
    ensures { result ≡ true → AreOver (somes faults.now) cycle state.now }
{
    are_idle_from(faults, cycle) && is_empty(state)
}
