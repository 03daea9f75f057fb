// The nets that faults name, the cycles in which they act, and the forces.
ghost use Rattle.std.specs.Prelude.{◌≡◌, ◌<◌, ◌≤◌, ◌||◌, ◌==◌, ◌^◌, ℕ, Bool, true, false, length, if◌then◌else◌};
ghost use Rattle.std.specs.List.{list_any};
ghost use Rattle.circuit.specs.Effects.{has_flip, is_permanent};
ghost use Rattle.lane_words.specs.Loads.{has_pulses, some_names, names, somes};
ghost use Rattle.place_set.specs.Places.{has};
ghost use Rattle.differential_kernel.specs.Differences.{Grows, IsEmptySet};
ghost use Rattle.differential_kernel.specs.Forces.{AreActs, AreIdleOff, AreNamed, ChangeOnly, LeaveOff, acts, has_acts, has_stuck};
ghost use Rattle.differential_kernel.specs.Noted.{AreFaultsNoted};
ghost use Rattle.differential_kernel.specs.Parts.{AreForcesOf};
ghost use Rattle.lane_words.specs.Forces.{AreAllIdle, AreArmed, AreIdle, AreSteady, force_value};

use crate::force::Forces;
use circuit::parts::Fault;
use lane_words::Word;
use lane_words::arm::arm_for;
use lane_words::force::{Force, forced_word, idle};
use place_set::PlaceSet;

/// Leaves all nets as they are, where only those that are named were changed, and names none.
pub fn forget_all<W: Word>(forces: &mut Forces<W>)
    requires bound { forces.old.named.bound ≡ length forces.old.by_net.items }
    requires idle { AreIdleOff W.lanes W.lane_bit forces.old.named forces.old.by_net.items }
    ensures bound { forces.new.named.bound ≡ forces.old.named.bound }
    ensures each { length forces.new.by_net.items ≡ length forces.old.by_net.items }
    ensures zeros { forces.new.zeros ≡ forces.old.zeros }
    ensures ones { forces.new.ones ≡ forces.old.ones }
    ensures none { IsEmptySet forces.new.named }
    ensures idle { AreAllIdle W.lanes W.lane_bit forces.new.by_net.items }
{
    let mut from = 0;
    'nets: while let Some(n) = forces.named.next_from(from) {
        forces.by_net[n] = idle();
        forces.named.remove(n);
        from = n + 1;
    }
}

fn note(place: u32, set: &mut PlaceSet)
    ensures bound { set.new.bound ≡ set.old.bound }
    ensures kept { Grows set.old set.new }
    ensures has { (p : ℕ) → p < set.old.bound → has set.new p ≡ ((place == p) || has set.old p) }
{
    if place < set.bound() {
        set.put(place as usize);
    }
}

fn note_lane(faults: &[Option<Fault>], set: &mut PlaceSet)
    ensures bound { set.new.bound ≡ set.old.bound }
    ensures has { (n : ℕ) → n < set.old.bound → has set.new n ≡ (names faults.now n || has set.old n) }
{
    for fault in faults {
        match fault {
            Some(Fault::Stuck(net, _)) => note(net.0, set),
            Some(Fault::Pulse(net, _)) => note(net.0, set),
            _ => {}
        }
    }
}

fn note_lanes(loads: &[[Option<Fault>; 2]], set: &mut PlaceSet)
    ensures bound { set.new.bound ≡ set.old.bound }
    ensures has { (n : ℕ) → n < set.old.bound → has set.new n ≡ (some_names loads.now n || has set.old n) }
{
    for faults in loads {
        note_lane(faults, set);
    }
}

/// Puts the nets that faults name into the empty set.
pub fn note_all(loads: &[[Option<Fault>; 2]], set: &mut PlaceSet)
    requires { IsEmptySet set.old }
    ensures bound { set.new.bound ≡ set.old.bound }
    ensures named { AreNamed loads.now set.old.bound set.new }
{
    note_lanes(loads, set);
}

fn note_acts_of(faults: &[Option<Fault>], set: &mut PlaceSet)
    ensures bound { set.new.bound ≡ set.old.bound }
    ensures has { (t : ℕ) → t < set.old.bound → has set.new t ≡ (acts faults.now t || has set.old t) }
{
    for fault in faults {
        match fault {
            Some(Fault::Flip(_, cycle)) => note(*cycle, set),
            Some(Fault::Pulse(_, cycle)) => note(*cycle, set),
            _ => {}
        }
    }
}

fn note_acts(loads: &[[Option<Fault>; 2]], set: &mut PlaceSet)
    ensures bound { set.new.bound ≡ set.old.bound }
    ensures has { (t : ℕ) → t < set.old.bound → has set.new t ≡ (has_acts loads.now t || has set.old t) }
{
    for faults in loads {
        note_acts_of(faults, set);
    }
}

/// Puts the cycles in which flips and pulses act into the set, and no others.
pub fn note_cycles(loads: &[[Option<Fault>; 2]], set: &mut PlaceSet)
    requires { set.old.bound ≤ 65536 }
    ensures bound { set.new.bound ≡ set.old.bound }
    ensures acts { AreActs loads.now set.new }
{
    set.clear();
    note_acts(loads, set);
}

/// Puts the latches that the faults of one lane flip in this cycle into the set.
pub fn note_flips(faults: &[Option<Fault>], cycle: u32, set: &mut PlaceSet)
    ensures bound { set.new.bound ≡ set.old.bound }
    ensures kept { Grows set.old set.new }
    ensures has { (l : ℕ) → l < set.old.bound → has set.new l ≡ (has_flip (somes faults.now) l cycle || has set.old l) }
{
    for fault in faults {
        if let Some(Fault::Flip(latch, c)) = fault {
            if *c == cycle {
                note(*latch, set);
            }
        }
    }
}

fn is_stuck(faults: &[Option<Fault>]) -> bool
    ensures { result ≡ list_any is_permanent (somes faults.now) }
{
    for fault in faults {
        if let Some(Fault::Stuck(_, _)) = fault {
            return true;
        }
    }
    false
}

/// Whether a stuck-at fault is in force; `before` tells it where the faults are noted.
pub fn has_some_stuck(loads: &[[Option<Fault>; 2]], noted: bool, before: bool) -> bool
    requires { noted ≡ true → before ≡ has_stuck loads.now }
    ensures { result ≡ has_stuck loads.now }
{
    if noted {
        before
    } else {
        loads.iter().any(|faults| is_stuck(faults))
    }
}

// Names the nets of the faults and the cycles in which they act, and leaves all nets as they are, unless that was done. Answers
// whether the forces are of no use in a cycle without a pulse.
fn renew<W: Word>(
    loads: &[[Option<Fault>; 2]],
    noted: bool,
    stale: bool,
    cycles: &mut PlaceSet,
    forces: &mut Forces<W>,
) -> bool
    requires cycles { cycles.old.bound ≡ 65536 }
    requires forces { AreForcesOf W.lanes W.lane_bit (length forces.old.by_net.items) forces.old }
    requires noted { noted ≡ true → AreFaultsNoted W.lanes W.lane_bit loads.now stale cycles.old forces.old }
    ensures forces { AreForcesOf W.lanes W.lane_bit (length forces.old.by_net.items) forces.new }
    ensures noted { AreFaultsNoted W.lanes W.lane_bit loads.now result cycles.new forces.new }
{
    if noted {
        stale
    } else {
        forget_all(forces);
        note_all(loads, &mut forces.named);
        note_cycles(loads, cycles);
        true
    }
}

// Whether a force changes a value in some lane.
fn changes<W: Word>(force: &Force<W>, value: bool) -> bool
    ensures { (k : ℕ) → k < W.lanes → result ≡ false → force_value W.lane_bit k force.now value ≡ value }
{
    let own: W = W::all(value);
    !forced_word(force, own).xor(own).is_none()
}

// Puts a place into a set, if it is to be there.
fn put_if(is: bool, place: usize, set: &mut PlaceSet)
    requires { place < set.old.bound }
    ensures bound { set.new.bound ≡ set.old.bound }
    ensures kept { Grows set.old set.new }
    ensures there { is ≡ true → has set.new place ≡ true }
{
    if is {
        set.put(place);
    }
}

// Finds the nets on which forces change a value, where those that aren't named are left as they are.
fn find_changes<W: Word>(named: &PlaceSet, forces: &[Force<W>], value: bool, set: &mut PlaceSet)
    requires named { named.now.bound ≡ length forces.now }
    requires set { set.old.bound ≡ length forces.now }
    requires idle { AreIdleOff W.lanes W.lane_bit named.now forces.now }
    ensures bound { set.new.bound ≡ set.old.bound }
    ensures found { LeaveOff W.lanes W.lane_bit value set.new forces.now }
{
    set.clear();
    let mut from = 0;
    'nets: while let Some(n) = named.next_from(from) {
        put_if(changes(&forces[n], value), n, set);
        from = n + 1;
    }
}

// Sets the forces to those of a cycle, and finds what they change. Answers whether they are of no use in the next one.
fn arm_anew<W: Word>(
    loads: &[[Option<Fault>; 2]],
    may_pulse: bool,
    stale: bool,
    cycle: u32,
    forces: &mut Forces<W>,
) -> bool
    requires lanes { length loads.now ≡ W.lanes }
    requires calm { may_pulse ≡ false → has_pulses loads.now cycle ≡ false }
    requires forces { AreForcesOf W.lanes W.lane_bit (length forces.old.by_net.items) forces.old }
    requires named { AreNamed loads.now (length forces.old.by_net.items) forces.old.named }
    requires idle { AreIdle W.lanes W.lane_bit loads.now forces.old.by_net.items }
    requires steady { stale ≡ false → AreSteady W.lanes W.lane_bit loads.now forces.old.by_net.items }
    ensures each { length forces.new.by_net.items ≡ length forces.old.by_net.items }
    ensures named { forces.new.named ≡ forces.old.named }
    ensures forces { AreForcesOf W.lanes W.lane_bit (length forces.old.by_net.items) forces.new }
    ensures idle { AreIdle W.lanes W.lane_bit loads.now forces.new.by_net.items }
    ensures steady { result ≡ false → AreSteady W.lanes W.lane_bit loads.now forces.new.by_net.items }
    ensures armed { AreArmed W.lanes W.lane_bit loads.now cycle forces.new.by_net.items }
    ensures changed { ChangeOnly W.lanes W.lane_bit forces.new.zeros forces.new.ones forces.new.by_net.items }
{
    let stale = arm_for(loads, may_pulse, stale, cycle, &mut forces.by_net);
    find_changes(&forces.named, &forces.by_net, false, &mut forces.zeros);
    find_changes(&forces.named, &forces.by_net, true, &mut forces.ones);
    stale
}

#[tactic(auto, using(crate::proofs::Acting::no_pulses_now))]
/// Sets the forces to those of a cycle, after a load from anew, and answers whether they are of no use in the next one.
pub fn prepare<W: Word>(
    loads: &[[Option<Fault>; 2]],
    noted: bool,
    stale: bool,
    cycle: u32,
    cycles: &mut PlaceSet,
    forces: &mut Forces<W>,
) -> bool
    requires lanes { length loads.now ≡ W.lanes }
    requires cycle { cycle < 65536 }
    requires cycles { cycles.old.bound ≡ 65536 }
    requires forces { AreForcesOf W.lanes W.lane_bit (length forces.old.by_net.items) forces.old }
    requires noted { noted ≡ true → AreFaultsNoted W.lanes W.lane_bit loads.now stale cycles.old forces.old }
    ensures forces { AreForcesOf W.lanes W.lane_bit (length forces.old.by_net.items) forces.new }
    ensures noted { AreFaultsNoted W.lanes W.lane_bit loads.now result cycles.new forces.new }
    ensures armed { AreArmed W.lanes W.lane_bit loads.now cycle forces.new.by_net.items }
    ensures changed { ChangeOnly W.lanes W.lane_bit forces.new.zeros forces.new.ones forces.new.by_net.items }
{
    let stale = renew(loads, noted, stale, cycles, forces);
    let acting = cycles.has(cycle as usize);
    if acting || stale {
        arm_anew(loads, acting, stale, cycle, forces)
    } else {
        false
    }
}
