// The forces of a cycle, from the faults of each lane.
ghost use Rattle.std.specs.Prelude.{◌≡◌, ◌≢◌, ◌<◌, ◌≤◌, ◌+◌, ◌==◌, ◌⊎◌, ℕ, Bool, false, List, [], Option, IfOk, length, slice_index_or, if◌then◌else◌};
ghost use Rattle.std.specs.List.{list_any};
ghost use Rattle.circuit.specs.declared.parts.Fault.{Fault};
ghost use Rattle.circuit.specs.Effects.{affected};
ghost use Rattle.lane_words.specs.declared.force.Force.{Force};
ghost use Rattle.lane_words.specs.Forces.{AreArmed, AreIdle, AreSteady, force_value};
ghost use Rattle.lane_words.specs.Loads.{loaded_faults, has_pulses, is_pulse_in, names, somes};

use crate::force::{Force, with_lane};
use crate::word::Word;
use circuit::parts::{Fault, NetId};
use room::{NoRoom, push};
use std::alloc::Global;

/// Lanes, so many of them, without faults.
pub fn no_faults(alloc: Global, lanes: u32) -> Result<Vec<[Option<Fault>; 2]>, NoRoom>
    ensures count { IfOk result (λ loads. length loads.items ≡ lanes) }
    ensures none { IfOk result (λ loads. (k : ℕ) → loaded_faults loads.items k ≡ []) }
{
    let mut loads = Vec::new(alloc);
    for _ in 0..lanes {
        push(&mut loads, [None, None])?;
    }
    Ok(loads)
}

/// Gives some lanes their faults, from a lane on.
pub fn place(loads: &mut [[Option<Fault>; 2]], from: usize, faults: &[[Option<Fault>; 2]])
    requires { from + length faults.now ≤ length loads.old }
    ensures placed { (k : ℕ) (d : List (Option Fault)) → k < length faults.now → slice_index_or loads.new (from + k) d ≡ slice_index_or faults.now k d }
    ensures others { (j : ℕ) (d : List (Option Fault)) → (j < from) ⊎ (from + length faults.now ≤ j) → slice_index_or loads.new j d ≡ slice_index_or loads.old j d }
{
    for (k, pair) in faults.iter().enumerate() {
        loads[from + k] = *pair;
    }
}

// Sets what is read of a net in a lane to what the lane's faults make of it in a cycle.
fn arm<W: Word>(
    faults: &[Option<Fault>],
    cycle: u32,
    lane: u32,
    net: NetId,
    forces: &mut [Force<W>],
)
    requires { lane < W.lanes }
    ensures own { (n : ℕ) (d : Force W) (own : Bool) → n < length forces.old
        → force_value W.lane_bit lane (slice_index_or forces.new n d) own
        ≡ (if net.0 == n then affected (somes faults.now) cycle n own else force_value W.lane_bit lane (slice_index_or forces.old n d) own) }
    ensures others { (k n : ℕ) (d : Force W) (own : Bool) → k < W.lanes → k ≢ lane → n < length forces.old
        → force_value W.lane_bit k (slice_index_or forces.new n d) own ≡ force_value W.lane_bit k (slice_index_or forces.old n d) own }
{
    let at = net.0 as usize;
    if at < forces.len() {
        forces[at] = with_lane(&forces[at], faults, cycle, lane, net);
    }
}

// The same on each net that a fault of the lane may change.
fn arm_lane<W: Word>(faults: &[Option<Fault>], cycle: u32, lane: u32, forces: &mut [Force<W>])
    requires { lane < W.lanes }
    ensures own { (n : ℕ) (d : Force W) (own : Bool) → n < length forces.old
        → force_value W.lane_bit lane (slice_index_or forces.new n d) own
        ≡ (if names faults.now n then affected (somes faults.now) cycle n own else force_value W.lane_bit lane (slice_index_or forces.old n d) own) }
    ensures others { (k n : ℕ) (d : Force W) (own : Bool) → k < W.lanes → k ≢ lane → n < length forces.old
        → force_value W.lane_bit k (slice_index_or forces.new n d) own ≡ force_value W.lane_bit k (slice_index_or forces.old n d) own }
{
    for fault in faults {
        match fault {
            Some(Fault::Stuck(net, _)) => arm(faults, cycle, lane, *net, forces),
            Some(Fault::Pulse(net, _)) => arm(faults, cycle, lane, *net, forces),
            _ => {}
        }
    }
}

// Sets the forces in each lane, on each net that a fault of the lane may change, to those of a cycle.
fn arm_all<W: Word>(loads: &[[Option<Fault>; 2]], cycle: u32, forces: &mut [Force<W>])
    requires { length loads.now ≡ W.lanes }
    ensures { (k n : ℕ) (d : Force W) (own : Bool) → k < W.lanes → n < length forces.old
        → force_value W.lane_bit k (slice_index_or forces.new n d) own
        ≡ (if names (slice_index_or loads.now k []) n then affected (loaded_faults loads.now k) cycle n own else force_value W.lane_bit k (slice_index_or forces.old n d) own) }
{
    for lane in 0..W::count() {
        arm_lane(&loads[lane as usize], cycle, lane, forces);
    }
}

fn is_pulsing(faults: &[Option<Fault>], cycle: u32) -> bool
    ensures { result ≡ list_any (is_pulse_in cycle) (somes faults.now) }
{
    for fault in faults {
        if let Some(Fault::Pulse(_, c)) = fault {
            if *c == cycle {
                return true;
            }
        }
    }
    false
}

fn is_some_pulsing(loads: &[[Option<Fault>; 2]], cycle: u32) -> bool
    ensures { result ≡ has_pulses loads.now cycle }
{
    loads.iter().any(|faults| is_pulsing(faults, cycle))
}

fn has_some_pulse(loads: &[[Option<Fault>; 2]], may_pulse: bool, cycle: u32) -> bool
    requires { may_pulse ≡ false → has_pulses loads.now cycle ≡ false }
    ensures { result ≡ has_pulses loads.now cycle }
{
    may_pulse && is_some_pulsing(loads, cycle)
}

/// Sets the forces to those of a cycle, and answers whether they are of no use in the next one. Where `may_pulse` is no, there is no
/// pulse in this cycle; `stale` tells that the forces are of no use in a cycle without one.
pub fn arm_for<W: Word>(
    loads: &[[Option<Fault>; 2]],
    may_pulse: bool,
    stale: bool,
    cycle: u32,
    forces: &mut [Force<W>],
) -> bool
    requires lanes { length loads.now ≡ W.lanes }
    requires calm { may_pulse ≡ false → has_pulses loads.now cycle ≡ false }
    requires idle { AreIdle W.lanes W.lane_bit loads.now forces.old }
    requires steady { stale ≡ false → AreSteady W.lanes W.lane_bit loads.now forces.old }
    ensures armed { AreArmed W.lanes W.lane_bit loads.now cycle forces.new }
    ensures idle { AreIdle W.lanes W.lane_bit loads.now forces.new }
    ensures steady { result ≡ false → AreSteady W.lanes W.lane_bit loads.now forces.new }
{
    let pulses = has_some_pulse(loads, may_pulse, cycle);
    if pulses || stale {
        arm_all(loads, cycle, forces);
    }
    pulses
}
