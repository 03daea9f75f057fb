// What faults do to a net, lane by lane.
ghost use Rattle.std.specs.Prelude.{◌≡◌, ◌≢◌, ◌<◌, ℕ, Bool, IfOk, length, slice_index_or};
ghost use Rattle.circuit.specs.Effects.{affected, forced, has_pulse};
ghost use Rattle.lane_words.specs.declared.force.Force.{Force};
ghost use Rattle.lane_words.specs.Forces.{AreAllIdle, force_value};
ghost use Rattle.lane_words.specs.Loads.{somes};

use crate::word::Word;
use circuit::meaning::turned;
use circuit::parts::{Fault, NetId};
use room::{NoRoom, push, with_room};
use std::alloc::Global;

/// What a net's own word becomes: `base`, with its own bit added without carry where `slope` is set.
#[derive(Clone, Copy)]
pub struct Force<W> {
    pub base: W,
    pub slope: W,
}

/// The force that leaves each word as it is.
pub fn idle<W: Word>() -> Force<W>
    ensures { (k : ℕ) (own : Bool) → k < W.lanes → force_value W.lane_bit k result own ≡ own }
{
    Force {
        base: W::all(false),
        slope: W::all(true),
    }
}

/// Forces that leave the words of so many nets as they are.
pub fn idle_forces<W: Word>(alloc: Global, nets: usize) -> Result<Vec<Force<W>>, NoRoom>
    ensures count { IfOk result (λ forces. length forces.items ≡ nets) }
    ensures idle { IfOk result (λ forces. AreAllIdle W.lanes W.lane_bit forces.items) }
{
    let mut forces = with_room(alloc, nets)?;
    for n in 0..nets {
        push(&mut forces, idle())?;
    }
    Ok(forces)
}

/// The word that is read of a net with this own word.
pub fn forced_word<W: Word>(force: &Force<W>, own: W) -> W
    ensures { (k : ℕ) → k < W.lanes → W.lane_bit result k ≡ force_value W.lane_bit k force.now (W.lane_bit own k) }
{
    force.base.xor(force.slope.and(own))
}

/// The word that is read of the net of this number.
pub fn forced_at<W: Word>(forces: &[Force<W>], net: u32, own: W) -> W
    requires { net < length forces.now }
    ensures { (k : ℕ) (d : Force W) → k < W.lanes → W.lane_bit result k ≡ force_value W.lane_bit k (slice_index_or forces.now net d) (W.lane_bit own k) }
{
    forced_word(&forces[net as usize], own)
}

fn stuck_value(faults: &[Option<Fault>], net: NetId, own: bool) -> bool
    ensures { result ≡ forced (somes faults.now) net.0 own }
{
    for fault in faults {
        if let Some(Fault::Stuck(n, value)) = fault {
            if n.0 == net.0 {
                return *value;
            }
        }
    }
    own
}

fn is_pulsed(faults: &[Option<Fault>], net: NetId, cycle: u32) -> bool
    ensures { result ≡ has_pulse (somes faults.now) net.0 cycle }
{
    for fault in faults {
        if let Some(Fault::Pulse(n, c)) = fault {
            if n.0 == net.0 && *c == cycle {
                return true;
            }
        }
    }
    false
}

/// What is read of a net with this own bit.
pub fn value_under(faults: &[Option<Fault>], cycle: u32, net: NetId, own: bool) -> bool
    ensures { result ≡ affected (somes faults.now) cycle net.0 own }
{
    stuck_value(faults, net, turned(is_pulsed(faults, net, cycle), own))
}

/// The force that does in one lane what the lane's faults do to a net in a cycle, and in the others what it did.
pub fn with_lane<W: Word>(
    force: &Force<W>,
    faults: &[Option<Fault>],
    cycle: u32,
    lane: u32,
    net: NetId,
) -> Force<W>
    requires { lane < W.lanes }
    ensures own { (own : Bool) → force_value W.lane_bit lane result own ≡ affected (somes faults.now) cycle net.0 own }
    ensures others { (k : ℕ) (own : Bool) → k < W.lanes → k ≢ lane
        → force_value W.lane_bit k result own ≡ force_value W.lane_bit k force.now own }
{
    let low = value_under(faults, cycle, net, false);
    let high = value_under(faults, cycle, net, true);
    Force {
        base: force.base.put(lane, low),
        slope: force.slope.put(lane, low != high),
    }
}
