// The lanes of a word in which points are out of reach.
ghost use Rattle.std.specs.Prelude.{◌≡◌, ◌<◌, ℕ, All, List, false, true};
ghost use Rattle.circuit.specs.declared.parts.Fault.{Fault as FaultValue};
ghost use Rattle.fm_base.specs.Planes.{bit};
ghost use Rattle.lane_words.specs.Loads.{loaded_faults, somes};
ghost use Rattle.reach.specs.Paths.{CanChangeSome};
ghost use Rattle.reach.specs.Reached.{nets_of};
ghost use Rattle.classifier.specs.OutOfReach.{AreOutOfReach};

use circuit::parts::{Fault, Latch};
use lane_words::Word;
use reach::{Reach, Sort};
use testbench::Testbench;

const LANES: u32 = 64;

/// The lanes of a word whose faults can change no alarm point, and those whose faults can change no observation point: no path leads
/// there.
#[derive(Clone, Copy)]
pub struct OutOfReach {
    pub alarm: u64,
    pub observation: u64,
}

/// All points are within reach, as far as is known.
pub const WITHIN_REACH: OutOfReach = OutOfReach {
    alarm: 0,
    observation: 0,
};

// Whether one of these faults can change a point of a sort. `latches` are those of the netlist.
fn is_reached(reach: &Reach, latches: &[Latch], faults: &[Option<Fault>], sort: Sort) -> bool
    requires { latches.now ≡ reach.now.circuit.latches }
    ensures { result ≡ false → All (λ fault. ¬ (CanChangeSome reach.now.circuit fault (nets_of reach.now.points sort))) (somes faults.now) }
{
    for fault in faults {
        match fault {
            Some(fault) => {
                if reach.can_change(latches, *fault, sort) {
                    return true;
                }
            }
            None => {}
        }
    }
    false
}

// The lanes none of whose faults can change a point of a sort.
fn lanes_beyond(
    reach: &Reach,
    latches: &[Latch],
    loads: &[[Option<Fault>; 2]; 64],
    sort: Sort,
) -> u64
    requires { latches.now ≡ reach.now.circuit.latches }
    ensures { (k : ℕ) → k < 64 → bit result k ≡ true
        → All (λ fault. ¬ (CanChangeSome reach.now.circuit fault (nets_of reach.now.points sort))) (loaded_faults loads.now k) }
{
    let mut lanes = 0u64;
    for lane in 0..LANES {
        let reached = is_reached(reach, latches, &loads[lane as usize], sort);
        lanes = lanes.put(lane, !reached);
    }
    lanes
}

/// The lanes in which points are out of reach, where they are loaded with these faults.
pub fn out_of_reach(bench: &Testbench<'_>, loads: &[[Option<Fault>; 2]; 64]) -> OutOfReach
    ensures { (faults : ℕ → List FaultValue) → ((k : ℕ) → k < 64 → faults k ≡ loaded_faults loads.now k)
        → AreOutOfReach bench.now.circuit bench.now.points faults result }
{
    let reach = bench.reach();
    let latches = bench.net().latches();
    OutOfReach {
        alarm: lanes_beyond(reach, latches, loads, Sort::Alarm),
        observation: lanes_beyond(reach, latches, loads, Sort::Observation),
    }
}
