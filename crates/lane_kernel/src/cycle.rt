// One cycle in all lanes.
ghost use Rattle.std.specs.Prelude.{◌≡◌, ◌<◌, ◌+◌, ◌^◌, ℕ, List, length, map};
ghost use Rattle.circuit.specs.declared.parts.NetId.{NetId};
ghost use Rattle.circuit.specs.Value.{bit_at, cycle_of, net_value};
ghost use Rattle.circuit.specs.Trace.{flipped};
ghost use Rattle.circuit.specs.Sound.{IsNetlist};
ghost use Rattle.lane_words.specs.Forces.{AreForces};
ghost use Rattle.lane_words.specs.Gates.{AreGates, AreOps, IsProgram, plane};
ghost use Rattle.lane_kernel.specs.Walk.{AreNarrowRuns, IsNextPause, IsPaused};
ghost use Rattle.lane_words.specs.Loads.{loaded_faults};
ghost use Rattle.lane_kernel.specs.Marks.{has_transients};

use crate::source::{flip, take_inputs, take_latches, take_next};
use crate::walk::walk;
use circuit::netlist::Netlist;
use circuit::parts::Fault;
use fm_base::Steps;
use lane_words::Word;
use lane_words::force::Force;
use lane_words::gate::{Gate, Masks};
use std::sync::ledger::Ledger;

/// Runs one cycle on what the latches hold, with the forces of this cycle.
pub fn run<W: Word, L: Ledger>(
    netlist: &Netlist,
    gates: &[Gate],
    masks: &[Masks<W>],
    next: &[usize],
    forces: &[Force<W>],
    loads: &[[Option<Fault>; 2]],
    transient: bool,
    cycle: u32,
    inputs: &[bool],
    raw: &mut [W],
    words: &mut [W],
    steps: &mut Steps<L>,
)
    requires ops { AreOps W.lanes W.lane_bit masks.now }
    requires gates { AreGates netlist.now gates.now }
    requires next { IsNextPause (length gates.now) next.now }
    requires narrow { AreNarrowRuns gates.now next.now }
    requires forces { length forces.now ≡ length netlist.now.drivers }
    requires lanes { length loads.now ≡ W.lanes }
    requires transient { transient ≡ has_transients loads.now }
    requires latches { length raw.old ≡ length netlist.now.latches }
    requires size { length words.old ≡ length netlist.now.drivers }
    ensures values { (k : ℕ) (order : List NetId) → k < W.lanes → IsProgram netlist.now order gates.now
        → AreForces W.lane_bit k forces.now (cycle_of netlist.now (loaded_faults loads.now k) cycle (flipped (loaded_faults loads.now k) cycle (plane W.lane_bit k raw.old)) inputs.now)
        → IsPaused gates.now next.now (cycle_of netlist.now (loaded_faults loads.now k) cycle (flipped (loaded_faults loads.now k) cycle (plane W.lane_bit k raw.old)) inputs.now)
        → (m : ℕ) → m < length netlist.now.drivers
        → bit_at (plane W.lane_bit k words.new) m
        ≡ net_value (cycle_of netlist.now (loaded_faults loads.now k) cycle (flipped (loaded_faults loads.now k) cycle (plane W.lane_bit k raw.old)) inputs.now) m }
    ensures raw { (k : ℕ) → k < W.lanes → plane W.lane_bit k raw.new ≡ map (λ latch. bit_at (plane W.lane_bit k words.new) latch.from.0) netlist.now.latches }
    ensures sound { IsNetlist netlist.now }
    ensures cost { steps.new ≡ steps.old + length gates.now }
{
    let latches = netlist.latches();
    flip(loads, transient, cycle, raw);
    take_inputs(netlist.inputs(), inputs, forces, words);
    take_latches(latches, raw, forces, words);
    walk(netlist, gates, masks, next, forces, words, steps);
    take_next(latches, words, raw);
}
