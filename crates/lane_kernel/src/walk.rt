// The walk over all tables in one cycle.
ghost use Rattle.std.specs.Prelude.{◌≡◌, ◌<◌, ◌+◌, ℕ, List, [], length, take};
ghost use Rattle.circuit.specs.declared.parts.NetId.{NetId};
ghost use Rattle.circuit.specs.Value.{Cycle};
ghost use Rattle.circuit.proofs.Walks.{Holds};
ghost use Rattle.lane_words.specs.Forces.{AreForces};
ghost use Rattle.lane_words.specs.Gates.{AreGates, AreOps, IsProgram, plane};
ghost use Rattle.lane_kernel.specs.Walk.{AreNarrowRuns, IsNextPause, IsPaused};

use crate::gate::{evaluate_any, run_plain, store};
use circuit::netlist::Netlist;
use fm_base::Steps;
use lane_words::Word;
use lane_words::force::{Force, forced_at};
use lane_words::gate::{Gate, Masks};
use std::sync::ledger::Ledger;

/// Evaluates the gate at one place, whose net a fault may change or whose table may be wide.
pub fn run_forced<W: Word, L: Ledger>(
    netlist: &Netlist,
    gates: &[Gate],
    masks: &[Masks<W>],
    forces: &[Force<W>],
    at: usize,
    words: &mut [W],
    steps: &mut Steps<L>,
)
    requires ops { AreOps W.lanes W.lane_bit masks.now }
    requires gates { AreGates netlist.now gates.now }
    requires forces { length forces.now ≡ length netlist.now.drivers }
    requires at { at < length gates.now }
    requires size { length words.old ≡ length netlist.now.drivers }
    ensures values { (k : ℕ) (x : Cycle) (order : List NetId) → k < W.lanes → x.circuit ≡ netlist.now → IsProgram x.circuit order gates.now
        → AreForces W.lane_bit k forces.now x
        → Holds x (plane W.lane_bit k words.old) (take at order) at
        → Holds x (plane W.lane_bit k words.new) (take (at + 1) order) (at + 1) }
    ensures cost { steps.new ≡ steps.old + 1 }
{
    let gate = &gates[at];
    let own = evaluate_any(netlist, gate, masks, words);
    store(gate, forced_at(forces, gate.to, own), words);
    steps.tick();
}

/// Evaluates all gates, with a pause at each net that a fault may change.
pub fn walk<W: Word, L: Ledger>(
    netlist: &Netlist,
    gates: &[Gate],
    masks: &[Masks<W>],
    next: &[usize],
    forces: &[Force<W>],
    words: &mut [W],
    steps: &mut Steps<L>,
)
    requires ops { AreOps W.lanes W.lane_bit masks.now }
    requires gates { AreGates netlist.now gates.now }
    requires next { IsNextPause (length gates.now) next.now }
    requires narrow { AreNarrowRuns gates.now next.now }
    requires forces { length forces.now ≡ length netlist.now.drivers }
    requires size { length words.old ≡ length netlist.now.drivers }
    ensures values { (k : ℕ) (x : Cycle) (order : List NetId) → k < W.lanes → x.circuit ≡ netlist.now → IsProgram x.circuit order gates.now
        → AreForces W.lane_bit k forces.now x → IsPaused gates.now next.now x
        → Holds x (plane W.lane_bit k words.old) [] 0
        → Holds x (plane W.lane_bit k words.new) order (length order) }
    ensures cost { steps.new ≡ steps.old + length gates.now }
{
    let mut from = 0;
    'pieces: while from < gates.len() {
        let to = next[from];
        run_plain(gates, masks, from, to, words, steps);
        from = to;
        if to < gates.len() {
            run_forced(netlist, gates, masks, forces, to, words, steps);
            from = to + 1;
        }
    }
}
