// The walk over the places that are marked.
ghost use Rattle.std.specs.Prelude.{◌≡◌, ◌<◌, ◌≤◌, ◌+◌, ℕ, [], false, length, MatchOption};
ghost use Rattle.circuit.specs.Value.{Cycle, net_value};
ghost use Rattle.golden_difference.proofs.Walked.{Walked};
ghost use Rattle.lane_words.specs.Forces.{AreForces};
ghost use Rattle.lane_words.specs.Gates.{AreOps, IsGate};
ghost use Rattle.place_set.specs.Places.{has};
ghost use Rattle.differential_kernel.specs.Cycle.{FitTogether, IsGoldenCycle, LatchesTake};
ghost use Rattle.differential_kernel.specs.Differences.{IsEmptySet, read_in};
ghost use Rattle.differential_kernel.specs.Forced.{IsSettled};
ghost use Rattle.differential_kernel.specs.Noted.{AreNoted, StayNoted};
ghost use Rattle.differential_kernel.specs.Parts.{AreForcesOf, AreLatchesOf, AreNetsOf};
ghost use Rattle.differential_kernel.specs.Shown.{shown_by};
ghost use Rattle.differential_kernel.specs.Walk.{IsAhead, IsPair};

use crate::difference::store;
use crate::force::Forces;
use crate::golden_cycle::GoldenCycle;
use crate::latches::LatchDifferences;
use crate::nets::NetDifferences;
use crate::program::Program;
use crate::table::table_difference;
use circuit::parts::NetId;
use fm_base::Steps;
use lane_words::gate::{Gate, Masks};
use lane_words::{Word, word_at};
use place_set::PlaceSet;
use std::sync::ledger::Ledger;

// The first marked place of a table from a place on.
fn next_table(marks: &PlaceSet, from: usize, tables: usize) -> Option<usize>
    ensures { MatchOption result
        ((p : ℕ) → from ≤ p → p < tables → has marks.now p ≡ false)
        (λ q. (from ≤ q) × (q < tables) × (q < marks.now.bound) × ((p : ℕ) → from ≤ p → p < q → has marks.now p ≡ false)) }
{
    match marks.next_from(from) {
        Some(place) => { if place < tables { Some(place) } else { None } }
        None => None,
    }
}

// Evaluates the table of a net, and notes what the net differs in.
fn evaluate<W: Word>(
    cycle: &GoldenCycle<'_>,
    net: NetId,
    gate: &Gate,
    ops: &[Masks<W>],
    forces: &Forces<W>,
    nets: &mut NetDifferences<W>,
)
    requires golden { IsGoldenCycle cycle.now }
    requires gate { IsGate cycle.now.netlist.now gate.now }
    requires to { gate.now.to ≡ net.0 }
    requires ops { AreOps W.lanes W.lane_bit ops.now }
    requires forces { AreForcesOf W.lanes W.lane_bit (length cycle.now.netlist.now.drivers) forces.now }
    requires nets { AreNetsOf W.lanes W.lane_bit cycle.now.fanout.now nets.old }
    ensures noted { StayNoted W.lanes W.lane_bit cycle.now.fanout.now nets.old nets.new }
    ensures settled { IsSettled W.lanes W.lane_bit cycle.now.netlist.now cycle.now.row.now forces.now.by_net.items net.0 nets.old.words.items nets.new.words.items }
{
    let word = table_difference(cycle.netlist, gate, ops, cycle.row, forces, &nets.words);
    store(net, word, cycle.fanout, nets);
}

/// Evaluates the tables at the marked places, in the order's sequence, with at most one step for each table, and answers how many
/// there were.
pub fn walk<W: Word, L: Ledger>(
    cycle: &GoldenCycle<'_>,
    program: &Program<W>,
    forces: &Forces<W>,
    nets: &mut NetDifferences<W>,
    steps: &mut Steps<L>,
) -> usize
    requires fit { FitTogether W.lanes W.lane_bit cycle.now program.now forces.now }
    requires noted { AreNoted W.lanes W.lane_bit cycle.now.fanout.now 0 nets.old }
    requires ahead { IsAhead W.lanes W.lane_bit cycle.now.order.now cycle.now.row.now forces.now.by_net.items 0 nets.old.words.items nets.old.marks }
    ensures values { (k : ℕ) (x golden : Cycle) → k < W.lanes → IsPair cycle.now.netlist.now cycle.now.row.now x golden → AreForces W.lane_bit k forces.now.by_net.items x
        → Walked x (read_in W.lane_bit k cycle.now.row.now nets.old.words.items) [] 0
        → (n : ℕ) → n < length cycle.now.netlist.now.drivers → read_in W.lane_bit k cycle.now.row.now nets.new.words.items n ≡ net_value x n }
    ensures noted { AreNoted W.lanes W.lane_bit cycle.now.fanout.now (length cycle.now.order.now) nets.new }
    ensures few { result ≤ length cycle.now.order.now }
    ensures cost { steps.new ≤ steps.old + length cycle.now.order.now }
{
    let gates = program.gates.as_slice();
    let ops = program.ops.as_slice();
    let mut evaluated = 0;
    let mut from = 0;
    'places: while let Some(place) = next_table(&nets.marks, from, cycle.order.len()) {
        nets.marks.remove(place);
        evaluate(cycle, cycle.order[place], &gates[place], ops, forces, nets);
        steps.tick();
        evaluated += 1;
        from = place + 1;
    }
    evaluated
}

/// Each latch whose place is marked, behind those of all tables, takes what the net differs in that it reads.
pub fn take_latches<W: Word>(
    cycle: &GoldenCycle<'_>,
    latches: &mut LatchDifferences<W>,
    nets: &mut NetDifferences<W>,
)
    requires golden { IsGoldenCycle cycle.now }
    requires latches { AreLatchesOf W.lanes W.lane_bit cycle.now.netlist.now latches.old }
    requires none { IsEmptySet latches.old.live }
    requires noted { AreNoted W.lanes W.lane_bit cycle.now.fanout.now (length cycle.now.order.now) nets.old }
    ensures latches { AreLatchesOf W.lanes W.lane_bit cycle.now.netlist.now latches.new }
    ensures nets { AreNetsOf W.lanes W.lane_bit cycle.now.fanout.now nets.new }
    ensures words { nets.new.words.items ≡ nets.old.words.items }
    ensures taken { LatchesTake W.lanes W.lane_bit cycle.now.netlist.now (shown_by W.lane_bit nets.old.words.items) latches.new.raw.items }
{
    let ends = cycle.netlist.latches();
    let tables = cycle.order.len();
    let mut from = tables;
    'latches: while let Some(place) = nets.marks.next_from(from) {
        let l = place - tables;
        latches.raw[l] = word_at(&nets.words, ends[l].from.0 as usize);
        latches.live.put(l);
        nets.marks.remove(place);
        from = place + 1;
    }
}
