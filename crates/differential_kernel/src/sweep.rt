// A cycle in which every table of a cone is evaluated on values. Where much differs, that is quicker than to find out what does.
ghost use Rattle.std.specs.Prelude.{◌≡◌, ◌≢◌, ◌<◌, ◌≤◌, ◌+◌, ◌-◌, ℕ, [], false, true, length, slice_index_or};
ghost use Rattle.circuit.specs.Value.{Cycle, bit_at, net_value};
ghost use Rattle.golden_difference.proofs.Walked.{Walked};
ghost use Rattle.lane_words.specs.Bits.{either};
ghost use Rattle.lane_words.specs.Forces.{AreForces, force_value};
ghost use Rattle.lane_words.specs.Gates.{latch_at, plane};
ghost use Rattle.place_set.specs.Places.{has, value_in};
ghost use Rattle.lane_words.specs.declared.force.Force.{Force as ForceValue};
ghost use Rattle.differential_kernel.specs.Cone.{AreEnds, IsStretch};
ghost use Rattle.differential_kernel.specs.Places.{AreThose};
ghost use Rattle.differential_kernel.specs.Cycle.{CanSweep};
ghost use Rattle.differential_kernel.specs.Differences.{DifferOnlyIn, read_in};
ghost use Rattle.differential_kernel.specs.Shown.{ReadGolden, valued_in};
ghost use Rattle.differential_kernel.specs.Sweeps.{SweepsOn};
ghost use Rattle.differential_kernel.specs.Walk.{IsPair};

use crate::cone::Cone;
use crate::difference::{golden_word, set_word, value_word};
use crate::force::Forces;
use crate::golden_cycle::GoldenCycle;
use crate::values::{table_word, word_by_op};
use circuit::netlist::Netlist;
use fm_base::Steps;
use lane_words::force::forced_at;
use lane_words::{Word, word_at};
use std::sync::ledger::Ledger;

/// Reads the golden values that a cone begins with.
pub fn read_golden<W: Word>(cone: &Cone, row: &[u64], values: &mut [W])
    requires reads { AreThose (has cone.now.read) (length values.old) cone.now.reads.items cone.now.read_count }
    requires room { length cone.now.reads.items ≡ length values.old }
    ensures { (k n : ℕ) → k < W.lanes → n < length values.old → has cone.now.read n ≡ true
        → bit_at (plane W.lane_bit k values.new) n ≡ value_in row.now n }
{
    let reads = cone.reads.as_slice();
    for at in 0..cone.read_count {
        let net = reads[at];
        values[net as usize] = golden_word(row, net);
    }
}

/// The net of each latch of a cone has its golden value, but for what the latch holds.
pub fn show_ends<W: Word>(netlist: &Netlist, cone: &Cone, row: &[u64], raw: &[W], values: &mut [W])
    requires ends { AreEnds netlist.now cone.now }
    requires nets { length values.old ≡ length netlist.now.drivers }
    ensures shown { (k l : ℕ) → k < W.lanes → l < length netlist.now.latches → has cone.now.latches l ≡ true
        → bit_at (plane W.lane_bit k values.new) (latch_at netlist.now.latches l).to.0
        ≡ either (value_in row.now (latch_at netlist.now.latches l).to.0) (bit_at (plane W.lane_bit k raw.now) l) }
    ensures others { (k n : ℕ) → ((l : ℕ) → l < length netlist.now.latches → has cone.now.latches l ≡ true → n ≢ (latch_at netlist.now.latches l).to.0)
        → bit_at (plane W.lane_bit k values.new) n ≡ bit_at (plane W.lane_bit k values.old) n }
{
    let latches = netlist.latches();
    let ends = cone.ends.as_slice();
    for at in 0..cone.end_count {
        let l = ends[at] as usize;
        let golden: W = golden_word(row, latches[l].to.0);
        set_word(latches[l].to, golden.xor(word_at(raw, l)), values);
    }
}

/// The nets that were named and that no table drives have the values that their forces leave.
pub fn force_sources<W: Word>(cone: &Cone, forces: &Forces<W>, values: &mut [W])
    requires listed { AreThose (has cone.now.source) (length values.old) cone.now.sources.items cone.now.source_count }
    requires room { length cone.now.sources.items ≡ length values.old }
    requires forces { length forces.now.by_net.items ≡ length values.old }
    ensures forced { (k n : ℕ) (d : ForceValue W) → k < W.lanes → n < length values.old → has cone.now.source n ≡ true
        → bit_at (plane W.lane_bit k values.new) n ≡ force_value W.lane_bit k (slice_index_or forces.now.by_net.items n d) (bit_at (plane W.lane_bit k values.old) n) }
    ensures others { (k n : ℕ) → has cone.now.source n ≡ false → bit_at (plane W.lane_bit k values.new) n ≡ bit_at (plane W.lane_bit k values.old) n }
{
    let sources = cone.sources.as_slice();
    for at in 0..cone.source_count {
        let net = sources[at];
        values[net as usize] = forced_at(&forces.by_net, net, word_at(values, net as usize));
    }
}

// Evaluates a table of a cone, whatever it is.
fn sweep_one<W: Word, L: Ledger>(
    cycle: &GoldenCycle<'_>,
    forces: &Forces<W>,
    cone: &Cone,
    at: usize,
    values: &mut [W],
    steps: &mut Steps<L>,
)
    requires fit { CanSweep W.lanes W.lane_bit cycle.now forces.now cone.now }
    requires room { length values.old ≡ length cycle.now.netlist.now.drivers }
    requires read { ReadGolden W.lanes W.lane_bit cycle.now.row.now cone.now values.old }
    requires at { at < cone.now.table_count }
    ensures values { SweepsOn W.lanes W.lane_bit cycle.now forces.now cone.now at (at + 1) values.old values.new }
    ensures read { ReadGolden W.lanes W.lane_bit cycle.now.row.now cone.now values.new }
    ensures cost { steps.new ≡ steps.old + 1 }
{
    let tables = cone.gates.as_slice();
    let table = &tables[at];
    values[table.gate.to as usize] = table_word(cycle.netlist, table, forces, values);
    steps.tick();
}

// Evaluates the tables of a cone from one place up to another, which have this operation and no force. The operation is a constant, so
// that nothing in the loop asks for it.
fn sweep_stretch<W: Word, L: Ledger, const OP: u8>(
    cycle: &GoldenCycle<'_>,
    forces: &Forces<W>,
    cone: &Cone,
    from: usize,
    to: usize,
    values: &mut [W],
    steps: &mut Steps<L>,
)
    requires fit { CanSweep W.lanes W.lane_bit cycle.now forces.now cone.now }
    requires room { length values.old ≡ length cycle.now.netlist.now.drivers }
    requires read { ReadGolden W.lanes W.lane_bit cycle.now.row.now cone.now values.old }
    requires from { from ≤ to }
    requires to { to ≤ cone.now.table_count }
    requires stretch { IsStretch cone.now.gates.items OP from to }
    ensures values { SweepsOn W.lanes W.lane_bit cycle.now forces.now cone.now from to values.old values.new }
    ensures read { ReadGolden W.lanes W.lane_bit cycle.now.row.now cone.now values.new }
    ensures cost { steps.new ≡ steps.old + (to - from) }
{
    let tables = cone.gates.as_slice();
    for at in from..to {
        let gate = &tables[at].gate;
        values[gate.to as usize] = word_by_op(OP, gate, values);
        steps.tick();
    }
}

// So by the loop of their operation.
fn sweep_by_op<W: Word, L: Ledger>(
    cycle: &GoldenCycle<'_>,
    forces: &Forces<W>,
    cone: &Cone,
    op: u8,
    from: usize,
    to: usize,
    values: &mut [W],
    steps: &mut Steps<L>,
)
    requires fit { CanSweep W.lanes W.lane_bit cycle.now forces.now cone.now }
    requires room { length values.old ≡ length cycle.now.netlist.now.drivers }
    requires read { ReadGolden W.lanes W.lane_bit cycle.now.row.now cone.now values.old }
    requires from { from ≤ to }
    requires to { to ≤ cone.now.table_count }
    requires stretch { IsStretch cone.now.gates.items op from to }
    ensures values { SweepsOn W.lanes W.lane_bit cycle.now forces.now cone.now from to values.old values.new }
    ensures read { ReadGolden W.lanes W.lane_bit cycle.now.row.now cone.now values.new }
    ensures cost { steps.new ≡ steps.old + (to - from) }
{
    match op {
        0 => sweep_stretch::<W, L, 0>(cycle, forces, cone, from, to, values, steps),
        1 => sweep_stretch::<W, L, 1>(cycle, forces, cone, from, to, values, steps),
        2 => sweep_stretch::<W, L, 2>(cycle, forces, cone, from, to, values, steps),
        3 => sweep_stretch::<W, L, 3>(cycle, forces, cone, from, to, values, steps),
        4 => sweep_stretch::<W, L, 4>(cycle, forces, cone, from, to, values, steps),
        5 => sweep_stretch::<W, L, 5>(cycle, forces, cone, from, to, values, steps),
        6 => sweep_stretch::<W, L, 6>(cycle, forces, cone, from, to, values, steps),
        7 => sweep_stretch::<W, L, 7>(cycle, forces, cone, from, to, values, steps),
        8 => sweep_stretch::<W, L, 8>(cycle, forces, cone, from, to, values, steps),
        9 => sweep_stretch::<W, L, 9>(cycle, forces, cone, from, to, values, steps),
        10 => sweep_stretch::<W, L, 10>(cycle, forces, cone, from, to, values, steps),
        11 => sweep_stretch::<W, L, 11>(cycle, forces, cone, from, to, values, steps),
        12 => sweep_stretch::<W, L, 12>(cycle, forces, cone, from, to, values, steps),
        13 => sweep_stretch::<W, L, 13>(cycle, forces, cone, from, to, values, steps),
        14 => sweep_stretch::<W, L, 14>(cycle, forces, cone, from, to, values, steps),
        _ => sweep_stretch::<W, L, 15>(cycle, forces, cone, from, to, values, steps),
    }
}

// Evaluates the stretch that begins with a table, or where none does the table, and answers which is next.
fn sweep_next<W: Word, L: Ledger>(
    cycle: &GoldenCycle<'_>,
    forces: &Forces<W>,
    cone: &Cone,
    at: usize,
    values: &mut [W],
    steps: &mut Steps<L>,
) -> usize
    requires fit { CanSweep W.lanes W.lane_bit cycle.now forces.now cone.now }
    requires room { length values.old ≡ length cycle.now.netlist.now.drivers }
    requires read { ReadGolden W.lanes W.lane_bit cycle.now.row.now cone.now values.old }
    requires at { at < cone.now.table_count }
    ensures on { at < result }
    ensures most { result ≤ cone.now.table_count }
    ensures values { SweepsOn W.lanes W.lane_bit cycle.now forces.now cone.now at result values.old values.new }
    ensures read { ReadGolden W.lanes W.lane_bit cycle.now.row.now cone.now values.new }
    ensures cost { steps.new ≡ steps.old + (result - at) }
{
    let tables = cone.gates.as_slice();
    let ends = cone.stretches.as_slice();
    let end = ends[at] as usize;
    if at < end {
        let op = tables[at].gate.op;
        sweep_by_op(cycle, forces, cone, op, at, end, values, steps);
        end
    } else {
        sweep_one(cycle, forces, cone, at, values, steps);
        at + 1
    }
}

/// Evaluates the tables of a cone on values, in the order's sequence, with one step for each. The loop has the registers to itself
/// where this is called.
#[inline(never)]
pub fn sweep<W: Word, L: Ledger>(
    cycle: &GoldenCycle<'_>,
    forces: &Forces<W>,
    cone: &Cone,
    values: &mut [W],
    steps: &mut Steps<L>,
)
    requires fit { CanSweep W.lanes W.lane_bit cycle.now forces.now cone.now }
    requires room { length values.old ≡ length cycle.now.netlist.now.drivers }
    requires read { ReadGolden W.lanes W.lane_bit cycle.now.row.now cone.now values.old }
    ensures values { (k : ℕ) (x golden : Cycle) → k < W.lanes → IsPair cycle.now.netlist.now cycle.now.row.now x golden → AreForces W.lane_bit k forces.now.by_net.items x
        → Walked x (valued_in W.lane_bit k cycle.now.row.now cone.now.nets values.old) [] 0
        → (n : ℕ) → n < length cycle.now.netlist.now.drivers → valued_in W.lane_bit k cycle.now.row.now cone.now.nets values.new n ≡ net_value x n }
    ensures read { ReadGolden W.lanes W.lane_bit cycle.now.row.now cone.now values.new }
    ensures cost { steps.new ≤ steps.old + length cycle.now.order.now }
{
    let mut at = 0;
    'stretches: while at < cone.table_count {
        at = sweep_next(cycle, forces, cone, at, values, steps);
    }
}

/// Each latch of a cone takes what the net differs in that it reads.
pub fn take_ends<W: Word>(netlist: &Netlist, cone: &Cone, row: &[u64], values: &[W], raw: &mut [W])
    requires ends { AreEnds netlist.now cone.now }
    requires raw { DifferOnlyIn W.lanes W.lane_bit cone.now.latches raw.old }
    ensures taken { (k l : ℕ) → k < W.lanes → l < length netlist.now.latches → has cone.now.latches l ≡ true
        → bit_at (plane W.lane_bit k raw.new) l ≡ read_in W.lane_bit k row.now values.now (latch_at netlist.now.latches l).from.0 }
    ensures raw { DifferOnlyIn W.lanes W.lane_bit cone.now.latches raw.new }
{
    let latches = netlist.latches();
    let ends = cone.ends.as_slice();
    for at in 0..cone.end_count {
        let l = ends[at] as usize;
        raw[l] = value_word(row, values, latches[l].from.0);
    }
}
