// What tables give in each lane, over the values of nets.
ghost use Rattle.std.specs.Prelude.{◌≡◌, ◌<◌, ℕ, List, Bool, false, length, not, slice_index_or};
ghost use Rattle.circuit.specs.declared.parts.Driver.TheVariants.{Table as FromTable};
ghost use Rattle.circuit.specs.Sound.{IsNet};
ghost use Rattle.circuit.specs.Value.{bit_at, driven, driver_at, table_gives};
ghost use Rattle.lane_words.specs.Forces.{force_value};
ghost use Rattle.lane_words.specs.Gates.{IsGate, IsInside, gate_value, op_value, plane};
ghost use Rattle.lane_words.specs.declared.force.Force.{Force as ForceValue};
ghost use Rattle.place_set.specs.Places.{has};
ghost use Rattle.differential_kernel.specs.Parts.{AreForcesOf};

use crate::cone::ConeTable;
use crate::force::Forces;
use circuit::netlist::Netlist;
use circuit::parts::NetId;
use lane_words::force::forced_at;
use lane_words::gate::Gate;
use lane_words::table::{NetWords, net_word};
use lane_words::{Word, word_at};

// The values of all nets, a word for each.
#[derive(Drop)]
struct Plain<'a, W> {
    words: &'a [W],
}

impl<'a, W: Word> NetWords<W> for Plain<'a, W> {
    ghost read = { λ s k n. bit_at (plane W.lane_bit k s.words.now) n };

    fn word_of(&self, net: u32) -> W {
        word_at(self.words, net as usize)
    }
}

#[inline(always)]
fn inverse<W: Word>(a: W) -> W
    ensures { (k : ℕ) → k < W.lanes → W.lane_bit result k ≡ not (W.lane_bit a k) }
{
    a.xor(W::all(true))
}

// An operation by its number.
#[inline(always)]
fn op_word<W: Word>(op: u8, a: W, b: W) -> W
    requires { op < 16 }
    ensures { (k : ℕ) → k < W.lanes → W.lane_bit result k ≡ op_value op (W.lane_bit a k) (W.lane_bit b k) }
{
    match op {
        0 => W::all(false),
        1 => W::all(true),
        2 => a,
        3 => inverse(a),
        4 => b,
        5 => inverse(b),
        6 => a.xor(b),
        7 => inverse(a.xor(b)),
        8 => a.and(b),
        9 => inverse(a.and(b)),
        10 => a.and(inverse(b)),
        11 => inverse(a.and(inverse(b))),
        12 => inverse(a).and(b),
        13 => inverse(inverse(a).and(b)),
        14 => inverse(inverse(a).and(inverse(b))),
        _ => inverse(a).and(inverse(b)),
    }
}

/// What an operation gives of the nets that a gate reads.
#[inline(always)]
pub fn word_by_op<W: Word>(op: u8, gate: &Gate, values: &[W]) -> W
    requires narrow { op < 16 }
    requires inside { IsInside (length values.now) gate.now }
    ensures { (k : ℕ) → k < W.lanes
        → W.lane_bit result k ≡ op_value op (bit_at (plane W.lane_bit k values.now) gate.now.a) (bit_at (plane W.lane_bit k values.now) gate.now.b) }
{
    op_word(op, values[gate.a as usize], values[gate.b as usize])
}

// What a gate gives.
#[inline(always)]
fn gate_word<W: Word>(gate: &Gate, values: &[W]) -> W
    requires narrow { gate.now.op < 16 }
    requires inside { IsInside (length values.now) gate.now }
    ensures { (k : ℕ) → k < W.lanes → W.lane_bit result k ≡ gate_value gate.now (bit_at (plane W.lane_bit k values.now)) }
{
    word_by_op(gate.op, gate, values)
}

// What a table of more inputs gives. It stays out of the loops over those of fewer.
#[inline(never)]
fn wide_word<W: Word>(netlist: &Netlist, net: NetId, values: &[W]) -> W
    requires net { IsNet netlist.now net }
    requires table { (k : ℕ) × (driver_at netlist.now net.0 ≡ FromTable k) }
    ensures { (k : ℕ) (state inputs : List Bool) → k < W.lanes
        → W.lane_bit result k ≡ driven state inputs (table_gives netlist.now (bit_at (plane W.lane_bit k values.now))) (driver_at netlist.now net.0) }
{
    net_word(netlist, net, &Plain { words: values })
}

// What the table of a net gives.
#[inline(always)]
fn own_word<W: Word>(netlist: &Netlist, gate: &Gate, values: &[W]) -> W
    requires gate { IsGate netlist.now gate.now }
    requires nets { length values.now ≡ length netlist.now.drivers }
    ensures { (k : ℕ) (state inputs : List Bool) → k < W.lanes
        → W.lane_bit result k ≡ driven state inputs (table_gives netlist.now (bit_at (plane W.lane_bit k values.now))) (driver_at netlist.now gate.now.to) }
{
    if gate.op < 16 {
        gate_word(gate, values)
    } else {
        wide_word(netlist, NetId(gate.to), values)
    }
}

/// The value of a net by its table and its force, where the forces on nets that weren't named leave each net as it is.
#[inline(always)]
pub fn table_word<W: Word>(
    netlist: &Netlist,
    table: &ConeTable,
    forces: &Forces<W>,
    values: &[W],
) -> W
    requires gate { IsGate netlist.now table.now.gate }
    requires forces { AreForcesOf W.lanes W.lane_bit (length netlist.now.drivers) forces.now }
    requires nets { length values.now ≡ length netlist.now.drivers }
    requires named { table.now.forced ≡ false → has forces.now.named table.now.gate.to ≡ false }
    ensures { (k : ℕ) (d : ForceValue W) (state inputs : List Bool) → k < W.lanes
        → W.lane_bit result k ≡ force_value W.lane_bit k (slice_index_or forces.now.by_net.items table.now.gate.to d)
        (driven state inputs (table_gives netlist.now (bit_at (plane W.lane_bit k values.now))) (driver_at netlist.now table.now.gate.to)) }
{
    let own = own_word(netlist, &table.gate, values);
    if table.forced {
        forced_at(&forces.by_net, table.gate.to, own)
    } else {
        own
    }
}
