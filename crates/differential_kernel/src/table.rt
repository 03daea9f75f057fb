// What tables give in each lane, over values that are read as golden values and what differs.
ghost use Rattle.std.specs.Prelude.{◌≡◌, ◌<◌, ◌≤◌, ◌/◌, ◌%◌, ◌==◌, ◌&&◌, ℕ, List, Bool, length, slice_index_or};
ghost use Rattle.circuit.specs.declared.parts.Driver.TheVariants.{Table as FromTable};
ghost use Rattle.circuit.specs.Sound.{IsNet};
ghost use Rattle.circuit.specs.Value.{bit_at, driven, driver_at, table_gives};
ghost use Rattle.place_set.specs.Places.{value_in};
ghost use Rattle.lane_words.specs.Bits.{either};
ghost use Rattle.lane_words.specs.Forces.{force_value};
ghost use Rattle.lane_words.specs.Gates.{AreOps, IsGate, IsInside, gate_value, plane};
ghost use Rattle.lane_words.specs.declared.force.Force.{Force as ForceValue};
ghost use Rattle.differential_kernel.specs.Differences.{read_in};
ghost use Rattle.differential_kernel.specs.Forced.{evaluated_in};
ghost use Rattle.differential_kernel.specs.Parts.{AreForcesOf};
ghost use Rattle.differential_kernel.specs.Walk.{IsGivenAt};

use crate::difference::{forced_difference, golden_word, named_difference, value_word};
use crate::force::Forces;
use circuit::netlist::Netlist;
use circuit::parts::NetId;
use lane_words::Word;
use lane_words::gate::{Gate, Masks};
use lane_words::table::{NetWords, net_word};
use place_set::value_in_words;

// The values of all nets: the golden ones, and what differs from them.
#[derive(Drop)]
struct Values<'a, W> {
    row: &'a [u64],
    words: &'a [W],
}

impl<'a, W: Word> NetWords<W> for Values<'a, W> {
    ghost read = { λ s k n. read_in W.lane_bit k s.row.now s.words.now n };

    fn word_of(&self, net: u32) -> W {
        value_word(self.row, self.words, net)
    }
}

// Exactly one of two bits.
#[inline(always)]
fn one_of(a: bool, b: bool) -> bool
    ensures { result ≡ either a b }
{
    a != b
}

// What a net differs in, of those that there are.
#[inline(always)]
fn difference_of<W: Word>(words: &[W], net: u32) -> W
    requires { net < length words.now }
    ensures { (k : ℕ) → k < W.lanes → W.lane_bit result k ≡ bit_at (plane W.lane_bit k words.now) net }
{
    words[net as usize]
}

// Where an operation has no product of its bits, its result differs in what its inputs do, whatever their golden values.
#[inline(always)]
fn sum_difference<W: Word>(op: u8, ops: &[Masks<W>], a: W, b: W) -> W
    requires ops { AreOps W.lanes W.lane_bit ops.now }
    requires narrow { op < 16 }
    ensures { (k : ℕ) → k < W.lanes → W.lane_bit result k ≡ either ((op / 2 % 2 == 1) && W.lane_bit a k) ((op / 4 % 2 == 1) && W.lane_bit b k) }
{
    let masks = &ops[op as usize];
    masks.c1.and(a).xor(masks.c2.and(b))
}

// Where it has one, it also differs in what differs in one input where the other is 1: `ga` and `gb` are the golden bits.
#[inline(always)]
fn product_difference<W: Word>(op: u8, ga: bool, gb: bool, a: W, b: W) -> W
    ensures { (k : ℕ) → k < W.lanes
        → W.lane_bit result k
        ≡ either (either (op / 2 % 2 == 1) gb && W.lane_bit a k) (W.lane_bit b k && either (either (op / 4 % 2 == 1) ga) (W.lane_bit a k)) }
{
    let first: W = W::all(one_of(op / 2 % 2 == 1, gb));
    let second: W = W::all(one_of(op / 4 % 2 == 1, ga));
    first.and(a).xor(b.and(second.xor(a)))
}

// What a gate gives differs in this from what it gives over golden values.
#[inline(always)]
fn gate_difference<W: Word>(gate: &Gate, ops: &[Masks<W>], row: &[u64], words: &[W]) -> W
    requires ops { AreOps W.lanes W.lane_bit ops.now }
    requires narrow { gate.now.op < 16 }
    requires inside { IsInside (length words.now) gate.now }
    ensures { (k : ℕ) → k < W.lanes
        → W.lane_bit result k ≡ either (gate_value gate.now (read_in W.lane_bit k row.now words.now)) (gate_value gate.now (value_in row.now)) }
{
    let a = difference_of(words, gate.a);
    let b = difference_of(words, gate.b);
    if gate.op < 8 {
        sum_difference(gate.op, ops, a, b)
    } else {
        let ga = value_in_words(row, gate.a as usize);
        let gb = value_in_words(row, gate.b as usize);
        product_difference(gate.op, ga, gb, a, b)
    }
}

// What a net differs in by its table of at most two inputs and its force.
#[inline(always)]
fn narrow_difference<W: Word>(
    gate: &Gate,
    ops: &[Masks<W>],
    row: &[u64],
    forces: &Forces<W>,
    words: &[W],
) -> W
    requires ops { AreOps W.lanes W.lane_bit ops.now }
    requires narrow { gate.now.op < 16 }
    requires inside { IsInside (length words.now) gate.now }
    requires forces { AreForcesOf W.lanes W.lane_bit (length words.now) forces.now }
    ensures { (k : ℕ) (d : ForceValue W) → k < W.lanes → gate_value gate.now (value_in row.now) ≡ value_in row.now gate.now.to
        → W.lane_bit result k
        ≡ either (force_value W.lane_bit k (slice_index_or forces.now.by_net.items gate.now.to d) (gate_value gate.now (read_in W.lane_bit k row.now words.now)))
        (value_in row.now gate.now.to) }
{
    let apart = gate_difference(gate, ops, row, words);
    if forces.named.has(gate.to as usize) {
        let golden: W = golden_word(row, gate.to);
        forced_difference(row, &forces.by_net, gate.to, golden.xor(apart))
    } else {
        apart
    }
}

// What a table of more inputs gives. It stays out of the loops over those of fewer.
#[inline(never)]
fn wide_word<W: Word>(netlist: &Netlist, net: NetId, row: &[u64], words: &[W]) -> W
    requires net { IsNet netlist.now net }
    requires table { (k : ℕ) × (driver_at netlist.now net.0 ≡ FromTable k) }
    ensures { (k : ℕ) (state inputs : List Bool) → k < W.lanes
        → W.lane_bit result k ≡ driven state inputs (table_gives netlist.now (read_in W.lane_bit k row.now words.now)) (driver_at netlist.now net.0) }
{
    net_word(netlist, net, &Values { row, words })
}

// What its net differs in. Were this called, the result of every table would go through memory.
#[inline(always)]
fn wide_difference<W: Word>(
    netlist: &Netlist,
    net: NetId,
    row: &[u64],
    forces: &Forces<W>,
    words: &[W],
) -> W
    requires net { IsNet netlist.now net }
    requires table { (k : ℕ) × (driver_at netlist.now net.0 ≡ FromTable k) }
    requires forces { AreForcesOf W.lanes W.lane_bit (length netlist.now.drivers) forces.now }
    ensures { (k : ℕ) (d : ForceValue W) (state inputs : List Bool) → k < W.lanes
        → W.lane_bit result k ≡ evaluated_in W.lane_bit k netlist.now row.now forces.now.by_net.items d state inputs words.now net.0 }
{
    let own = wide_word(netlist, net, row, words);
    named_difference(row, forces, net.0, own)
}

/// What a net differs in by its table and its force, where its golden value is what its table gives.
#[inline(always)]
pub fn table_difference<W: Word>(
    netlist: &Netlist,
    gate: &Gate,
    ops: &[Masks<W>],
    row: &[u64],
    forces: &Forces<W>,
    words: &[W],
) -> W
    requires ops { AreOps W.lanes W.lane_bit ops.now }
    requires gate { IsGate netlist.now gate.now }
    requires forces { AreForcesOf W.lanes W.lane_bit (length netlist.now.drivers) forces.now }
    requires nets { length words.now ≡ length netlist.now.drivers }
    ensures { (k : ℕ) (d : ForceValue W) (state inputs : List Bool) → k < W.lanes → IsGivenAt netlist.now row.now gate.now.to
        → W.lane_bit result k ≡ evaluated_in W.lane_bit k netlist.now row.now forces.now.by_net.items d state inputs words.now gate.now.to }
{
    if gate.op < 16 {
        narrow_difference(gate, ops, row, forces, words)
    } else {
        wide_difference(netlist, NetId(gate.to), row, forces, words)
    }
}
