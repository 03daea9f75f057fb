// The nets that no table drives, and what latches take.
ghost use Rattle.std.specs.Prelude.{◌≡◌, ◌<◌, ℕ, false, length, map};
ghost use Rattle.circuit.specs.declared.parts.Driver.TheVariants.{Input, Latch as FromLatch};
ghost use Rattle.circuit.specs.Value.{bit_at, driver_at};
ghost use Rattle.place_set.specs.Places.{value_in};
ghost use Rattle.golden_run.specs.Events.{AreValuesOf, IsWiring, ordered_of};

use crate::values::{Values, change};
use crate::wiring::Wiring;
use circuit::parts::Latch;
use place_set::value_in_words;

// The bit at a place; behind the end it is 0.
fn bit_of(bits: &[bool], place: usize) -> bool
    ensures { result ≡ bit_at bits.now place }
{
    match bits.get(place) {
        Some(bit) => *bit,
        None => false,
    }
}

/// Shows what the latches hold on their nets.
pub(crate) fn show_latches(wiring: &Wiring<'_>, raw: &[bool], values: &mut Values)
    requires wiring { IsWiring wiring.now }
    requires values { AreValuesOf (ordered_of wiring.now) values.old }
    ensures values { AreValuesOf (ordered_of wiring.now) values.new }
    ensures shown { (n k : ℕ) → n < length wiring.now.netlist.now.drivers → driver_at wiring.now.netlist.now n ≡ FromLatch k → value_in values.new.row.items n ≡ bit_at raw.now k }
{
    for (l, latch) in wiring.netlist.latches().iter().enumerate() {
        change(wiring, latch.to, bit_of(raw, l), values);
    }
}

/// Shows the input bits of a cycle on the inputs' nets.
pub(crate) fn show_inputs(wiring: &Wiring<'_>, inputs: &[bool], values: &mut Values)
    requires wiring { IsWiring wiring.now }
    requires values { AreValuesOf (ordered_of wiring.now) values.old }
    ensures values { AreValuesOf (ordered_of wiring.now) values.new }
    ensures shown { (n k : ℕ) → n < length wiring.now.netlist.now.drivers → driver_at wiring.now.netlist.now n ≡ Input k → value_in values.new.row.items n ≡ bit_at inputs.now k }
    ensures others { (n k : ℕ) → driver_at wiring.now.netlist.now n ≡ FromLatch k → value_in values.new.row.items n ≡ value_in values.old.row.items n }
{
    for (i, net) in wiring.netlist.inputs().iter().enumerate() {
        change(wiring, *net, bit_of(inputs, i), values);
    }
}

/// Each latch takes the value of the net that it reads.
pub(crate) fn take_latches(latches: &[Latch], row: &[u64], raw: &mut [bool])
    requires { length raw.old ≡ length latches.now }
    ensures { raw.new ≡ map (λ latch. value_in row.now latch.from.0) latches.now }
{
    for (l, latch) in latches.iter().enumerate() {
        raw[l] = value_in_words(row, latch.from.0 as usize);
    }
}

/// Each latch takes its initial value.
pub(crate) fn take_starts(latches: &[Latch], raw: &mut [bool])
    requires { length raw.old ≡ length latches.now }
    ensures { raw.new ≡ map (λ latch. latch.start) latches.now }
{
    for (l, latch) in latches.iter().enumerate() {
        raw[l] = latch.start;
    }
}
