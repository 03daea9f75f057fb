// What a table gives over the values of all nets.
ghost use Rattle.std.specs.Prelude.{◌≡◌, ◌<◌, ℕ, List, Bool, length};
ghost use Rattle.circuit.specs.declared.parts.Driver.TheVariants.{Table as FromTable};
ghost use Rattle.circuit.specs.Order.{net_at};
ghost use Rattle.circuit.specs.Sound.{IsNet};
ghost use Rattle.circuit.specs.Value.{driven, driver_at, table_gives};
ghost use Rattle.lane_words.specs.Bits.{either};
ghost use Rattle.lane_words.specs.Gates.{op_value};
ghost use Rattle.place_set.specs.Places.{value_in};
ghost use Rattle.golden_run.specs.Events.{IsWiring};

use crate::wiring::Wiring;
use circuit::netlist::Netlist;
use circuit::parts::NetId;
use lane_words::Word;
use lane_words::table::{NetWords, net_word};
use place_set::value_in_words;

// The values of all nets, the same in each lane.
#[derive(Drop)]
struct Row<'a> {
    bits: &'a [u64],
}

impl<'a> NetWords<u64> for Row<'a> {
    ghost read = { λ s k n. value_in s.bits.now n };

    fn word_of(&self, net: u32) -> u64 {
        Word::all(value_in_words(self.bits, net as usize))
    }
}

// Exactly one of two bits.
fn one_of(a: bool, b: bool) -> bool
    ensures { result ≡ either a b }
{
    a != b
}

// An operation of two bits, by its number.
fn op_bit(op: u8, a: bool, b: bool) -> bool
    ensures { result ≡ op_value op a b }
{
    let first = one_of(op % 2 == 1, op / 2 % 2 == 1 && a);
    let second = one_of(op / 4 % 2 == 1, op / 8 % 2 == 1 && a);
    one_of(first, b && second)
}

// What a table of more inputs gives. It stays out of the loop over those of fewer.
#[inline(never)]
fn wide_bit(netlist: &Netlist, net: NetId, row: &[u64]) -> bool
    requires net { IsNet netlist.now net }
    requires table { (k : ℕ) × (driver_at netlist.now net.0 ≡ FromTable k) }
    ensures { (state inputs : List Bool) → result ≡ driven state inputs (table_gives netlist.now (value_in row.now)) (driver_at netlist.now net.0) }
{
    let word: u64 = net_word(netlist, net, &Row { bits: row });
    word.get(0)
}

/// What the table at a place of the order gives.
pub(crate) fn gate_bit(wiring: &Wiring<'_>, place: usize, row: &[u64]) -> bool
    requires wiring { IsWiring wiring.now }
    requires place { place < length wiring.now.order.now }
    ensures { (state inputs : List Bool) → result ≡ driven state inputs (table_gives wiring.now.netlist.now (value_in row.now)) (driver_at wiring.now.netlist.now (net_at wiring.now.order.now place).0) }
{
    let gate = &wiring.gates[place];
    if gate.op < 16 {
        let a = value_in_words(row, gate.a as usize);
        let b = value_in_words(row, gate.b as usize);
        op_bit(gate.op, a, b)
    } else {
        wide_bit(wiring.netlist, wiring.order[place], row)
    }
}
