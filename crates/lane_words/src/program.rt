// The flat arrays of a netlist.
ghost use Rattle.std.specs.Prelude.{◌≡◌, ◌<◌, ◌≤◌, ◌∷◌, [], ℕ, Bool, IfOk, length, take, slice_index_or};
ghost use Rattle.circuit.specs.declared.parts.Driver.TheVariants.{Table as FromTable};
ghost use Rattle.circuit.specs.Table.{table_value};
ghost use Rattle.circuit.specs.Value.{driver_at};
ghost use Rattle.circuit.specs.Sound.{IsNet};
ghost use Rattle.circuit.specs.Order.{IsOrder};
ghost use Rattle.lane_words.specs.Gates.{AreOps, IsGate, IsOp, IsProgram, op_value, pick};

use crate::gate::{Gate, Masks};
use crate::word::Word;
use circuit::meaning::value_of_table;
use circuit::netlist::Netlist;
use circuit::parts::{Driver, NetId, Table};
use room::{NoRoom, push, with_room};
use std::alloc::Global;

fn masks_of<W: Word>(op: u32) -> Masks<W>
    ensures { IsOp W.lanes W.lane_bit op result }
{
    Masks {
        c0: W::all(op % 2 == 1),
        c1: W::all(op / 2 % 2 == 1),
        c2: W::all(op / 4 % 2 == 1),
        c3: W::all(op / 8 % 2 == 1),
    }
}

/// The masks of all operations.
pub fn make_ops<W: Word>(alloc: Global) -> Result<Vec<Masks<W>>, NoRoom>
    ensures { IfOk result (λ masks. AreOps W.lanes W.lane_bit masks.items) }
{
    let mut masks = Vec::new(alloc);
    for op in 0..16 {
        push(&mut masks, masks_of(op))?;
    }
    Ok(masks)
}

/// The operation that gives these four bits.
pub fn op_of(low: bool, a: bool, b: bool, both: bool) -> u8
    ensures means { (p q : Bool) → op_value result p q ≡ pick low a b both p q }
    ensures fits { result < 16 }
{
    let mut op = 0;
    if low {
        op += 1;
    }
    if low != a {
        op += 2;
    }
    if low != b {
        op += 4;
    }
    if (low != a) != (b != both) {
        op += 8;
    }
    op
}

fn value_at(table: &Table, p: bool, q: bool) -> bool
    requires { length table.now.ins ≤ 2 }
    ensures { result ≡ table_value table.now (take (length table.now.ins) (p ∷ q ∷ [])) }
{
    let bits = [p, q];
    value_of_table(table, &bits[..table.ins.len()])
}

fn gate_of_table(table: &Table, to: u32) -> Gate
    requires { length table.now.ins ≤ 2 }
    ensures to { result.to ≡ to }
    ensures op { result.op < 16 }
    ensures a { result.a ≡ (slice_index_or table.now.ins 0 (record { 0 = to })).0 }
    ensures b { result.b ≡ (slice_index_or table.now.ins 1 (record { 0 = to })).0 }
    ensures means { (p q : Bool) → op_value result.op p q ≡ table_value table.now (take (length table.now.ins) (p ∷ q ∷ [])) }
{
    let ins = table.ins.as_slice();
    let op = op_of(
        value_at(table, false, false),
        value_at(table, true, false),
        value_at(table, false, true),
        value_at(table, true, true),
    );
    let a = if ins.len() > 0 { ins[0].0 } else { to };
    let b = if ins.len() > 1 { ins[1].0 } else { to };
    Gate { to, a, b, op }
}

/// The gate of a net's table; a wide table's has no operation.
pub fn gate_of(netlist: &Netlist, net: NetId) -> Gate
    requires net { IsNet netlist.now net }
    requires table { (k : ℕ) × (driver_at netlist.now net.0 ≡ FromTable k) }
    ensures to { result.to ≡ net.0 }
    ensures gate { IsGate netlist.now result }
{
    if let Driver::Table(k) = netlist.driver(net) {
        let table = netlist.table(k);
        if table.ins.len() <= 2 {
            return gate_of_table(table, net.0);
        }
    }
    Gate {
        to: net.0,
        a: net.0,
        b: net.0,
        op: 16,
    }
}

/// The gates of all tables, in the order's sequence.
pub fn make_gates(alloc: Global, netlist: &Netlist, order: &[NetId]) -> Result<Vec<Gate>, NoRoom>
    requires order { IsOrder netlist.now order.now }
    ensures { IfOk result (λ gates. IsProgram netlist.now order.now gates.items) }
{
    let mut gates = with_room(alloc, netlist.tables())?;
    for net in order {
        push(&mut gates, gate_of(netlist, *net))?;
    }
    Ok(gates)
}
