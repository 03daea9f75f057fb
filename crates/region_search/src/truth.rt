// Tables by their truth tables, in an order.
ghost use Rattle.std.specs.Prelude.{◌≡◌, ◌≢◌, ◌<◌, ◌≤◌, ◌-◌, ◌^◌, ℕ, Bool, false, map, take, length, All, Contains, IfOk, MatchOption};
ghost use Rattle.circuit.specs.Order.{IsOrder, net_at};
ghost use Rattle.circuit.specs.Sound.{IsNet, IsTable};
ghost use Rattle.circuit.specs.Table.{table_value};
ghost use Rattle.circuit.specs.Value.{driver_at, table_at};
ghost use Rattle.circuit.specs.declared.parts.Driver.TheVariants.{Table as FromTable};
ghost use Rattle.fm_base.specs.Planes.{bit};
ghost use Rattle.region_search.specs.Going.{ArePlaced, IsPlacedTable};
ghost use Rattle.region_search.specs.Truth.{AreReads, IsTruthOf, row_of};

use crate::search::TablePlace;
use circuit::meaning::value_of_table;
use circuit::netlist::Netlist;
use circuit::parts::{Driver, NetId, Table};
use netlist_levels::Order;
use room::{NoRoom, filled, push, with_room};
use std::alloc::Global;

// Where a net stands first.
pub(crate) fn place_of(nets: &[NetId], net: NetId) -> Option<usize>
    ensures { MatchOption result (All (λ other. other.0 ≢ net.0) nets.now) (λ place. (place < length nets.now) × ((net_at nets.now place).0 ≡ net.0)) }
{
    nets.iter().position(|other| other.0 == net.0)
}

// ---- the nets that are read

// Nets of a list, each once: how many there are, and the first six of them. More than six count as seven.
#[derive(Clone, Copy)]
struct Reads {
    count: usize,
    nets: [NetId; 6],
}

// The nets of a list.
fn reads_of(ins: &[NetId]) -> Reads
    ensures { AreReads ins.now result.count result.nets }
{
    let mut nets = [NetId(0); 6];
    let mut count = 0;
    for net in ins {
        if place_of(&nets[..count], *net).is_some() {
            continue;
        }
        if count == 6 {
            return Reads { count: 7, nets };
        }
        nets[count] = *net;
        count += 1;
    }
    Reads { count, nets }
}

// ---- rows

// How many rows the truth table of so many nets has.
fn rows_of(count: usize) -> u32
    requires { count ≤ 6 }
    ensures value { result ≡ 2 ^ count }
    ensures few { result ≤ 64 }
{
    1 << count
}

// A digit of a row's number; the lowest is that of the last net.
fn digit(row: u32, place: usize) -> bool
    requires { place < 6 }
    ensures { result ≡ bit row place }
{
    (row >> place) & 1 == 1
}

// The value of a net in a row of the truth table of some nets; the first of them is the highest digit of the row's number.
fn value_in(reads: &[NetId], row: u32, net: NetId) -> bool
    requires few { length reads.now ≤ 6 }
    requires there { Contains reads.now net }
    ensures { (values : ℕ → Bool) → row ≡ row_of values reads.now → result ≡ values net.0 }
{
    match place_of(reads, net) {
        Some(place) => digit(row, reads.len() - 1 - place),
        None => false,
    }
}

// What a table gives in a row. `bits` are overwritten, one for each net that it reads.
fn gives_in(table: &Table, reads: &[NetId], row: u32, bits: &mut [bool]) -> bool
    requires few { length reads.now ≤ 6 }
    requires whole { All (Contains reads.now) table.now.ins }
    requires size { length bits.old ≡ length table.now.ins }
    ensures { (values : ℕ → Bool) → row ≡ row_of values reads.now → result ≡ table_value table.now (map (λ net. values net.0) table.now.ins) }
{
    let ins = table.ins.as_slice();
    for i in 0..bits.len() {
        bits[i] = value_in(reads, row, ins[i]);
    }
    value_of_table(table, bits)
}

// A truth table with the value of one row more.
fn with_row(truth: u64, row: u32, value: bool) -> u64
    requires small { row < 64 }
    requires clear { bit truth row ≡ false }
    ensures there { bit result row ≡ value }
    ensures others { (r : ℕ) → r ≢ row → bit result r ≡ bit truth r }
{
    if value { truth | 1 << row } else { truth }
}

// The truth table, in terms of nets among which are all that the table reads.
fn truth_of(table: &Table, reads: &[NetId], bits: &mut [bool]) -> u64
    requires few { length reads.now ≤ 6 }
    requires whole { All (Contains reads.now) table.now.ins }
    requires size { length bits.old ≡ length table.now.ins }
    ensures { IsTruthOf table.now reads.now result }
{
    let mut truth = 0;
    for row in 0..rows_of(reads.len()) {
        let value = gives_in(table, reads, row, bits);
        truth = with_row(truth, row, value);
    }
    truth
}

// ---- tables

// The truth table, unless too many nets are read.
fn truth_of_few(alloc: Global, table: &Table, reads: &Reads) -> Result<u64, NoRoom>
    requires { AreReads table.now.ins reads.now.count reads.now.nets }
    ensures { IfOk result (λ truth. reads.now.count ≤ 6 → IsTruthOf table.now (take reads.now.count reads.now.nets) truth) }
{
    if reads.count > 6 {
        return Ok(0);
    }
    let mut bits = filled(alloc, false, table.ins.as_slice().len())?;
    Ok(truth_of(table, &reads.nets[..reads.count], &mut bits))
}

// The table that drives a net, in terms of the nets that it reads, each once.
fn placed_table(alloc: Global, netlist: &Netlist, own: NetId) -> Result<TablePlace, NoRoom>
    requires own { IsNet netlist.now own }
    requires apart { (k : ℕ) → driver_at netlist.now own.0 ≡ FromTable k → All (λ net. net.0 ≢ own.0) (table_at netlist.now.tables k).ins }
    ensures { IfOk result (IsPlacedTable netlist.now own) }
{
    let Driver::Table(k) = netlist.driver(own) else {
        return Ok(TablePlace {
            own,
            count: 0,
            reads: [own; 6],
            truth: 0,
        });
    };
    let table = netlist.table(k);
    let reads = reads_of(table.ins.as_slice());
    let truth = truth_of_few(alloc, table, &reads)?;
    Ok(TablePlace {
        own,
        count: reads.count,
        reads: reads.nets,
        truth,
    })
}

/// The tables of a netlist by their places in an order, each with its truth table. The time of a table is that of looking, in each
/// row of its truth table, at each of its own rows.
pub fn placed_tables(
    alloc: Global,
    netlist: &Netlist,
    order: &Order,
) -> Result<Vec<TablePlace>, NoRoom>
    requires { IsOrder netlist.now order.now }
    ensures { IfOk result (λ tables. ArePlaced (record { circuit = netlist.now; order = order.now }) tables.items) }
{
    let mut tables = with_room(alloc, netlist.tables())?;
    for net in order.nets() {
        push(&mut tables, placed_table(alloc, netlist, *net)?)?;
    }
    Ok(tables)
}
