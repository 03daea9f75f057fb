// One row of a held file.
ghost use Rattle.std.specs.Prelude.{◌≡◌, map, option_map, IfOk};
ghost use Rattle.std.specs.List.{list_any};
ghost use Rattle.csv_rows.specs.Rows.{field, same_field};
ghost use Rattle.fm_base.specs.Text.{is_bit as is_bit_text};
ghost use Rattle.held_inputs.specs.HeldFile.{held_row as held_of_row, input_named as input_of};
ghost use Rattle.held_inputs.specs.Steps.{fault_by, has_no_cycle_before as no_cycle_before, is_bad_before as bad_before};

use crate::{HeldKind, HeldList};
use circuit::netlist::Netlist;
use circuit::parts::NetId;
use coverage_claim::Held;
use csv_rows::Row;
use fm_base::Seq;
use fm_base::field::plain_number;
use room::NoRoom;
use std::alloc::Global;

const MOST_ROWS: usize = 1024;

const MOST_CYCLES: u32 = 65_535;

// The input of a name, where it stands.
fn find_input<'a>(net: &'a Netlist, name: &[u8]) -> Option<&'a NetId>
    ensures { option_map (λ input. input.now) result ≡ input_of net.now name.now }
{
    net.inputs().iter().find(|input| name == net.name(**input))
}

// The input of a name.
fn input_named(net: &Netlist, name: &[u8]) -> Option<NetId>
    ensures { result ≡ input_of net.now name.now }
{
    match find_input(net, name) {
        Some(input) => Some(*input),
        None => None,
    }
}

// Whether a field is a bit.
fn is_bit(row: &Row, k: usize) -> bool
    ensures { result ≡ is_bit_text (field row.now k) }
{
    row.has_word(b"0", k) || row.has_word(b"1", k)
}

fn has_input(rows: &[Row], row: &Row) -> bool
    ensures { result ≡ list_any (same_field 0 row.now) rows.now }
{
    rows.iter().any(|other| row.field(0) == other.field(0))
}

// Whether the value before is neither a dash nor a bit.
fn is_bad_before(row: &Row) -> bool
    ensures { result ≡ bad_before row.now }
{
    !row.has_word(b"-", 2) && !is_bit(row, 2)
}

// Whether it is given though there is no cycle before.
fn has_no_cycle_before(row: &Row) -> bool
    ensures { result ≡ no_cycle_before row.now }
{
    !row.has_word(b"-", 2) && row.has_word(b"0", 1)
}

/// What is wrong with a row below these: the least kind.
pub(crate) fn fault(net: &Netlist, rows: &[Row], row: &Row) -> Option<HeldKind>
    ensures { result ≡ fault_by net.now rows.now row.now }
{
    if row.len() != 4 {
        Some(HeldKind::BadCsv)
    } else if input_named(net, row.field(0)).is_none() {
        Some(HeldKind::UnknownInput)
    } else if has_input(rows, row) {
        Some(HeldKind::Twice)
    } else if rows.len() >= MOST_ROWS {
        Some(HeldKind::TooLarge)
    } else if plain_number(row.field(1), MOST_CYCLES).is_none() {
        Some(HeldKind::BadFrom)
    } else if is_bad_before(row) {
        Some(HeldKind::BadBefore)
    } else if has_no_cycle_before(row) {
        Some(HeldKind::NoCycleBefore)
    } else if !is_bit(row, 3) {
        Some(HeldKind::BadValue)
    } else {
        None
    }
}

// The held input of a row.
fn held_row(net: &Netlist, row: &Row) -> Held
    ensures { result ≡ held_of_row net.now row.now }
{
    let before = if row.has_word(b"-", 2) {
        None
    } else {
        Some(row.has_word(b"1", 2))
    };
    Held {
        net: input_named(net, row.field(0)).unwrap_or(NetId(0)),
        from: plain_number(row.field(1), MOST_CYCLES).unwrap_or(0),
        before,
        value: row.has_word(b"1", 3),
    }
}

/// The held inputs of rows.
pub(crate) fn held_rows(alloc: Global, net: &Netlist, rows: &[Row]) -> Result<HeldList, NoRoom>
    ensures { IfOk result (λ held. held ≡ map (held_of_row net.now) rows.now) }
{
    let mut held = Seq::new(alloc);
    for row in rows {
        held.push(held_row(net, row))?;
    }
    Ok(held)
}
