// The held file.
ghost use Rattle.std.specs.Prelude.{◌≡◌, ◌≤◌, IfOk, length};
ghost use Rattle.csv_rows.specs.Rows.{is_row};
ghost use Rattle.fm_base.specs.Answers.{Gives};
ghost use Rattle.fm_base.specs.Names.{Bytes};
ghost use Rattle.held_inputs.specs.HeldFile.{held_of};
ghost use Rattle.held_inputs.specs.HeldKept.{AreHeldFor};
ghost use Rattle.held_inputs.specs.Steps.{AreListed, IsHalfway, IsHeaderRead, header};

use crate::row::{fault, held_rows};
use crate::{HeldFault, HeldKind, HeldList};
use circuit::netlist::Netlist;
use csv_rows::{Row, Rows};
use fm_base::{Refusal, Seq};
use std::alloc::Global;

const HEADER: [&[u8]; 4] = [b"input", b"from", b"before", b"value"];

// The refusal of a file at a row.
fn refusal(row: u32, kind: HeldKind) -> Refusal<HeldFault>
    ensures { result ≡ Refusal.Fault (record { row = row; kind = kind }) }
{
    Refusal::Fault(HeldFault { row, kind })
}

fn is_header(row: &Row) -> bool
    ensures { result ≡ is_row header row.now }
{
    row.is_row(&HEADER)
}

// Reads the header, which is the first row.
fn read_header(rows: &mut Rows<'_>) -> Result<(), Refusal<HeldFault>>
    ensures { IsHeaderRead rows.old rows.new result }
{
    let Some(first) = rows.next()? else {
        return Err(refusal(1, HeldKind::BadCsv));
    };
    if !is_header(&first) {
        return Err(refusal(1, HeldKind::BadCsv));
    }
    Ok(())
}

// Takes in the rows below the header, up to the first that has a fault.
fn list_rows(
    rows: &mut Rows<'_>,
    net: &Netlist,
    listed: &mut Seq<Row>,
) -> Result<(), Refusal<HeldFault>>
    requires { length listed.old ≤ 1024 }
    ensures { (bytes : Bytes) → IsHalfway net.now bytes listed.old rows.old → AreListed net.now bytes listed.new result }
{
    'each: while let Some(row) = rows.next()? {
        if let Some(kind) = fault(net, listed.as_slice(), &row) {
            return Err(refusal(listed.len() as u32 + 2, kind));
        }
        listed.push(row)?;
    }
    Ok(())
}

/// Reads the inputs of a netlist that are held.
///
/// The header is `input,from,before,value`. Each further row has the name of an input, the first cycle from 0 to 65,535 in which it has
/// its value, the value that it has in the cycles before, `0` or `1`, or `-` where it may have any, and its value, `0` or `1`. No input
/// stands twice, and there are at most 1,024 rows.
pub fn read_held(alloc: Global, bytes: &[u8], net: &Netlist) -> Result<HeldList, Refusal<HeldFault>>
    ensures answers { Gives (held_of net.now bytes.now) result }
    ensures sound { IfOk result (λ held. AreHeldFor net.now held) }
{
    let mut rows = Rows::new(alloc, bytes);
    read_header(&mut rows)?;
    let mut listed = Seq::new(alloc);
    list_rows(&mut rows, net, &mut listed)?;
    Ok(held_rows(alloc, net, listed.as_slice())?)
}
