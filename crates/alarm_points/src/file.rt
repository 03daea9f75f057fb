// The points file.
ghost use Rattle.std.specs.Prelude.{◌≤◌, ◌^◌, IfOk, length};
ghost use Rattle.circuit.specs.Circuit.{Circuit};
ghost use Rattle.fm_base.specs.Answers.{Gives};
ghost use Rattle.fm_base.specs.Names.{Bytes};
ghost use Rattle.alarm_points.specs.Listed.{AreListed, IsHalfway, IsHeaderRead};
ghost use Rattle.alarm_points.specs.PointsFile.{points_of};
ghost use Rattle.alarm_points.specs.PointsKept.{ArePointsFor};

use crate::header::Header;
use crate::listed::{Listed, refusal};
use crate::{Points, PointsFault, PointsKind};
use circuit::netlist::Netlist;
use csv_rows::Rows;
use fm_base::Refusal;
use std::alloc::Global;

// The header, which is the first row.
fn read_header(rows: &mut Rows<'_>) -> Result<Header, Refusal<PointsFault>>
    ensures { IsHeaderRead rows.old rows.new result }
{
    let Some(first) = rows.next()? else {
        return Err(refusal(1, PointsKind::BadCsv));
    };
    let Some(header) = Header::of(&first) else {
        return Err(refusal(1, PointsKind::BadCsv));
    };
    Ok(header)
}

// Takes in the rows below the header, up to the first that has a fault.
fn list_rows(rows: &mut Rows<'_>, listed: &mut Listed<'_>) -> Result<(), Refusal<PointsFault>>
    requires nets { length listed.old.nets ≤ 2 ^ 18 }
    requires rows { length listed.old.rows ≤ 1024 }
    ensures { (c : Circuit) (bytes : Bytes) → IsHalfway c bytes listed.old rows.old → AreListed c bytes listed.new result }
{
    'each: while let Some(row) = rows.next()? {
        if let Some(kind) = listed.fault(&row) {
            return Err(refusal(listed.len() as u32 + 2, kind));
        }
        listed.add(row)?;
    }
    Ok(())
}

/// Reads the points of a netlist.
///
/// The header is `kind,net` or `goal,ftti,kind,net`. Each further row is an observation point or an alarm point: the word
/// `observe` or `alarm`, and a net. Under the first header all observation points are of one goal without a name and without
/// an interval of its own. Under the second each names its goal and the goal's interval in clock cycles, from 0 to 4,096, or
/// `-` for none; an alarm point has `-` in both fields.
pub fn read_points(
    alloc: Global,
    bytes: &[u8],
    net: &Netlist,
) -> Result<Points, Refusal<PointsFault>>
    ensures answers { Gives (points_of net.now bytes.now) result }
    ensures sound { IfOk result (λ points. ArePointsFor net.now points) }
{
    let mut rows = Rows::new(alloc, bytes);
    let header = read_header(&mut rows)?;
    let mut listed = Listed::new(alloc, net, header)?;
    list_rows(&mut rows, &mut listed)?;
    listed.finish()
}
