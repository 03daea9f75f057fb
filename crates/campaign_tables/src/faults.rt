// The table of the faults of kept batches.
ghost use Rattle.std.specs.Prelude.{◌≡◌, ◌<◌, ◌/◌, List, length, flat_map};
ghost use Rattle.fm_base.specs.Lists.{below};
ghost use Rattle.campaign_plan.specs.Analysis.{batch_count, fault_count};
ghost use Rattle.campaign_plan.specs.Batches.{Entry};
ghost use Rattle.result_merge.specs.Tables.{at_batch, planes_table};
ghost use Rattle.fm_shelf.specs.Sink.{Sends};
ghost use Rattle.campaign_tables.specs.Csv.{csv_row};
ghost use Rattle.campaign_tables.specs.FaultTable.{fault_table};
ghost use Rattle.campaign_tables.specs.FaultSteps.{column_names, row_if_kept};

use crate::row::write_row;
use campaign_plan::Plan;
use fm_shelf::shelf::{Failed, Sink};
use fm_shelf::whole::write_all;
use result_merge::PlanesTable;

const LANES: u32 = 64;

// Writes the names of the columns.
fn write_columns<O: Sink>(out: &mut O) -> Result<(), Failed>
    ensures { Sends (O.seen out.old) (O.seen out.new) (csv_row column_names) result }
{
    write_all(
        out,
        b"fault,net,kind,part,role,covered,class,dangerous,noticed,weight\n",
    )
}

// Writes the row of fault `i`, where its batch is kept.
fn write_if_kept<O: Sink>(
    plan: &Plan,
    table: &PlanesTable,
    i: u32,
    out: &mut O,
) -> Result<(), Failed>
    requires fault { i < fault_count plan.now }
    requires table { length table.now ≡ batch_count plan.now }
    ensures { Sends (O.seen out.old) (O.seen out.new)
        (row_if_kept plan.now (at_batch table.now (i / 64)) i) result }
{
    match table.get(i / LANES) {
        Some(planes) => write_row(plan, i, planes, out),
        None => Ok(()),
    }
}

// Writes the rows of the faults of the kept batches.
fn write_rows<O: Sink>(plan: &Plan, table: &PlanesTable, out: &mut O) -> Result<(), Failed>
    requires { length table.now ≡ batch_count plan.now }
    ensures { Sends (O.seen out.old) (O.seen out.new)
        (flat_map (λ i. row_if_kept plan.now (at_batch table.now (i / 64)) i) (below (fault_count plan.now))) result }
{
    for i in 0..plan.faults().len() {
        write_if_kept(plan, table, i, out)?;
    }
    Ok(())
}

/// Writes the table of the faults of the batches that have planes in `table`: the names of the columns, and a row for each fault
/// in list order. It takes no memory, and its time is that of the fault list.
pub fn write_fault_table<O: Sink>(
    plan: &Plan,
    table: &PlanesTable,
    out: &mut O,
) -> Result<(), Failed>
    requires { length table.now ≡ batch_count plan.now }
    ensures { (entries : List Entry) → table.now ≡ planes_table (batch_count plan.now) entries
        → Sends (O.seen out.old) (O.seen out.new) (fault_table plan.now entries) result }
{
    write_columns(out)?;
    write_rows(plan, table, out)
}
