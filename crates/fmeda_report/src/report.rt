// The report of a campaign, and the summary of a generated one.
ghost use Rattle.std.specs.Prelude.{◌≡◌, ◌<◌, ℕ, length};
ghost use Rattle.campaign_plan.specs.Analysis.{batch_count, part_count};
ghost use Rattle.fmeda_report.specs.Report.{report, summary};
ghost use Rattle.fmeda_report.specs.Rooms.{room_for};
ghost use Rattle.result_file.specs.RowPlanes.{HoldEachOnce, planes_in};
ghost use Rattle.fm_shelf.specs.Sink.{Sends};
ghost use Rattle.fmeda_report.specs.Tallies.{planes_in_order, tally_at, AreAmountsSmall, AreTallied};

use crate::faults::write_faults;
use crate::metrics::write_metrics;
use crate::parts::write_parts;
use crate::planes::{all_sums, place_planes};
use crate::sizes::write_sizes;
use crate::space::{ReportSpace, Tallies};
use crate::tally::{Tally, tally_faults};
use campaign_plan::{Outcome, Plan};
use fm_shelf::lines::{number_word, write_line};
use fm_shelf::shelf::{Failed, Sink};
use result_file::Row;

/// Writes the report of a campaign, for these planes of its batches, which stand by their number. It takes no memory, and its
/// time is linear in the numbers of faults and of parts.
pub fn write_report<O: Sink>(
    plan: &Plan,
    planes: &[Outcome],
    tallies: &mut Tallies,
    out: &mut O,
) -> Result<(), Failed>
    requires planes { length planes.now ≡ batch_count plan.now }
    requires tallies { tallies.old ≡ part_count plan.now }
    ensures report { Sends (O.seen out.old) (O.seen out.new)
        (report plan.now (planes_in_order planes.now)) result }
    ensures tallies { tallies.new ≡ tallies.old }
{
    tally_faults(plan, planes, &mut tallies.parts);
    report_for(plan, planes, &tallies.parts, out)
}

/// Writes the report of a campaign, for the planes that its rows give. The rows may stand in any order. It takes no
/// memory, and its time is linear in the numbers of faults and of parts.
pub fn write_report_of_rows<O: Sink>(
    plan: &Plan,
    rows: &[Row],
    space: &mut ReportSpace,
    out: &mut O,
) -> Result<(), Failed>
    requires space { space.old ≡ room_for plan.now }
    requires rows { HoldEachOnce plan.now rows.now }
    ensures report { Sends (O.seen out.old) (O.seen out.new)
        (report plan.now (planes_in rows.now)) result }
    ensures space { space.new ≡ space.old }
{
    place_planes(rows, &mut space.planes);
    write_report(plan, &space.planes, &mut space.tallies, out)
}

// Writes the report for the planes of each batch and the tallies of each part.
fn report_for<O: Sink>(
    plan: &Plan,
    planes: &[Outcome],
    tallies: &[Tally],
    out: &mut O,
) -> Result<(), Failed>
    requires planes { length planes.now ≡ batch_count plan.now }
    requires parts { length tallies.now ≡ part_count plan.now }
    requires tallied { AreTallied plan.now (planes_in_order planes.now) tallies.now }
    requires small { (k : ℕ) → k < part_count plan.now → AreAmountsSmall (tally_at tallies.now k) }
    ensures { Sends (O.seen out.old) (O.seen out.new)
        (report plan.now (planes_in_order planes.now)) result }
{
    write_line(out, &[b"fmeda-report", b"1"])?;
    write_sizes(plan, out)?;
    write_parts(plan, tallies, out)?;
    write_metrics(plan.settings().asil, &all_sums(plan, planes), out)?;
    write_faults(plan, planes, out)?;
    write_line(out, &[b"end"])
}

/// Writes what `gen` prints of the generated campaign with `n` stages: its sizes, sums, metrics and targets.
pub fn write_summary<O: Sink>(
    n: u32,
    plan: &Plan,
    rows: &[Row],
    space: &mut ReportSpace,
    out: &mut O,
) -> Result<(), Failed>
    requires space { space.old ≡ room_for plan.now }
    requires rows { HoldEachOnce plan.now rows.now }
    ensures summary { Sends (O.seen out.old) (O.seen out.new)
        (summary n plan.now (planes_in rows.now)) result }
    ensures space { space.new ≡ space.old }
{
    place_planes(rows, &mut space.planes);
    summarize_for(n, plan, &space.planes, out)
}

// Writes the summary for the planes of each batch.
fn summarize_for<O: Sink>(
    n: u32,
    plan: &Plan,
    planes: &[Outcome],
    out: &mut O,
) -> Result<(), Failed>
    requires { length planes.now ≡ batch_count plan.now }
    ensures { Sends (O.seen out.old) (O.seen out.new)
        (summary n plan.now (planes_in_order planes.now)) result }
{
    write_line(out, &[b"gen", number_word(u64::from(n)).bytes()])?;
    write_sizes(plan, out)?;
    write_metrics(plan.settings().asil, &all_sums(plan, planes), out)?;
    write_line(out, &[b"end"])
}
