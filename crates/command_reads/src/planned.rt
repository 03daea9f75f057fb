// The plan of a command's four files.
ghost use Rattle.std.specs.Prelude.{◌≡◌, ◌≤◌, IfOk, length};
ghost use Rattle.alarm_points.specs.PointsKept.{ArePointsFor};
ghost use Rattle.campaign_plan.specs.Kept.{AreSettings, IsPlan};
ghost use Rattle.circuit.specs.Loop.{HasNoLoop};
ghost use Rattle.circuit.specs.Order.{IsOrder};
ghost use Rattle.result_file.specs.KeptRows.{header_len};
ghost use Rattle.workload.specs.RunsKept.{AreRunsFor};
ghost use Rattle.command_reads.specs.Answers.{AnswersAs, IsSound, PlannedAs, PlansAs, plan_step};
ghost use Rattle.command_reads.specs.Files.{AreShort, bytes_of, reads_by};
ghost use Rattle.command_reads.specs.FirstRefusal.{own_header};

use crate::files::{FileRead, Reads};
use crate::netlist::{Ordered, judge_netlist};
use crate::tables::{Tables, tables_of};
use alarm_points::Points;
use campaign_plan::{Plan, PlanRefusal, Settings};
use circuit::netlist::Netlist;
use fm_base::Line;
use netlist_levels::Order;
use rate_table::Rates;
use refusals::refused::Refused;
use refusals::status::Status;
use result_file::{header, own_digest};
use std::alloc::Global;
use workload::run::Workload;

/// A plan, an order of the tables of its netlist, and the header line of its result file.
#[derive(Drop)]
pub struct Planned {
    pub plan: Plan,
    pub order: Order,
    pub own: Line,
}

// The plan of what was read.
pub(crate) fn plan_from(
    alloc: Global,
    net: Netlist,
    work: Workload,
    rates: Rates,
    points: Points,
    set: Settings,
) -> Result<Plan, Status>
    requires no_loop { HasNoLoop net }
    requires runs { AreRunsFor net work }
    requires points { ArePointsFor net points }
    requires settings { AreSettings set }
    ensures { AnswersAs (plan_step (record { circuit = net; runs = work; rates = rates; points = points; settings = set })) result }
{
    match Plan::new(alloc, net, work, rates, points, set) {
        Ok(plan) => Ok(plan),
        Err(PlanRefusal::Memory(no_room)) => Err(Status::Memory(no_room)),
        Err(refusal) => Err(Status::Plan(refusal)),
    }
}

// The bytes that were read of a file; none where it wasn't.
fn bytes_read(read: &FileRead) -> &[u8]
    ensures { result.now ≡ bytes_of read.now }
{
    match read {
        FileRead::Whole(bytes) => bytes.as_slice(),
        FileRead::TooLong | FileRead::Failed => &[],
    }
}

// The header line of the result file of a plan.
fn own_line(plan: &Plan, reads: &Reads) -> Line
    ensures text { result ≡ own_header (reads_by reads.now) plan.now }
    ensures len { length result ≡ header_len }
    ensures plan { IsPlan plan.now }
{
    let digest = own_digest(
        plan.settings(),
        bytes_read(&reads.netlist),
        bytes_read(&reads.workload),
        bytes_read(&reads.rates),
        bytes_read(&reads.points),
    );
    header(&digest, plan.batches())
}

// The plan of a netlist and the tables behind it.
fn planned_from(
    alloc: Global,
    ordered: Ordered,
    tables: Tables,
    set: Settings,
    reads: &Reads,
) -> Result<Planned, Status>
    requires no_loop { HasNoLoop ordered.net }
    requires order { IsOrder ordered.net ordered.order }
    requires runs { AreRunsFor ordered.net tables.work }
    requires points { ArePointsFor ordered.net tables.points }
    requires settings { AreSettings set }
    ensures answers { PlannedAs (record { circuit = ordered.net; runs = tables.work; rates = tables.rates; points = tables.points; settings = set }) result }
    ensures sound { IfOk result (IsSound (reads_by reads.now)) }
{
    let Ordered { net, order } = ordered;
    let Tables {
        work,
        rates,
        points,
    } = tables;
    let plan = plan_from(alloc, net, work, rates, points, set)?;
    let own = own_line(&plan, reads);
    Ok(Planned { plan, order, own })
}

/// The plan of the four files that were read, the netlist's of this name.
pub(crate) fn judge_plan(
    alloc: Global,
    netlist: &str,
    set: Settings,
    reads: &Reads,
) -> Result<Planned, Refused>
    requires settings { AreSettings set }
    requires short { AreShort (reads_by reads.now) }
    ensures plans { PlansAs netlist.now set (reads_by reads.now) result }
    ensures sound { IfOk result (IsSound (reads_by reads.now)) }
{
    let ordered = judge_netlist(alloc, netlist, reads)?;
    match tables_of(alloc, reads, &ordered.net) {
        Ok(tables) => Ok(planned_from(alloc, ordered, tables, set, reads)?),
        Err(status) => {
            drop(ordered);
            Err(Refused::By(status))
        }
    }
}
