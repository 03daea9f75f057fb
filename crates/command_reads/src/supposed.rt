// What `always` reads: a plan without runs, and its held inputs.
ghost use Rattle.std.specs.Prelude.{◌≡◌, [], IfOk};
ghost use Rattle.alarm_points.specs.PointsKept.{ArePointsFor};
ghost use Rattle.campaign_plan.specs.Kept.{AreSettings};
ghost use Rattle.circuit.specs.Loop.{HasNoLoop};
ghost use Rattle.circuit.specs.Order.{IsOrder};
ghost use Rattle.held_inputs.specs.HeldFile.{held_of as held_in};
ghost use Rattle.held_inputs.specs.HeldKept.{AreHeldFor};
ghost use Rattle.commands.specs.declared.command.Which.TheVariants.{Held as HeldFile};
ghost use Rattle.refusals.specs.declared.status.Status.TheVariants.{Held as HeldStatus};
ghost use Rattle.command_reads.specs.Answers.{AnswersAs, IsRunless, IsSupposed, RunlessAs, RunlessPlansAs, RunlessTablesAs, SupposesAs, plan_step};
ghost use Rattle.command_reads.specs.Files.{AreShort, reads_by};
ghost use Rattle.command_reads.specs.FirstRefusal.{read_as};

use crate::files::Reads;
use crate::netlist::{Ordered, judge_netlist};
use crate::planned::plan_from;
use crate::tables::{points_of, rates_of};
use alarm_points::Points;
use campaign_plan::{Plan, Settings};
use circuit::netlist::Netlist;
use commands::Which;
use fm_base::Refusal;
use held_inputs::{HeldList, read_held};
use netlist_levels::Order;
use rate_table::Rates;
use refusals::refused::Refused;
use refusals::status::Status;
use std::alloc::Global;
use workload::run::Workload;

/// A plan without runs, an order of the tables of its netlist, and the inputs that are held.
#[derive(Drop)]
pub struct Supposed {
    pub plan: Plan,
    pub order: Order,
    pub held: HeldList,
}

/// The rates and the points behind a netlist.
#[derive(Drop)]
pub(crate) struct RunlessTables {
    pub(crate) rates: Rates,
    pub(crate) points: Points,
}

/// A plan without runs, and an order of the tables of its netlist.
#[derive(Drop)]
pub(crate) struct Runless {
    pub(crate) plan: Plan,
    pub(crate) order: Order,
}

// The rates and the points, in their order.
fn tables_of(alloc: Global, reads: &Reads, net: &Netlist) -> Result<RunlessTables, Status>
    requires { AreShort (reads_by reads.now) }
    ensures answers { RunlessTablesAs net.now (reads_by reads.now) result }
    ensures fit { IfOk result (λ made. ArePointsFor net.now made.points) }
{
    let rates = rates_of(alloc, reads)?;
    let points = points_of(alloc, reads, net)?;
    Ok(RunlessTables { rates, points })
}

// The plan without runs of a netlist and the tables behind it.
fn runless_from(
    alloc: Global,
    ordered: Ordered,
    tables: RunlessTables,
    set: Settings,
) -> Result<Runless, Status>
    requires no_loop { HasNoLoop ordered.net }
    requires order { IsOrder ordered.net ordered.order }
    requires points { ArePointsFor ordered.net tables.points }
    requires settings { AreSettings set }
    ensures answers { RunlessAs (record { circuit = ordered.net; runs = []; rates = tables.rates; points = tables.points; settings = set }) result }
    ensures sound { IfOk result IsRunless }
{
    let Ordered { net, order } = ordered;
    let RunlessTables { rates, points } = tables;
    let plan = plan_from(alloc, net, Workload::none(alloc), rates, points, set)?;
    Ok(Runless { plan, order })
}

// The plan without runs of the netlist, which is a file of this name, the rates and the points.
fn runless_plan(
    alloc: Global,
    netlist: &str,
    set: Settings,
    reads: &Reads,
) -> Result<Runless, Refused>
    requires settings { AreSettings set }
    requires short { AreShort (reads_by reads.now) }
    ensures plans { RunlessPlansAs netlist.now set (reads_by reads.now) result }
    ensures sound { IfOk result IsRunless }
{
    let ordered = judge_netlist(alloc, netlist, reads)?;
    match tables_of(alloc, reads, &ordered.net) {
        Ok(tables) => Ok(runless_from(alloc, ordered, tables, set)?),
        Err(status) => {
            drop(ordered);
            Err(Refused::By(status))
        }
    }
}

// The held inputs that were read.
fn held_of(alloc: Global, reads: &Reads, net: &Netlist) -> Result<HeldList, Status>
    requires { AreShort (reads_by reads.now) }
    ensures answers { AnswersAs (read_as HeldFile HeldStatus (held_in net.now) (reads_by reads.now)) result }
    ensures fit { IfOk result (AreHeldFor net.now) }
{
    match read_held(alloc, reads.whole(Which::Held)?, net) {
        Ok(held) => Ok(held),
        Err(Refusal::Fault(fault)) => Err(Status::Held(fault)),
        Err(Refusal::Memory(no_room)) => Err(Status::Memory(no_room)),
    }
}

/// The plan without runs of the files that were read, and then the held inputs of its netlist.
pub(crate) fn judge_supposed(
    alloc: Global,
    netlist: &str,
    set: Settings,
    reads: &Reads,
) -> Result<Supposed, Refused>
    requires settings { AreSettings set }
    requires short { AreShort (reads_by reads.now) }
    ensures supposes { SupposesAs netlist.now set (reads_by reads.now) result }
    ensures sound { IfOk result IsSupposed }
{
    let Runless { plan, order } = runless_plan(alloc, netlist, set, reads)?;
    match held_of(alloc, reads, plan.net()) {
        Ok(held) => Ok(Supposed { plan, order, held }),
        Err(status) => {
            drop(plan);
            Err(Refused::By(status))
        }
    }
}
