// The workload, the rates and the points of a command.
ghost use Rattle.std.specs.Prelude.{◌≡◌, IfOk};
ghost use Rattle.alarm_points.specs.PointsFile.{points_of as points_in};
ghost use Rattle.alarm_points.specs.PointsKept.{ArePointsFor};
ghost use Rattle.rate_table.specs.RatesFile.{rates_of as rates_in};
ghost use Rattle.workload.specs.RunsKept.{AreRunsFor};
ghost use Rattle.workload.specs.WorkloadFile.{workload_of as workload_in};
ghost use Rattle.commands.specs.declared.command.Which.TheVariants.{Points as PointsFile, Rates as RatesFile, Workload as WorkloadFile};
ghost use Rattle.refusals.specs.declared.status.Status.TheVariants.{Points as PointsStatus, Rates as RatesStatus, Workload as WorkloadStatus};
ghost use Rattle.command_reads.specs.Answers.{AnswersAs, TablesAs};
ghost use Rattle.command_reads.specs.Files.{AreShort, reads_by};
ghost use Rattle.command_reads.specs.FirstRefusal.{read_as};

use crate::files::Reads;
use alarm_points::Points;
use alarm_points::file::read_points;
use circuit::netlist::Netlist;
use commands::Which;
use fm_base::Refusal;
use rate_table::{Rates, read_rates};
use refusals::status::Status;
use std::alloc::Global;
use workload::file::read_workload;
use workload::run::Workload;

/// The workload, the rates and the points behind a netlist.
#[derive(Drop)]
pub(crate) struct Tables {
    pub(crate) work: Workload,
    pub(crate) rates: Rates,
    pub(crate) points: Points,
}

/// The workload that was read.
pub(crate) fn workload_of(alloc: Global, reads: &Reads, net: &Netlist) -> Result<Workload, Status>
    requires { AreShort (reads_by reads.now) }
    ensures answers { AnswersAs (read_as WorkloadFile WorkloadStatus (workload_in net.now) (reads_by reads.now)) result }
    ensures fit { IfOk result (AreRunsFor net.now) }
{
    match read_workload(alloc, reads.whole(Which::Workload)?, net) {
        Ok(work) => Ok(work),
        Err(Refusal::Fault(fault)) => Err(Status::Workload(fault)),
        Err(Refusal::Memory(no_room)) => Err(Status::Memory(no_room)),
    }
}

/// The rates that were read.
pub(crate) fn rates_of(alloc: Global, reads: &Reads) -> Result<Rates, Status>
    requires { AreShort (reads_by reads.now) }
    ensures { AnswersAs (read_as RatesFile RatesStatus rates_in (reads_by reads.now)) result }
{
    match read_rates(alloc, reads.whole(Which::Rates)?) {
        Ok(rates) => Ok(rates),
        Err(Refusal::Fault(fault)) => Err(Status::Rates(fault)),
        Err(Refusal::Memory(no_room)) => Err(Status::Memory(no_room)),
    }
}

/// The points that were read.
pub(crate) fn points_of(alloc: Global, reads: &Reads, net: &Netlist) -> Result<Points, Status>
    requires { AreShort (reads_by reads.now) }
    ensures answers { AnswersAs (read_as PointsFile PointsStatus (points_in net.now) (reads_by reads.now)) result }
    ensures fit { IfOk result (ArePointsFor net.now) }
{
    match read_points(alloc, reads.whole(Which::Points)?, net) {
        Ok(points) => Ok(points),
        Err(Refusal::Fault(fault)) => Err(Status::Points(fault)),
        Err(Refusal::Memory(no_room)) => Err(Status::Memory(no_room)),
    }
}

/// The three files behind a netlist, in their order.
pub(crate) fn tables_of(alloc: Global, reads: &Reads, net: &Netlist) -> Result<Tables, Status>
    requires { AreShort (reads_by reads.now) }
    ensures answers { TablesAs net.now (reads_by reads.now) result }
    ensures fit { IfOk result (λ made. AreRunsFor net.now made.work × ArePointsFor net.now made.points) }
{
    let work = workload_of(alloc, reads, net)?;
    let rates = rates_of(alloc, reads)?;
    let points = points_of(alloc, reads, net)?;
    Ok(Tables {
        work,
        rates,
        points,
    })
}
