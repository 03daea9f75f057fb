// What `classes` reads.
ghost use Rattle.std.specs.Prelude.{◌≡◌, IfOk};
ghost use Rattle.alarm_points.specs.PointsFile.{all_outputs as outputs_of};
ghost use Rattle.alarm_points.specs.PointsKept.{ArePointsFor};
ghost use Rattle.circuit.specs.Order.{IsOrder};
ghost use Rattle.campaign_plan.specs.declared.Settings.{Settings};
ghost use Rattle.command_reads.specs.Answers.{AnswersAs, IsObserved, ObservesAs, outputs_step};
ghost use Rattle.command_reads.specs.Files.{AreShort, reads_by};

use crate::files::Reads;
use crate::netlist::{Ordered, judge_netlist};
use crate::tables::workload_of;
use alarm_points::Points;
use alarm_points::outputs::{OutputsRefusal, all_outputs};
use circuit::netlist::Netlist;
use refusals::refused::Refused;
use refusals::status::Status;
use std::alloc::Global;
use workload::run::Workload;

/// A netlist whose outputs are all observed, and its workload.
#[derive(Drop)]
pub struct Observed {
    pub ordered: Ordered,
    pub points: Points,
    pub work: Workload,
}

// All outputs as observation points.
fn observe_outputs(alloc: Global, net: &Netlist) -> Result<Points, Status>
    ensures answers { AnswersAs (outputs_step net.now) result }
    ensures points { IfOk result (λ points. (points ≡ outputs_of net.now) × ArePointsFor net.now points) }
{
    match all_outputs(alloc, net) {
        Ok(points) => Ok(points),
        Err(OutputsRefusal::TooMany) => Err(Status::ManyOutputs),
        Err(OutputsRefusal::Memory(no_room)) => Err(Status::Memory(no_room)),
    }
}

/// The netlist and the workload of `classes`, as they were read.
pub(crate) fn judge_observed(
    alloc: Global,
    netlist: &str,
    reads: &Reads,
) -> Result<Observed, Refused>
    requires { AreShort (reads_by reads.now) }
    ensures observes { (set : Settings) → ObservesAs netlist.now set (reads_by reads.now) result }
    ensures sound { IfOk result IsObserved }
{
    let ordered = judge_netlist(alloc, netlist, reads)?;
    let points = observe_outputs(alloc, &ordered.net)?;
    let work = workload_of(alloc, reads, &ordered.net)?;
    Ok(Observed {
        ordered,
        points,
        work,
    })
}
