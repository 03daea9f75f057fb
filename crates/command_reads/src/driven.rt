// What `trace` reads.
ghost use Rattle.std.specs.Prelude.{◌≡◌, IfOk};
ghost use Rattle.circuit.specs.Loop.{HasNoLoop};
ghost use Rattle.circuit.specs.Order.{IsOrder};
ghost use Rattle.command_reads.specs.Answers.{DrivesAs};
ghost use Rattle.command_reads.specs.Files.{AreShort, reads_by};

use crate::files::Reads;
use crate::netlist::{Ordered, judge_netlist};
use crate::tables::workload_of;
use campaign_plan::Settings;
use refusals::refused::Refused;
use std::alloc::Global;
use workload::run::Workload;

/// A netlist and its workload, and the settings, which have the cycles of flips and pulses.
#[derive(Drop)]
pub struct Driven {
    pub ordered: Ordered,
    pub work: Workload,
    pub settings: Settings,
}

/// The netlist and the workload of `trace`, as they were read.
pub(crate) fn judge_driven(
    alloc: Global,
    netlist: &str,
    settings: Settings,
    reads: &Reads,
) -> Result<Driven, Refused>
    requires { AreShort (reads_by reads.now) }
    ensures drives { DrivesAs netlist.now settings (reads_by reads.now) result }
    ensures sound { IfOk result (λ made. IsOrder made.ordered.net made.ordered.order × HasNoLoop made.ordered.net) }
{
    let ordered = judge_netlist(alloc, netlist, reads)?;
    let work = workload_of(alloc, reads, &ordered.net)?;
    Ok(Driven {
        ordered,
        work,
        settings,
    })
}
