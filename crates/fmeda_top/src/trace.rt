// The text of `trace`.
ghost use Rattle.std.specs.Prelude.{◌≡◌};
ghost use Rattle.circuit.specs.Order.{IsOrder};
ghost use Rattle.commands.specs.declared.command.Task.TheVariants as task;
ghost use Rattle.command_reads.specs.FirstRefusal.{Driven as StandsDriven};
ghost use Rattle.fmeda_top.specs.Doing.{TellsAs};
ghost use Rattle.fmeda_top.specs.TaskRefusals.{not_there as not_there_of};

use command_reads::driven::Driven;
use fm_base::{Name, Refusal};
use fm_shelf::shelf::Sink;
use refusals::refused::Refused;
use refusals::status::{Status, after_text};
use std::alloc::Global;
use wave_dump::{Asked, Dump, DumpFault};

// The status of a run, a fault or a net that isn't there.
fn not_there(why: DumpFault) -> Status
    ensures { result ≡ not_there_of why }
{
    match why {
        DumpFault::NoRun => Status::NoRun,
        DumpFault::NoFault => Status::NoFault,
        DumpFault::NoNet => Status::NoNet,
    }
}

/// Simulates one run, and writes its waves.
pub(crate) fn tell_trace<O: Sink>(
    alloc: Global,
    driven: &Driven,
    run: u32,
    fault: &Option<Name>,
    nets: &Option<Name>,
    out: &mut O,
) -> Result<Status, Refused>
    requires { IsOrder driven.now.ordered.net driven.now.ordered.order }
    ensures { TellsAs (task.Trace run fault.now nets.now) (StandsDriven driven.now.ordered.net driven.now.work driven.now.settings) (O.seen out.old) (O.seen out.new) result }
{
    let settings = &driven.settings;
    let asked = Asked {
        run,
        fault,
        flips: settings.flips.as_slice(),
        pulses: settings.pulses.as_slice(),
        nets,
    };
    let (net, order) = (&driven.ordered.net, &driven.ordered.order);
    match Dump::new(alloc, net, order, &driven.work, &asked) {
        Ok(mut dump) => {
            let written = dump.write(out);
            drop(dump);
            Ok(after_text(written))
        }
        Err(Refusal::Fault(why)) => Err(Refused::By(not_there(why))),
        Err(Refusal::Memory(no_room)) => Err(Refused::By(Status::Memory(no_room))),
    }
}
