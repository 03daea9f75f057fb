// The line of the sizes and the settings.
ghost use Rattle.fmeda_report.specs.Report.{sizes_line};
ghost use Rattle.fm_shelf.specs.Sink.{Sends};

use campaign_plan::Plan;
use fm_shelf::lines::{number_word, write_line};
use fm_shelf::shelf::{Failed, Sink};
use metric_sums::words::asil_word;

// Writes the sizes of the netlist, the fault list and the workload, and the settings.
pub(crate) fn write_sizes<O: Sink>(plan: &Plan, out: &mut O) -> Result<(), Failed>
    ensures { Sends (O.seen out.old) (O.seen out.new) (sizes_line plan.now) result }
{
    let net = plan.net();
    let settings = plan.settings();
    write_line(
        out,
        &[
            b"nets",
            number_word(net.nets() as u64).bytes(),
            b"latches",
            number_word(net.latches().len() as u64).bytes(),
            b"faults",
            number_word(u64::from(plan.faults().len())).bytes(),
            b"batches",
            number_word(u64::from(plan.batches())).bytes(),
            b"workloads",
            number_word(u64::from(plan.work().runs())).bytes(),
            b"cycles",
            number_word(u64::from(plan.work().all_cycles())).bytes(),
            b"ftti",
            number_word(u64::from(settings.ftti)).bytes(),
            b"asil",
            asil_word(settings.asil),
        ],
    )
}
