// The text of `always`.
ghost use Rattle.std.specs.Prelude.{◌≡◌, ◌≤◌, IfSome};
ghost use Rattle.commands.specs.declared.command.Task.TheVariants as task;
ghost use Rattle.command_reads.specs.Answers.{IsSupposed};
ghost use Rattle.command_reads.specs.FirstRefusal.{Supposed as StandsSupposed};
ghost use Rattle.always.specs.Asked.{terms_of_plan};
ghost use Rattle.fmeda_top.specs.Doing.{AnswersAs};
ghost use Rattle.fmeda_top.specs.TaskRefusals.{not_asked as not_asked_of};

use always::{AskedFault, answer_plan, asked_fault, asked_terms_fit};
use always_answers::NoAnswers;
use command_reads::supposed::Supposed;
use fm_shelf::shelf::Sink;
use refusals::refused::Refused;
use refusals::status::{Status, after_text};
use std::alloc::Global;

// The status of points without an alarm, or of a window that is too long.
fn not_asked(why: AskedFault) -> Status
    ensures { result ≡ not_asked_of why }
{
    match why {
        AskedFault::NoAlarm => Status::NoAlarm,
        AskedFault::LongWindow { window, least } => Status::LongWindow { window, least },
    }
}

/// Searches for what is answered to each fault and each part, for every workload, and writes it; or says that what is supposed of runs
/// contradicts itself.
pub(crate) fn tell_always<O: Sink>(
    alloc: Global,
    supposed: &Supposed,
    window: Option<u32>,
    ahead: u32,
    out: &mut O,
) -> Result<Status, Refused>
    requires sound { IsSupposed supposed.now }
    requires window { IfSome window (λ cycles. cycles ≤ 8) }
    requires ahead { ahead ≤ 8 }
    ensures { AnswersAs (task.Always window ahead) supposed.now.plan (terms_of_plan supposed.now.plan supposed.now.held window ahead)
        (StandsSupposed supposed.now.plan supposed.now.held) (O.seen out.old) (O.seen out.new) result }
{
    asked_terms_fit();
    let (plan, held) = (&supposed.plan, supposed.held.as_slice());
    if let Some(why) = asked_fault(plan, window) {
        return Err(Refused::By(not_asked(why)));
    }
    match answer_plan(alloc, plan, &supposed.order, held, window, ahead, out) {
        Ok(written) => Ok(after_text(written)),
        Err(NoAnswers::Contradiction(why)) => Err(Refused::By(Status::Contradiction(why))),
        Err(NoAnswers::Memory(no_room)) => Err(Refused::By(Status::Memory(no_room))),
    }
}
