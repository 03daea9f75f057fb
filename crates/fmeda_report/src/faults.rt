// The lines of the faults that the report names.
ghost use Rattle.std.specs.Prelude.{◌≡◌, ◌<◌, ◌∷◌, [], decimal, flat_map, length};
ghost use Rattle.fm_base.specs.Lists.{below};
ghost use Rattle.fm_base.specs.Text.{line};
ghost use Rattle.fault_list.specs.Faults.{fault_name};
ghost use Rattle.campaign_plan.specs.Analysis.{batch_count, fault_count, fault_numbered};
ghost use Rattle.campaign_plan.specs.Weights.{weight};
ghost use Rattle.fmeda_report.specs.Report.{fault_line};
ghost use Rattle.fmeda_report.specs.Steps.{names_faults as is_named_class};
ghost use Rattle.metric_sums.specs.Words.{class_word as word_of_class};
ghost use Rattle.fm_shelf.specs.Sink.{Sends};
ghost use Rattle.fmeda_report.specs.Tallies.{planes_in_order};

use crate::planes::class_of_fault;
use campaign_plan::{Outcome, Plan};
use fm_shelf::lines::number_word;
use fm_shelf::shelf::{Failed, Sink};
use fm_shelf::whole::write_pieces;
use metric_sums::Class;
use metric_sums::words::class_word;

// Whether the report names the faults of a class.
fn is_named(class: Class) -> bool
    ensures { result ≡ is_named_class class }
{
    matches!(class, Class::Residual | Class::SinglePoint | Class::Latent)
}

// Writes the class, the name and the weight of a fault.
fn write_named<O: Sink>(plan: &Plan, class: Class, i: u32, out: &mut O) -> Result<(), Failed>
    requires { i < fault_count plan.now }
    ensures { Sends (O.seen out.old) (O.seen out.new)
        (line (word_of_class class ∷ fault_name plan.now.circuit (fault_numbered plan.now i) ∷ decimal (weight plan.now i) ∷ [])) result }
{
    write_pieces(out, &[class_word(class), b" "])?;
    plan.faults().write_name(plan.net(), i, out)?;
    write_pieces(out, &[b" ", number_word(plan.weight(i)).bytes(), b"\n"])
}

// Writes the line of fault `i`, where the report names it.
fn write_fault<O: Sink>(plan: &Plan, planes: &[Outcome], i: u32, out: &mut O) -> Result<(), Failed>
    requires fault { i < fault_count plan.now }
    requires planes { length planes.now ≡ batch_count plan.now }
    ensures { Sends (O.seen out.old) (O.seen out.new)
        (fault_line plan.now (planes_in_order planes.now) i) result }
{
    let class = class_of_fault(plan, planes, i);
    if is_named(class) {
        write_named(plan, class, i, out)
    } else {
        Ok(())
    }
}

// Writes the lines of the faults that the report names, in list order.
pub(crate) fn write_faults<O: Sink>(
    plan: &Plan,
    planes: &[Outcome],
    out: &mut O,
) -> Result<(), Failed>
    requires { length planes.now ≡ batch_count plan.now }
    ensures { Sends (O.seen out.old) (O.seen out.new)
        (flat_map (fault_line plan.now (planes_in_order planes.now)) (below (fault_count plan.now))) result }
{
    for i in 0..plan.faults().len() {
        write_fault(plan, planes, i, out)?;
    }
    Ok(())
}
