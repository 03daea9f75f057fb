// The row of a fault.
ghost use Rattle.std.specs.Prelude.{◌≡◌, ◌<◌, ◌∷◌, ◌++◌, decimal, flat_map};
ghost use Rattle.std.specs.Str.{byte};
ghost use Rattle.fault_list.specs.Faults.{fault_name};
ghost use Rattle.campaign_plan.specs.Analysis.{fault_count, fault_numbered, part_numbered, part_of};
ghost use Rattle.fm_shelf.specs.Sink.{Sends};
ghost use Rattle.metric_sums.specs.Words.{class_word as word_of_class, role_word as word_of_role};
ghost use Rattle.campaign_tables.specs.Csv.{csv_field};
ghost use Rattle.campaign_tables.specs.FaultTable.{fault_row};
ghost use Rattle.campaign_tables.specs.FaultSteps.{further_fields};

use crate::fields::{write_field, write_fields};
use crate::words::{bit_word, covered_word, kind_word};
use campaign_plan::{Outcome, Plan, class_with, has_bit};
use circuit::netlist::Netlist;
use circuit::parts::Fault;
use fault_list::net_of;
use fm_shelf::lines::number_word;
use fm_shelf::shelf::{Failed, Sink};
use fm_shelf::whole::write_all;
use metric_sums::Class;
use metric_sums::words::{class_word, role_word};
use rate_table::Part;

const LANES: u32 = 64;

// Writes the name of a net with a sign and a cycle behind it, as a field.
fn write_cycle<O: Sink>(name: &[u8], sign: &[u8], cycle: u32, out: &mut O) -> Result<(), Failed>
    ensures { Sends (O.seen out.old) (O.seen out.new)
        (csv_field (name.now ++ (sign.now ++ decimal cycle))) result }
{
    write_field(&[name, sign, number_word(u64::from(cycle)).bytes()], out)
}

/// Writes the name of a fault, as a field.
pub fn write_name<O: Sink>(net: &Netlist, fault: Fault, out: &mut O) -> Result<(), Failed>
    ensures { Sends (O.seen out.old) (O.seen out.new)
        (csv_field (fault_name net.now fault)) result }
{
    let name = net.name(net_of(net, fault));
    match fault {
        Fault::Stuck(_, false) => write_field(&[name, b"/0"], out),
        Fault::Stuck(_, true) => write_field(&[name, b"/1"], out),
        Fault::Flip(_, cycle) => write_cycle(name, b"^", cycle, out),
        Fault::Pulse(_, cycle) => write_cycle(name, b"~", cycle, out),
    }
}

// The part of a fault.
fn part_of_fault(plan: &Plan, i: u32) -> &Part
    requires { i < fault_count plan.now }
    ensures { result.now ≡ part_numbered plan.now (part_of plan.now (fault_numbered plan.now i)) }
{
    plan.part(plan.part_of_fault(i))
}

// The word of a part's role.
fn role_of(part: &Part) -> &[u8]
    ensures { result.now ≡ word_of_role part.now.role }
{
    role_word(part.role)
}

// The word of a class.
fn class_of(class: &Class) -> &[u8]
    ensures { result.now ≡ word_of_class class.now }
{
    class_word(*class)
}

// Writes the fields of fault `i` behind its name.
fn write_rest<O: Sink>(plan: &Plan, i: u32, planes: Outcome, out: &mut O) -> Result<(), Failed>
    requires { i < fault_count plan.now }
    ensures { Sends (O.seen out.old) (O.seen out.new)
        (flat_map (λ field. byte "," ∷ csv_field field) (further_fields plan.now planes i)) result }
{
    let fault = plan.faults().fault(i);
    let part = part_of_fault(plan, i);
    let dangerous = has_bit(planes.danger, i % LANES);
    let noticed = has_bit(planes.noticed, i % LANES);
    let class = class_with(plan, i, dangerous, noticed);
    write_fields(
        &[
            plan.net().name(net_of(plan.net(), fault)),
            kind_word(&fault),
            part.name.as_slice(),
            role_of(part),
            covered_word(part),
            class_of(&class),
            bit_word(&dangerous),
            bit_word(&noticed),
            number_word(plan.weight(i)).bytes(),
        ],
        out,
    )
}

/// Writes the row of fault `i`, where its batch has these planes.
pub(crate) fn write_row<O: Sink>(
    plan: &Plan,
    i: u32,
    planes: Outcome,
    out: &mut O,
) -> Result<(), Failed>
    requires { i < fault_count plan.now }
    ensures { Sends (O.seen out.old) (O.seen out.new)
        (fault_row plan.now planes i) result }
{
    write_name(plan.net(), plan.faults().fault(i), out)?;
    write_rest(plan, i, planes, out)?;
    write_all(out, b"\n")
}
