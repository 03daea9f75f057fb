// The text of `classes`.
ghost use Rattle.std.specs.Prelude.{◌≡◌, ◌∷◌, ◌<◌, ◌/◌, ◌%◌, ◌++◌, [], codes, decimal, length, false};
ghost use Rattle.std.specs.List.{flat_map};
ghost use Rattle.fm_base.specs.Lists.{below};
ghost use Rattle.fm_base.specs.Planes.{bit};
ghost use Rattle.fm_base.specs.Text.{line};
ghost use Rattle.fault_list.specs.Faults.{fault_at, fault_name};
ghost use Rattle.circuit.specs.Effects.{is_permanent};
ghost use Rattle.metric_sums.specs.Classes.{class_of as class_for};
ghost use Rattle.metric_sums.specs.declared.Role.TheVariants.{Mission};
ghost use Rattle.fm_shelf.specs.Sink.{Sends};
ghost use Rattle.metric_sums.specs.Words.{class_word as word_of_class};
ghost use Rattle.class_table.specs.ClassLines.{class_line, class_lines};

use campaign_plan::{Outcome, has_bit};
use circuit::netlist::Netlist;
use classifier::BatchSimulator;
use fault_list::FaultList;
use fm_shelf::lines::write_line;
use fm_shelf::shelf::{Failed, Sink};
use fm_shelf::whole::write_pieces;
use itoa::Buffer;
use metric_sums::words::class_word;
use metric_sums::{Class, Role, class_of};

// The class of a fault in a mission part that isn't covered, by the planes of its batch.
fn class_in(faults: &FaultList, i: u32, planes: Outcome) -> Class
    requires { i < length faults.now }
    ensures { result ≡ class_for (bit planes.danger (i % 64)) (bit planes.noticed (i % 64)) Mission false (is_permanent (fault_at faults.now i)) }
{
    let lane = i % 64;
    class_of(
        has_bit(planes.danger, lane),
        has_bit(planes.noticed, lane),
        Role::Mission,
        false,
        faults.fault(i).permanent(),
    )
}

// Writes the name of a fault and its class.
fn write_class<O: Sink>(
    net: &Netlist,
    faults: &FaultList,
    i: u32,
    planes: Outcome,
    out: &mut O,
) -> Result<(), Failed>
    requires { i < length faults.now }
    ensures { Sends (O.seen out.old) (O.seen out.new) (class_line net.now faults.now planes i) result }
{
    faults.write_name(net, i, out)?;
    write_pieces(out, &[b" ", class_word(class_in(faults, i, planes)), b"\n"])
}

// Writes a line for each fault.
fn write_each<O: Sink>(simulator: &mut BatchSimulator<'_>, out: &mut O) -> Result<(), Failed>
    ensures { Sends (O.seen out.old) (O.seen out.new) (class_lines simulator.old) result }
{
    for i in 0..simulator.faults().len() {
        let planes = simulator.batch(i / 64);
        write_class(simulator.net(), simulator.faults(), i, planes, out)?;
    }
    Ok(())
}

// Writes the last line, with the number of faults.
fn write_end<O: Sink>(out: &mut O, count: u32) -> Result<(), Failed>
    ensures { Sends (O.seen out.old) (O.seen out.new)
        (line (codes "end" ∷ decimal count ∷ [])) result }
{
    let mut digits = Buffer::new();
    write_line(out, &[b"end", digits.format(count).as_bytes()])
}

/// Writes the class of each fault, all of them being in a mission part that isn't covered, and the number of faults.
pub fn write_classes<O: Sink>(simulator: &mut BatchSimulator<'_>, out: &mut O) -> Result<(), Failed>
    ensures { Sends (O.seen out.old) (O.seen out.new)
        (class_lines simulator.old ++ line (codes "end" ∷ decimal (length simulator.old.faults) ∷ [])) result }
{
    let count = simulator.faults().len();
    write_each(simulator, out)?;
    write_end(out, count)
}
