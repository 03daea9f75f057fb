// The row of a fault.
ghost use Rattle.std.specs.Prelude.{◌≡◌, ◌<◌, ◌∷◌, Bool, flat_map};
ghost use Rattle.std.specs.Str.{byte};
ghost use Rattle.campaign_plan.specs.Analysis.{fault_count};
ghost use Rattle.fm_shelf.specs.Sink.{Sends};
ghost use Rattle.metric_sums.specs.Words.{class_word as word_of_class};
ghost use Rattle.campaign_tables.specs.Csv.{csv_field};
ghost use Rattle.latency_table.specs.Fields.{cycle_word as word_of_cycle, fields_of, interval_word as word_of_interval, number_word as word_of_number, point_word as word_of_point, row_of, run_word as word_of_run};

use crate::latency::{Latency, Sighting};
use campaign_plan::{Plan, class_with};
use campaign_tables::fields::write_fields;
use campaign_tables::row::write_name;
use campaign_tables::words::bit_word;
use circuit::netlist::Netlist;
use circuit::parts::NetId;
use fm_base::Line;
use fm_shelf::lines::number_word;
use fm_shelf::shelf::{Failed, Sink};
use fm_shelf::whole::write_all;
use metric_sums::Class;
use metric_sums::words::class_word;

// The greatest interval that is told, in cycles.
const MOST_INTERVAL: u32 = 4096;

// A number, or a dash where there is none.
fn number_or_dash(number: Option<u64>) -> Line
    ensures { result ≡ word_of_number number }
{
    match number {
        Some(number) => number_word(number),
        None => {
            let mut dash = Line::new();
            dash.put(b"-");
            dash
        }
    }
}

// The run of a sighting, counted from 1.
fn run_word(seen: Option<Sighting>) -> Line
    ensures { result ≡ word_of_run seen }
{
    match seen {
        Some(sighting) => number_or_dash(Some(u64::from(sighting.run) + 1)),
        None => number_or_dash(None),
    }
}

// The cycle of a sighting.
fn cycle_word(seen: Option<Sighting>) -> Line
    ensures { result ≡ word_of_cycle seen }
{
    match seen {
        Some(sighting) => number_or_dash(Some(u64::from(sighting.cycle))),
        None => number_or_dash(None),
    }
}

// An interval that is told.
fn interval_word(interval: Option<u32>) -> Line
    ensures { result ≡ word_of_interval interval }
{
    match interval {
        Some(cycles) if cycles <= MOST_INTERVAL => number_or_dash(Some(u64::from(cycles))),
        _ => number_or_dash(None),
    }
}

// The name of an alarm point, or a dash where there is none.
fn point_word(net: &Netlist, point: Option<NetId>) -> &[u8]
    ensures { result.now ≡ word_of_point net.now point }
{
    match point {
        Some(alarm) => net.name(alarm),
        None => b"-",
    }
}

// The word of a class.
fn class_of(class: &Class) -> &[u8]
    ensures { result.now ≡ word_of_class class.now }
{
    class_word(*class)
}

// Writes the fields of fault `i` behind its name.
fn write_rest<O: Sink>(
    plan: &Plan,
    i: u32,
    excited: bool,
    latency: &Latency,
    out: &mut O,
) -> Result<(), Failed>
    requires { i < fault_count plan.now }
    ensures { Sends (O.seen out.old) (O.seen out.new)
        (flat_map (λ field. byte "," ∷ csv_field field) (fields_of plan.now i excited latency.now)) result }
{
    let part = plan.part(plan.part_of_fault(i));
    let class = class_with(plan, i, latency.dangerous, latency.noticed);
    write_fields(
        &[
            part.name.as_slice(),
            class_of(&class),
            number_word(plan.weight(i)).bytes(),
            bit_word(&excited),
            run_word(latency.reached).bytes(),
            cycle_word(latency.reached).bytes(),
            run_word(latency.alarmed).bytes(),
            cycle_word(latency.alarmed).bytes(),
            point_word(plan.net(), latency.point),
            interval_word(latency.interval).bytes(),
        ],
        out,
    )
}

/// Writes the row of fault `i`, of which this is kept.
pub(crate) fn write_row<O: Sink>(
    plan: &Plan,
    i: u32,
    excited: bool,
    latency: &Latency,
    out: &mut O,
) -> Result<(), Failed>
    requires { i < fault_count plan.now }
    ensures { Sends (O.seen out.old) (O.seen out.new) (row_of plan.now i excited latency.now) result }
{
    write_name(plan.net(), plan.faults().fault(i), out)?;
    write_rest(plan, i, excited, latency, out)?;
    write_all(out, b"\n")
}
