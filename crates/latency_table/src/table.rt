// The table of latencies.
ghost use Rattle.std.specs.Prelude.{◌≡◌, ◌<◌, ◌≤◌, Err, IfOk, List, OnOk, codes, flat_map};
ghost use Rattle.circuit.specs.declared.parts.NetId.{NetId as NetValue};
ghost use Rattle.circuit.specs.Order.{IsOrder};
ghost use Rattle.fm_base.specs.Lists.{below};
ghost use Rattle.fm_base.specs.Text.{whole_line};
ghost use Rattle.fm_base.specs.declared.refusal.Refusal.TheVariants.{Fault as FaultOf, Memory};
ghost use Rattle.fm_shelf.specs.Sink.{Sends, Wrote, WrotePrefix};
ghost use Rattle.fm_shelf.specs.declared.shelf.Failed.{Failed as FailedValue};
ghost use Rattle.campaign_plan.specs.Analysis.{fault_count};
ghost use Rattle.testbench.specs.Testbench.{IsTestbenchFor};
ghost use Rattle.readings.specs.Latencies.{latencies, latency_row, least_interval};
ghost use Rattle.golden_values.specs.Golden.{HasSeenGolden};
ghost use Rattle.latency_table.specs.Work.{HaveKept};

use crate::fan_out::{latency_of, simulated};
use crate::row::write_row;
use crate::worker::LatencyWorker;
use campaign_plan::Plan;
use fm_base::Refusal;
use fm_shelf::shelf::{Failed, Sink};
use fm_shelf::whole::write_all;
use golden_values::GoldenValues;
use netlist_levels::Order;
use readings::one_simulation_gives_all;
use room::NoRoom;
use std::alloc::Global;
use std::thread::Threads;
use testbench::Testbench;

/// What is known of the faults of a plan.
#[derive(Drop)]
pub struct Simulated {
    golden: GoldenValues,
    crew: Vec<LatencyWorker>,
}

// Simulates all faults of a plan on its testbench.
fn simulate_on<R: Threads + Sync>(
    rt: &R,
    alloc: Global,
    plan: &Plan,
    bench: &Testbench<'_>,
    workers: u32,
) -> Result<Simulated, NoRoom>
    requires bench { IsTestbenchFor plan.now bench.now }
    requires workers { (0 < workers) × (workers ≤ 32) }
    ensures golden { IfOk result (λ s. HasSeenGolden plan.now.circuit plan.now.runs s.golden) }
    ensures crew { IfOk result (λ s. HaveKept plan.now s.crew.items) }
{
    let golden = GoldenValues::new(alloc, bench)?;
    let crew = simulated(rt, alloc, plan, bench, workers)?;
    Ok(Simulated { golden, crew })
}

// The same, on a testbench that is made and given up here.
fn simulate<R: Threads + Sync>(
    rt: &R,
    alloc: Global,
    plan: &Plan,
    order: &Order,
    workers: u32,
) -> Result<Simulated, NoRoom>
    requires order { IsOrder plan.now.circuit order.now }
    requires workers { (0 < workers) × (workers ≤ 32) }
    ensures golden { IfOk result (λ s. HasSeenGolden plan.now.circuit plan.now.runs s.golden) }
    ensures crew { IfOk result (λ s. HaveKept plan.now s.crew.items) }
{
    let bench = Testbench::of_plan(alloc, plan, order)?;
    let simulated = simulate_on(rt, alloc, plan, &bench, workers);
    drop(bench);
    simulated
}

// Writes the names of the columns.
fn write_columns<O: Sink>(out: &mut O) -> Result<(), Failed>
    ensures { Sends (O.seen out.old) (O.seen out.new)
        (whole_line (codes "fault,part,class,weight,excited,reached_run,reached_cycle,alarm_run,alarm_cycle,alarm,interval")) result }
{
    write_all(
        out,
        b"fault,part,class,weight,excited,reached_run,reached_cycle,alarm_run,alarm_cycle,alarm,interval\n",
    )
}

// Writes the row of a fault.
fn write_fault<O: Sink>(
    plan: &Plan,
    golden: &GoldenValues,
    crew: &[LatencyWorker],
    i: u32,
    out: &mut O,
) -> Result<(), Failed>
    requires order { (nets : List NetValue) × IsOrder plan.now.circuit nets }
    requires golden { HasSeenGolden plan.now.circuit plan.now.runs golden.now }
    requires crew { HaveKept plan.now crew.now }
    requires fault { i < fault_count plan.now }
    ensures { Sends (O.seen out.old) (O.seen out.new) (latency_row (least_interval plan.now) plan.now i) result }
{
    one_simulation_gives_all();
    let excited = golden.excites_fault(plan, i);
    write_row(plan, i, excited, latency_of(plan, crew, i), out)
}

// Writes the rows of all faults.
fn write_rows<O: Sink>(
    plan: &Plan,
    golden: &GoldenValues,
    crew: &[LatencyWorker],
    out: &mut O,
) -> Result<(), Failed>
    requires order { (nets : List NetValue) × IsOrder plan.now.circuit nets }
    requires golden { HasSeenGolden plan.now.circuit plan.now.runs golden.now }
    requires crew { HaveKept plan.now crew.now }
    ensures { Sends (O.seen out.old) (O.seen out.new)
        (flat_map (latency_row (least_interval plan.now) plan.now) (below (fault_count plan.now))) result }
{
    for i in 0..plan.faults().len() {
        write_fault(plan, golden, crew, i, out)?;
    }
    Ok(())
}

// Writes the whole table.
fn write_table<O: Sink>(
    plan: &Plan,
    golden: &GoldenValues,
    crew: &[LatencyWorker],
    out: &mut O,
) -> Result<(), Failed>
    requires order { (nets : List NetValue) × IsOrder plan.now.circuit nets }
    requires golden { HasSeenGolden plan.now.circuit plan.now.runs golden.now }
    requires crew { HaveKept plan.now crew.now }
    ensures { Sends (O.seen out.old) (O.seen out.new) (latencies plan.now) result }
{
    write_columns(out)?;
    write_rows(plan, golden, crew, out)
}

/// Simulates each fault alone, in a thread for each of 1 to 32 workers, and writes the table of latencies: the names of the
/// columns, and a row for each fault in list order. All memory is taken before the first byte goes out, in proportion to the faults,
/// so `Memory` means that nothing did; where `out` has failed a prefix did.
pub fn write_latencies<R: Threads + Sync, O: Sink>(
    rt: &R,
    alloc: Global,
    plan: &Plan,
    order: &Order,
    workers: u32,
    out: &mut O,
) -> Result<(), Refusal<Failed>>
    requires order { IsOrder plan.now.circuit order.now }
    requires workers { (0 < workers) × (workers ≤ 32) }
    ensures wrote { OnOk result (Wrote (O.seen out.old) (O.seen out.new) (latencies plan.now)) }
    ensures grows { (O.seen out.old).faults ≤ (O.seen out.new).faults }
    ensures memory { (no_room : NoRoom) → result ≡ Err (Memory no_room) → O.seen out.new ≡ O.seen out.old }
    ensures failed { (failed : FailedValue) → result ≡ Err (FaultOf failed) → WrotePrefix (O.seen out.old) (O.seen out.new) (latencies plan.now) }
{
    let known = simulate(rt, alloc, plan, order, workers)?;
    match write_table(plan, &known.golden, &known.crew, out) {
        Ok(()) => Ok(()),
        Err(failed) => Err(Refusal::Fault(failed)),
    }
}
