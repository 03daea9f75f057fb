// The golden run of a workload, cycle by cycle.
ghost use Rattle.std.specs.Prelude.{◌≡◌, ◌<◌, ◌/◌, ◌+◌, IfOk, length};
ghost use Rattle.circuit.specs.Order.{IsOrder};
ghost use Rattle.circuit.specs.Sound.{IsNetlist};
ghost use Rattle.workload.specs.Runs.{cycles_of, run_at};
ghost use Rattle.golden_run.specs.Events.{IsWiring, ordered_of};
ghost use Rattle.golden_run.specs.Recorded.{AreGoldenRows, AreRowsOf};
ghost use Rattle.golden_run.specs.Simulated.{IsSimulationOf};

use crate::simulation::Simulation;
use crate::wiring::Wiring;
use circuit::netlist::Netlist;
use fanout::Fanout;
use fm_base::Seq;
use lane_words::program::make_gates;
use netlist_levels::Order;
use room::{NoRoom, extend, push, with_room};
use std::alloc::Global;
use workload::run::Workload;

/// Rows of words, one behind the other.
pub(crate) type Words = Seq<u64>;

// The rows of a run.
fn rows_of(
    alloc: Global,
    wiring: &Wiring<'_>,
    work: &Workload,
    run: u32,
    simulation: &mut Simulation,
) -> Result<Vec<u64>, NoRoom>
    requires wiring { IsWiring wiring.now }
    requires made { IsSimulationOf (ordered_of wiring.now) simulation.old }
    requires run { run < length work.now }
    ensures made { IsSimulationOf (ordered_of wiring.now) simulation.new }
    ensures rows { IfOk result (λ words. AreRowsOf wiring.now.netlist.now (run_at work.now run) (length wiring.now.netlist.now.drivers / 64 + 1) (cycles_of (run_at work.now run)) words.items) }
{
    let cycles = work.cycles(run);
    let width = simulation.values.row.len();
    let mut words = with_room(alloc, (cycles as usize).saturating_mul(width))?;
    simulation.start(wiring);
    for t in 0..cycles {
        simulation.cycle(wiring, work.vector(run, t));
        extend(&mut words, &simulation.values.row)?;
    }
    Ok(words)
}

// The rows of all runs, one after the other.
fn rows_for(
    alloc: Global,
    wiring: &Wiring<'_>,
    work: &Workload,
    simulation: &mut Simulation,
) -> Result<Vec<Words>, NoRoom>
    requires wiring { IsWiring wiring.now }
    requires made { IsSimulationOf (ordered_of wiring.now) simulation.old }
    ensures { IfOk result (λ rows. AreGoldenRows (record { circuit = wiring.now.netlist.now; runs = work.now }) (length wiring.now.netlist.now.drivers / 64 + 1) (length work.now) rows.items) }
{
    let mut rows = Vec::new(alloc);
    for run in 0..work.runs() {
        let words = rows_of(alloc, wiring, work, run, simulation)?;
        push(&mut rows, Words::from_vec(words))?;
    }
    Ok(rows)
}

/// The rows of all runs.
pub(crate) fn all_rows(
    alloc: Global,
    netlist: &Netlist,
    order: &Order,
    fanout: &Fanout,
    work: &Workload,
) -> Result<Vec<Words>, NoRoom>
    requires order { IsOrder netlist.now order.now }
    requires fanout { fanout.now ≡ record { circuit = netlist.now; order = order.now } }
    ensures { IfOk result (λ rows. AreGoldenRows (record { circuit = netlist.now; runs = work.now }) (length netlist.now.drivers / 64 + 1) (length work.now) rows.items) }
{
    let gates = make_gates(alloc, netlist, order.nets())?;
    let mut simulation = Simulation::new(alloc, netlist, order)?;
    let wiring = Wiring {
        netlist,
        order: order.nets(),
        gates: &gates,
        fanout,
    };
    rows_for(alloc, &wiring, work, &mut simulation)
}
