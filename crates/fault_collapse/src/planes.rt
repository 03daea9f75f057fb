// The planes of all batches of a plan, with all that it takes to simulate them.
ghost use Rattle.std.specs.Prelude.{◌≡◌, ◌<◌, IfOk};
ghost use Rattle.circuit.specs.Order.{IsOrder};
ghost use Rattle.testbench.specs.Testbench.{testbench_of};
ghost use Rattle.fault_collapse.specs.Outcomes.{all_planes, collapsed_of};

use crate::outcomes::{OutcomeList, collapsed_outcomes};
use campaign_plan::Plan;
use classifier::Simulator;
use collapse_map::Collapse;
use fm_base::Steps;
use netlist_levels::Order;
use room::NoRoom;
use std::alloc::Global;
use std::marker::Brand;
use std::sync::ledger::{Blank, Ledger};
use testbench::Testbench;

// The planes of all batches, by a simulator that is made here.
fn simulated_planes<L: Ledger>(
    alloc: Global,
    plan: &Plan,
    bench: &Testbench<'_>,
    collapse: &Collapse,
    steps: &mut Steps<L>,
) -> Result<OutcomeList, NoRoom>
    requires order { IsOrder plan.now.circuit bench.now.order }
    requires collapse { collapse.now ≡ collapsed_of plan.now }
    requires bench { bench.now ≡ testbench_of plan.now bench.now.order }
    ensures { IfOk result (λ list. list ≡ all_planes plan.now) }
{
    let mut simulator = Simulator::new(alloc, bench, plan.settings().ftti)?;
    let planes = collapsed_outcomes(alloc, plan, bench, collapse, &mut simulator, steps);
    drop(simulator);
    planes
}

// The same, with a counter of steps that nobody reads.
fn counted_planes<L: Ledger>(
    alloc: Global,
    blank: Blank,
    plan: &Plan,
    order: &Order,
) -> Result<OutcomeList, NoRoom>
    requires name { blank.name ≡ L.name }
    requires parts { blank.parts ≡ L.parts }
    requires some { 0 < blank.parts }
    requires order { IsOrder plan.now.circuit order.now }
    ensures { IfOk result (λ list. list ≡ all_planes plan.now) }
{
    let (net, points) = (plan.net(), plan.points());
    let collapse = Collapse::new(alloc, net, order, plan.faults(), points)?;
    let bench = Testbench::of_plan(alloc, plan, order)?;
    let mut steps: Steps<L> = Steps::fresh(blank);
    simulated_planes(alloc, plan, &bench, &collapse, &mut steps)
}

/// The planes that each batch of a plan truly has, in rising order: equal faults are collapsed, and only faults that are their own
/// representatives are simulated, on this thread. The testbench and the simulator are made here.
pub fn collapsed_planes(alloc: Global, plan: &Plan, order: &Order) -> Result<OutcomeList, NoRoom>
    requires { IsOrder plan.now.circuit order.now }
    ensures { IfOk result (λ list. list ≡ all_planes plan.now) }
{
    counted_planes::<Brand>(alloc, Blank::new(1), plan, order)
}
