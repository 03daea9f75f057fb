// The outcomes of all faults of a plan.
ghost use Rattle.std.specs.Prelude.{◌≡◌, ◌≤◌, ◌+◌, ◌*◌, IfOk, length};
ghost use Rattle.circuit.specs.Order.{IsOrder};
ghost use Rattle.classifier.specs.Simulator.{simulator_of};
ghost use Rattle.testbench.specs.Testbench.{IsTestbenchFor};
ghost use Rattle.fault_collapse.specs.Outcomes.{all_planes, collapsed_of, most_steps};

use crate::chosen::choose;
use crate::simulate::{WORDS, simulate};
use crate::spread::spread;
use campaign_plan::{Outcome, Plan};
use classifier::Simulator;
use collapse_map::Collapse;
use fm_base::{Seq, Steps};
use room::{NoRoom, filled};
use std::alloc::Global;
use std::sync::ledger::Ledger;
use testbench::Testbench;

const LANES: usize = 64;

/// No lane in danger, and none noticed.
const NOTHING: Outcome = Outcome {
    danger: 0,
    noticed: 0,
};

/// The planes of batches, in rising order.
pub type OutcomeList = Seq<Outcome>;

/// The planes that each batch of a plan truly has, in rising order. Only faults that are their own representatives are
/// simulated, 256 at once; each other fault has the bits of its representative. It takes at most one step for each table and
/// cycle, for each 256 faults that are their own representatives.
pub fn collapsed_outcomes<L: Ledger>(
    alloc: Global,
    plan: &Plan,
    bench: &Testbench<'_>,
    collapse: &Collapse,
    simulator: &mut Simulator,
    steps: &mut Steps<L>,
) -> Result<OutcomeList, NoRoom>
    requires bench { IsTestbenchFor plan.now bench.now }
    requires order { IsOrder plan.now.circuit bench.now.order }
    requires collapse { collapse.now ≡ collapsed_of plan.now }
    requires simulator { simulator.old ≡ simulator_of bench.now plan.now.settings.ftti }
    ensures outcomes { IfOk result (λ list. list ≡ all_planes plan.now) }
    ensures same { simulator.new ≡ simulator.old }
    ensures cost { steps.new ≤ steps.old + most_steps plan.now }
{
    let count = plan.faults().len();
    let chosen = choose(alloc, collapse, count)?;
    let rounds = chosen.numbers.len().div_ceil(LANES * WORDS);
    let mut found = filled(alloc, NOTHING, rounds * WORDS)?;
    let mut list = filled(alloc, NOTHING, plan.batches() as usize)?;
    simulate(plan, bench, &chosen.numbers, &mut found, simulator, steps);
    spread(collapse, &chosen.places, &found, count, &mut list);
    Ok(Seq::from_vec(list))
}
