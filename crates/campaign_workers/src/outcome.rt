ghost use Rattle.std.specs.Prelude.{◌≡◌, ◌<◌};
ghost use Rattle.campaign_plan.specs.Analysis.{batch_count};
ghost use Rattle.campaign_plan.specs.Batches.{true_planes};
ghost use Rattle.campaign_workers.specs.Rounds.{true_planes_in};
ghost use Rattle.campaign_workers.specs.Truth.{true_entry};
ghost use Rattle.classifier.specs.Simulator.{simulator_of};
ghost use Rattle.testbench.specs.Testbench.{IsTestbenchFor};

use campaign_board::Entry;
use campaign_plan::{Outcome, Plan, own_sums};
use classifier::Simulator;
use testbench::Testbench;

/// The planes that each of up to four batches truly has, simulated together.
pub(crate) fn simulated_planes(
    plan: &Plan,
    bench: &Testbench<'_>,
    batches: &[Option<u32>; 4],
    simulator: &mut Simulator,
) -> [Outcome; 4]
    requires bench { IsTestbenchFor plan.now bench.now }
    requires simulator { simulator.old ≡ simulator_of bench.now plan.now.settings.ftti }
    ensures planes { result ≡ true_planes_in plan.now batches.now }
    ensures simulator { simulator.new ≡ simulator.old }
{
    simulator.quad(bench, plan.faults(), batches)
}

/// The entry of a batch with these planes, which are those that it truly has.
pub(crate) fn entry_with(plan: &Plan, batch: u32, planes: Outcome) -> Entry
    requires batch { batch < batch_count plan.now }
    requires planes { planes ≡ true_planes plan.now batch }
    ensures { result ≡ true_entry plan.now batch }
{
    Entry {
        batch,
        danger: planes.danger,
        noticed: planes.noticed,
        own: own_sums(plan, batch, planes),
    }
}
