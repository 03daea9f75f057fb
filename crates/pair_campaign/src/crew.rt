// The crew that judges pairs.
ghost use Rattle.std.specs.Prelude.{◌≡◌, ◌<◌, ◌≤◌, IfOk};
ghost use Rattle.circuit.specs.Order.{IsOrder};
ghost use Rattle.pair_list.specs.Chosen.{AreFaults};

use crate::fan_out::PairRounds;
use crate::load::planes_for;
use crate::worker::PairWorker;
use batch_crew::hired;
use campaign_plan::Plan;
use fm_base::Seq;
use netlist_levels::Order;
use pair_list::Pairs;
use room::{NoRoom, filled};
use std::alloc::Global;
use std::marker::Model;
use std::snapshot::Snapshot;
use testbench::Testbench;

/// Planes of pairs: bit k of plane q says whether pair 64q + k is dangerous, and is 0 where there is none.
pub type PairPlanes = Seq<u64>;

/// A testbench, workers with their simulators, and the room for all planes. Judging takes no memory.
#[derive(Drop)]
pub struct PairCrew<'a> {
    plan: Snapshot<Plan>,
    pairs: Snapshot<Pairs>,
    pub(crate) bench: Testbench<'a>,
    pub(crate) workers: Vec<PairWorker>,
    pub(crate) planes: Vec<u64>,
}

impl<'a> Model for PairCrew<'a> {
    ghost use Rattle.pair_campaign.specs.Crews.{IsCrewFor, MadeFor};

    ghost Value = { MadeFor };

    ghost view = { λ c. record { plan = c.plan.value; pairs = c.pairs.value } };

    ghost invariant = { λ c. IsCrewFor (record { plan = c.plan.value; pairs = c.pairs.value }) c.bench c.workers.items c.planes.items };
}

impl<'a> PairCrew<'a> {
    /// A crew of 1 to 32 workers for the pairs of a plan.
    pub fn new(
        alloc: Global,
        plan: &'a Plan,
        order: &'a Order,
        pairs: &Pairs,
        workers: u32,
    ) -> Result<Self, NoRoom>
        requires workers { (0 < workers) × (workers ≤ 32) }
        requires order { IsOrder plan.now.circuit order.now }
        requires pairs { AreFaults plan.now pairs.now }
        ensures { IfOk result (λ crew. crew ≡ record { plan = plan.now; pairs = pairs.now }) }
    {
        let bench = Testbench::of_plan(alloc, plan, order)?;
        let rounds = PairRounds {
            plan,
            bench: &bench,
            pairs,
        };
        let workers = hired(alloc, &rounds, workers)?;
        let room = filled(alloc, 0, planes_for(pairs) as usize)?;
        Ok(PairCrew {
            plan: Snapshot::of(plan),
            pairs: Snapshot::of(pairs),
            bench,
            workers,
            planes: room,
        })
    }
}
