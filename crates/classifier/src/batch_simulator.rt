// Batches that are asked for one after the other.
ghost use Rattle.std.specs.Prelude.{◌≡◌, ◌<◌, IfOk, IfSome, None, Some};
ghost use Rattle.circuit.specs.Order.{IsOrder};
ghost use Rattle.classifier.specs.Batch.{batch_at};
ghost use Rattle.classifier.specs.Simulated.{planes_simulated, simulated_of};

use crate::outcome::NOTHING;
use crate::simulator::Simulator;
use campaign_plan::{Outcome, Plan};
use circuit::netlist::Netlist;
use fault_list::FaultList;
use netlist_levels::Order;
use room::NoRoom;
use std::alloc::Global;
use std::marker::Model;
use testbench::Testbench;

/// What simulates batches of faults that are asked for one after the other: where one isn't at hand, it is simulated together with
/// the three that are likely to be asked for next. No call but `new` and `of_plan` takes memory.
#[derive(Drop)]
pub struct BatchSimulator<'a> {
    bench: Testbench<'a>,
    faults: &'a FaultList,
    simulator: Simulator,
    // How far the batches that are asked for lie apart.
    apart: u32,
    // The batches that are at hand, and their planes.
    batches: [Option<u32>; 4],
    planes: [Outcome; 4],
}

impl<'a> Model for BatchSimulator<'a> {
    ghost use Rattle.classifier.specs.Simulated.{Simulated};
    ghost use Rattle.classifier.specs.Batches.{ArePlanesAtHand, what_is_simulated};

    ghost Value = { Simulated };

    ghost view = { λ s. what_is_simulated s.bench s.faults.now s.simulator };

    ghost invariant = { λ s. ArePlanesAtHand s.bench s.faults.now s.simulator s.batches s.planes };
}

// The place of a batch among these.
fn place_of(batches: &[Option<u32>; 4], batch: u32) -> Option<usize>
    ensures within { IfSome result (λ word. word < 4) }
    ensures there { IfSome result (λ word. batch_at batches.now word ≡ Some batch) }
{
    for (word, other) in batches.iter().enumerate() {
        if *other == Some(batch) {
            return Some(word);
        }
    }
    None
}

// A batch, and the three that follow so far apart.
fn four_from(batch: u32, apart: u32) -> [Option<u32>; 4]
    ensures { batch_at result 0 ≡ Some batch }
{
    let second = batch.checked_add(apart);
    let third = batch.checked_add(apart.saturating_mul(2));
    let fourth = batch.checked_add(apart.saturating_mul(3));
    [Some(batch), second, third, fourth]
}

impl<'a> BatchSimulator<'a> {
    /// A simulator of batches of these faults. `ftti` is the fault tolerant time interval in cycles, for the goals without one of
    /// their own. The batches that are asked for are likely to lie so far apart.
    pub fn new(
        alloc: Global,
        bench: Testbench<'a>,
        faults: &'a FaultList,
        ftti: u32,
        apart: u32,
    ) -> Result<Self, NoRoom>
        ensures { IfOk result (λ s. s ≡ record { circuit = bench.entry.circuit; faults = faults.now; runs = bench.entry.runs; points = bench.entry.points; ftti = ftti }) }
    {
        let simulator = Simulator::new(alloc, &bench, ftti)?;
        Ok(BatchSimulator {
            bench,
            faults,
            simulator,
            apart,
            batches: [None; 4],
            planes: [NOTHING; 4],
        })
    }

    /// A simulator of the batches of a plan.
    pub fn of_plan(
        alloc: Global,
        plan: &'a Plan,
        order: &'a Order,
        apart: u32,
    ) -> Result<Self, NoRoom>
        requires { IsOrder plan.now.circuit order.now }
        ensures { IfOk result (λ s. s ≡ simulated_of plan.now) }
    {
        let bench = Testbench::of_plan(alloc, plan, order)?;
        BatchSimulator::new(alloc, bench, plan.faults(), plan.settings().ftti, apart)
    }

    /// The netlist.
    pub fn net(&self) -> &'a Netlist
        ensures { result.now ≡ self.now.circuit }
    {
        self.bench.net()
    }

    /// The faults.
    pub fn faults(&self) -> &'a FaultList
        ensures { result.now ≡ self.now.faults }
    {
        self.faults
    }

    // Simulates a batch and those that are likely to follow it.
    fn simulate_from(&mut self, batch: u32) -> Outcome
        ensures outcome { result ≡ planes_simulated self.old batch }
        ensures same { self.new ≡ self.old }
    {
        self.batches = four_from(batch, self.apart);
        self.planes = self.simulator.quad(&self.bench, self.faults, &self.batches);
        self.planes[0]
    }

    /// The planes of danger and of notice of a batch of 64 faults, each alone; bits of lanes that hold no fault are 0, as are all
    /// of a batch behind the last.
    pub fn batch(&mut self, batch: u32) -> Outcome
        ensures outcome { result ≡ planes_simulated self.old batch }
        ensures same { self.new ≡ self.old }
    {
        match place_of(&self.batches, batch) {
            Some(word) => self.planes[word],
            None => self.simulate_from(batch),
        }
    }
}
