// One circuit at a time.
ghost use Rattle.std.specs.Prelude.{◌≡◌, ◌<◌, ◌+◌, ◌++◌, ◌∷◌, ◌^◌, [], ℕ, All, Bool, List, Option, None, IfOk, length, slice_index_or, bit_or, if◌then◌else◌};
ghost use Rattle.circuit.specs.After.{IsAfter as IsAfterCycles};
ghost use Rattle.circuit.specs.Order.{IsOrder};
ghost use Rattle.circuit.specs.Trace.{trace};
ghost use Rattle.circuit.specs.Circuit.{Circuit};
ghost use Rattle.circuit.specs.declared.parts.Fault.{Fault as FaultValue};
ghost use Rattle.circuit.specs.declared.parts.NetId.{NetId as NetIdValue};
ghost use Rattle.cycle_sim.specs.Sim.{IsSimulationFor, Simulation};
ghost use Rattle.fm_base.specs.Planes.{plane_of};
ghost use Rattle.lane_words.specs.Loads.{somes};
ghost use Rattle.fault_list.specs.Faults.{fault_in_lane};
ghost use Rattle.row_audit.specs.Alone.{AreOfOneNetlist, AreSims, HaveRun, fault_alone, in_circuits, sim_at};
ghost use Rattle.row_audit.specs.declared.kernel.Kernel.TheVariants.{OneCircuit as OneCircuitKernel};

use crate::circuits::Circuits;
use crate::kernel::Kernel;
use circuit::netlist::Netlist;
use circuit::parts::{Fault, NetId};
use cycle_sim::sim::Sim;
use fault_list::FaultList;
use netlist_levels::Order;
use room::{NoRoom, push};
use std::alloc::Global;
use std::slice;

const LANES: usize = 64;

/// The golden circuit and 64 others with a fault each, every one of them simulated by itself.
#[derive(Drop)]
pub struct OneCircuit {
    pub golden: Sim,
    pub sims: Vec<Sim>,
    pub faults: [Option<Fault>; 64],
}

// Simulations for a netlist and an order of its tables, one for each lane.
fn sims_for(alloc: Global, net: &Netlist, order: &Order) -> Result<Vec<Sim>, NoRoom>
    requires { IsOrder net.now order.now }
    ensures { IfOk result (λ sims. AreSims net.now order.now sims.items) }
{
    let mut sims = Vec::new(alloc);
    for _ in 0..LANES {
        push(&mut sims, Sim::new(alloc, net, order)?)?;
    }
    Ok(sims)
}

/// Circuits for a netlist and an order of its tables, without faults and not yet started.
pub(crate) fn circuits_for(
    alloc: Global,
    net: &Netlist,
    order: &Order,
) -> Result<OneCircuit, NoRoom>
    requires { IsOrder net.now order.now }
    ensures circuit { IfOk result (λ made. made.golden.circuit ≡ net.now) }
    ensures order { IfOk result (λ made. made.golden.order ≡ order.now) }
    ensures alike { IfOk result (λ made. AreOfOneNetlist made) }
{
    let golden = Sim::new(alloc, net, order)?;
    let sims = sims_for(alloc, net, order)?;
    Ok(OneCircuit {
        golden,
        sims,
        faults: [None; LANES],
    })
}

// The fault, if there is one, as a list.
fn as_list(fault: &Option<Fault>) -> &[Fault]
    ensures { result.now ≡ somes (fault.now ∷ []) }
{
    match fault {
        Some(fault) => slice::from_ref(fault),
        None => &[],
    }
}

// Puts the faults of a batch into the lanes.
fn load_lanes(faults: &FaultList, batch: Option<u32>, lanes: &mut [Option<Fault>; 64])
    ensures { (k : ℕ) → k < 64 → slice_index_or lanes.new k None ≡ fault_in_lane faults.now batch k }
{
    for lane in 0..LANES {
        lanes[lane] = faults.in_lane(batch, lane as u32);
    }
}

// Goes to the initial state in each simulation.
fn start_all(sims: &mut [Sim])
    ensures alike { (c : Circuit) (order : List NetIdValue) → AreSims c order sims.old → AreSims c order sims.new }
    ensures start { (golden : Simulation) (k : ℕ) (faults : List FaultValue) → k < length sims.old
        → IsAfterCycles (sim_at golden sims.new k).circuit faults [] (sim_at golden sims.new k).moment }
{
    for k in 0..sims.len() {
        sims[k].start();
    }
}

// Simulates the next cycle in each, with its own fault.
fn advance_all(
    net: &Netlist,
    order: &Order,
    inputs: &[bool],
    faults: &[Option<Fault>; 64],
    sims: &mut [Sim],
)
    requires alike { AreSims net.now order.now sims.old }
    requires few { All (λ sim. sim.moment.cycle < 65536) sims.old }
    ensures alike { AreSims net.now order.now sims.new }
    ensures step { (golden : Simulation) (vectors : List (List Bool)) (k : ℕ) → k < 64
        → IsAfterCycles net.now (fault_alone faults.now k) vectors (sim_at golden sims.old k).moment
        → IsAfterCycles net.now (fault_alone faults.now k) (vectors ++ inputs.now ∷ []) (sim_at golden sims.new k).moment }
{
    for k in 0..sims.len() {
        sims[k].cycle(net, order, inputs, as_list(&faults[k]));
    }
}

// A plane with the bit of one lane more.
fn with_lane(plane: u64, lane: usize, value: bool) -> u64
    requires { lane < 64 }
    ensures { result ≡ bit_or plane (if value then 2 ^ lane else 0) }
{
    if value { plane | (1u64 << lane) } else { plane }
}

// The value of a net in the last cycle of each, as a plane.
fn plane_in(sims: &[Sim], net: NetId) -> u64
    requires { length sims.now ≡ 64 }
    ensures { (golden : Simulation) (faults : ℕ → List FaultValue) (vectors : List (List Bool)) (t : ℕ)
        → AreSims golden.circuit golden.order sims.now
        → ((k : ℕ) → k < 64 → IsAfterCycles golden.circuit (faults k) vectors (sim_at golden sims.now k).moment)
        → t + 1 ≡ length vectors → net.0 < length golden.circuit.drivers
        → result ≡ plane_of (λ k. trace golden.circuit (faults k) vectors t net.0) }
{
    let mut plane = 0;
    for (lane, sim) in sims.iter().enumerate() {
        plane = with_lane(plane, lane, sim.net(net));
    }
    plane
}

impl Circuits for OneCircuit {
    ghost words = { 1 };

    ghost kernel = { OneCircuitKernel };

    ghost loaded = { in_circuits };

    ghost IsSound = { AreOfOneNetlist };

    ghost IsAfter = { HaveRun };

    fn kernel() -> Kernel {
        Kernel::OneCircuit
    }

    fn words() -> usize {
        1
    }

    fn load_batch(&mut self, _word: usize, faults: &FaultList, batch: Option<u32>) {
        load_lanes(faults, batch, &mut self.faults);
    }

    fn restart(&mut self) {
        self.golden.start();
        start_all(&mut self.sims);
    }

    fn advance(&mut self, net: &Netlist, order: &Order, inputs: &[bool]) {
        self.golden.cycle(net, order, inputs, &[]);
        advance_all(net, order, inputs, &self.faults, &mut self.sims);
    }

    fn values(&self, net: NetId, _word: usize) -> u64 {
        plane_in(&self.sims, net)
    }

    fn golden(&self, net: NetId) -> bool {
        self.golden.net(net)
    }
}
