// A simulation of one faulty circuit.
ghost use Rattle.std.specs.Prelude.{◌≡◌, ◌<◌, ◌+◌, ◌^◌, ◌++◌, ◌∷◌, [], ℕ, List, Bool, length, map, IfOk};
ghost use Rattle.circuit.specs.Value.{bit_at, cycle_of, net_value};
ghost use Rattle.circuit.specs.Trace.{flipped, trace};
ghost use Rattle.circuit.specs.Sound.{IsNetlist};
ghost use Rattle.circuit.specs.Order.{IsOrder};
ghost use Rattle.circuit.specs.After.{IsAfter};
ghost use Rattle.circuit.specs.declared.parts.Fault.{Fault};
ghost use Rattle.cycle_sim.specs.Sim.{IsSimulationFor};

use crate::walk::walk;
use circuit::meaning::{bit, is_flipped, turned};
use circuit::netlist::Netlist;
use circuit::parts::{Fault, Latch, NetId};
use netlist_levels::Order;
use room::{NoRoom, collect, filled};
use std::alloc::Global;
use std::marker::Model;
use std::snapshot::Snapshot;

fn flip(faults: &[Fault], cycle: u32, bits: &mut [bool])
    requires { length bits.old < 2 ^ 32 }
    ensures { bits.new ≡ flipped faults.now cycle bits.old }
{
    for latch in 0..bits.len() {
        bits[latch] = turned(is_flipped(faults, latch as u32, cycle), bits[latch]);
    }
}

fn take_next(latches: &[Latch], values: &[bool], state: &mut [bool])
    requires { length state.old ≡ length latches.now }
    ensures { state.new ≡ map (λ latch. bit_at values.now latch.from.0) latches.now }
{
    for (k, latch) in latches.iter().enumerate() {
        state[k] = bit(values, latch.from.0);
    }
}

// Runs one cycle on what the latches hold.
fn run(
    netlist: &Netlist,
    order: &[NetId],
    inputs: &[bool],
    faults: &[Fault],
    cycle: u32,
    raw: &mut [bool],
    values: &mut [bool],
)
    requires latches { length raw.old ≡ length netlist.now.latches }
    requires nets { length values.old ≡ length netlist.now.drivers }
    requires order { IsOrder netlist.now order.now }
    ensures values { (m : ℕ) → m < length netlist.now.drivers
        → bit_at values.new m ≡ net_value (cycle_of netlist.now faults.now cycle (flipped faults.now cycle raw.old) inputs.now) m }
    ensures raw { raw.new ≡ map (λ latch. bit_at values.new latch.from.0) netlist.now.latches }
    ensures sound { IsNetlist netlist.now }
{
    let latches = netlist.latches();
    flip(faults, cycle, raw);
    walk(netlist, order, faults, cycle, raw, inputs, values);
    take_next(latches, values, raw);
}

fn first_state_of(alloc: Global, latches: &[Latch]) -> Result<Vec<bool>, NoRoom>
    ensures { IfOk result (λ starts. starts.items ≡ map (λ latch. latch.start) latches.now) }
{
    collect(latches.iter().map(|latch| latch.start), alloc)
}

/// A simulation of one netlist, which stands between two cycles.
#[derive(Drop)]
pub struct Sim {
    circuit: Snapshot<Netlist>,
    order: Snapshot<Order>,
    starts: Vec<bool>,
    cycle: u32,
    raw: Vec<bool>,
    values: Vec<bool>,
}

impl Model for Sim {
    ghost use Rattle.circuit.specs.After.{Moment};
    ghost use Rattle.cycle_sim.specs.Sim.{AreSizedFor, Simulation};

    ghost Value = { Simulation };

    ghost view = { λ s. record {
      circuit = s.circuit.value;
      order = s.order.value;
      moment = record { cycle = s.cycle; raw = s.raw.items; values = s.values.items };
    } };

    ghost invariant = { λ s. AreSizedFor s.circuit.value s.order.value s.starts.items s.raw.items s.values.items };
}

impl Sim {
    /// A simulation for a netlist and an order of its tables, not yet started.
    pub fn new(alloc: Global, netlist: &Netlist, order: &Order) -> Result<Self, NoRoom>
        requires { IsOrder netlist.now order.now }
        ensures { IfOk result (λ sim. IsSimulationFor netlist.now order.now sim) }
    {
        let latches = netlist.latches();
        Ok(Sim {
            circuit: Snapshot::of(netlist),
            order: Snapshot::of(order),
            starts: first_state_of(alloc, latches)?,
            cycle: 0,
            raw: filled(alloc, false, latches.len())?,
            values: filled(alloc, false, netlist.nets())?,
        })
    }

    /// Goes to the initial state, before the cycle of number 0.
    pub fn start(&mut self)
        ensures circuit { self.new.circuit ≡ self.old.circuit }
        ensures order { self.new.order ≡ self.old.order }
        ensures cycle { self.new.moment.cycle ≡ 0 }
        // Whatever faults come, no cycle was simulated yet.
        ensures start { (faults : List Fault) → IsAfter self.new.circuit faults [] self.new.moment }
    {
        self.raw.copy_from_slice(&self.starts);
        self.cycle = 0;
    }

    /// Simulates the next cycle with these bits of the inputs, one for each, and with these faults.
    /// There can be 65,536 cycles since the start. It takes no memory.
    pub fn cycle(&mut self, netlist: &Netlist, order: &Order, inputs: &[bool], faults: &[Fault])
        requires made { IsSimulationFor netlist.now order.now self.old }
        requires few { self.old.moment.cycle < 65536 }
        ensures made { IsSimulationFor netlist.now order.now self.new }
        ensures cycle { self.new.moment.cycle ≡ self.old.moment.cycle + 1 }
        // After cycles with some vectors, it is after those and this one.
        ensures step { (vectors : List (List Bool)) → IsAfter netlist.now faults.now vectors self.old.moment
            → IsAfter netlist.now faults.now (vectors ++ inputs.now ∷ []) self.new.moment }
    {
        run(
            netlist,
            order.nets(),
            inputs,
            faults,
            self.cycle,
            &mut self.raw,
            &mut self.values,
        );
        self.cycle += 1;
    }

    /// The value of a net in the cycle that was simulated last.
    pub fn net(&self, net: NetId) -> bool
        // After cycles with these vectors and faults, t being the last: the net's trace.
        ensures { (faults : List Fault) (vectors : List (List Bool)) (t : ℕ) → IsAfter self.now.circuit faults vectors self.now.moment
            → t + 1 ≡ length vectors → net.0 < length self.now.circuit.drivers
            → result ≡ trace self.now.circuit faults vectors t net.0 }
    {
        bit(&self.values, net.0)
    }
}
