// A simulation without faults, driven by events.
ghost use Rattle.std.specs.Prelude.{◌≡◌, ◌+◌, [], ℕ, Bool, List, IfOk};
ghost use Rattle.circuit.specs.Order.{IsOrder};
ghost use Rattle.circuit.specs.Trace.{first_state, raw_state, vector_at};
ghost use Rattle.golden_difference.specs.Beside.{IsGoldenRow};
ghost use Rattle.golden_run.specs.Events.{IsWiring, ordered_of};
ghost use Rattle.golden_run.specs.Simulated.{IsSimulationOf, HasRun};

use crate::source::{show_inputs, show_latches, take_latches, take_starts};
use crate::values::Values;
use crate::walk::settle;
use crate::wiring::Wiring;
use circuit::netlist::Netlist;
use netlist_levels::Order;
use room::{NoRoom, filled};
use std::alloc::Global;

/// The values of all nets in the last cycle, and what each latch takes for the next one.
#[derive(Drop)]
pub(crate) struct Simulation {
    pub values: Values,
    pub raw: Vec<bool>,
}

impl Simulation {
    /// A simulation that hasn't begun.
    pub fn new(alloc: Global, netlist: &Netlist, order: &Order) -> Result<Self, NoRoom>
        requires { IsOrder netlist.now order.now }
        ensures { IfOk result (λ simulation. IsSimulationOf (record { circuit = netlist.now; order = order.now }) simulation) }
    {
        let values = Values::new(alloc, netlist, order)?;
        let raw = filled(alloc, false, netlist.latches().len())?;
        Ok(Simulation { values, raw })
    }

    /// Begins a run: the latches have their initial values, and each table is to be evaluated.
    pub fn start(&mut self, wiring: &Wiring<'_>)
        requires { IsSimulationOf (ordered_of wiring.now) self.old }
        ensures made { IsSimulationOf (ordered_of wiring.now) self.new }
        ensures raw { self.new.raw.items ≡ first_state wiring.now.netlist.now }
    {
        take_starts(wiring.netlist.latches(), &mut self.raw);
        self.values.all = true;
    }

    /// Simulates the next cycle, with these bits of the inputs. Where few tables were evaluated in the last one, only those are of which an input has changed.
    pub fn cycle(&mut self, wiring: &Wiring<'_>, inputs: &[bool])
        requires wiring { IsWiring wiring.now }
        requires made { IsSimulationOf (ordered_of wiring.now) self.old }
        ensures made { IsSimulationOf (ordered_of wiring.now) self.new }
        ensures run { (vectors : List (List Bool)) (t : ℕ) → inputs.now ≡ vector_at vectors t → self.old.raw.items ≡ raw_state wiring.now.netlist.now [] vectors t → HasRun wiring.now.netlist.now vectors t self.new }
    {
        show_latches(wiring, &self.raw, &mut self.values);
        show_inputs(wiring, inputs, &mut self.values);
        settle(wiring, &mut self.values);
        take_latches(wiring.netlist.latches(), &self.values.row, &mut self.raw);
    }
}
