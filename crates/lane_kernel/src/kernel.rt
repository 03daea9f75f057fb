// As many faulty circuits as a word has bits, cycle by cycle.
ghost use Rattle.std.specs.Prelude.{◌≡◌, ◌<◌, ◌≤◌, ◌+◌, ◌⊎◌, ◌++◌, ◌∷◌, [], ℕ, Bool, List, Option, IfOk, length, map, slice_index_or};
ghost use Rattle.circuit.specs.declared.parts.Fault.{Fault};
ghost use Rattle.circuit.specs.Order.{IsOrder};
ghost use Rattle.lane_words.specs.Bank.{AreAfter, AreUnloaded, IsBankFor, KeepsBankLoads};
ghost use Rattle.lane_words.specs.Gates.{plane};
ghost use Rattle.lane_kernel.specs.Kernel.{IsLaneKernel, kernel_bank};
ghost use Rattle.lane_words.specs.Loads.{loaded_faults};
ghost use Rattle.circuit.specs.Value.{bit_at};

use crate::cycle::run;
use crate::load::{disarm_all, is_some_transient, prepare, unmark_all};
use crate::source::take_first;
use circuit::netlist::Netlist;
use circuit::parts::{Fault, Latch, NetId};
use fm_base::Steps;
use lane_words::arm::{arm_for, no_faults, place};
use lane_words::force::{Force, idle_forces};
use lane_words::gate::{Gate, Masks};
use lane_words::program::{make_gates, make_ops};
use lane_words::{Word, word_at};
use netlist_levels::Order;
use room::{NoRoom, collect, filled};
use std::alloc::Global;
use std::snapshot::Snapshot;
use std::sync::ledger::Ledger;

/// Simulations of one netlist, one in each lane of a word, which stand between two cycles.
#[derive(Drop)]
pub struct Kernel<W> {
    circuit: Snapshot<Netlist>,
    order: Snapshot<Order>,
    gates: Vec<Gate>,
    masks: Vec<Masks<W>>,
    starts: Vec<bool>,
    loads: Vec<[Option<Fault>; 2]>,
    transient: bool,
    marks: Vec<bool>,
    next: Vec<usize>,
    forces: Vec<Force<W>>,
    stale: bool,
    cycle: u32,
    raw: Vec<W>,
    words: Vec<W>,
}

fn first_state_of(alloc: Global, latches: &[Latch]) -> Result<Vec<bool>, NoRoom>
    ensures { IfOk result (λ starts. starts.items ≡ map (λ latch. latch.start) latches.now) }
{
    collect(latches.iter().map(|latch| latch.start), alloc)
}

impl<W: Word> Kernel<W> {
    /// Lanes for a netlist and an order of its tables, without faults.
    pub fn new(alloc: Global, netlist: &Netlist, order: &Order) -> Result<Self, NoRoom>
        requires { IsOrder netlist.now order.now }
        ensures kernel { IfOk result (λ s. IsLaneKernel W.lanes W.lane_bit s) }
        ensures made { IfOk result (λ s. IsBankFor netlist.now order.now (kernel_bank s)) }
        ensures unloaded { IfOk result (λ s. AreUnloaded (kernel_bank s)) }
    {
        let nets = netlist.nets();
        let gates = make_gates(alloc, netlist, order.nets())?;
        let masks = make_ops(alloc)?;
        let starts = first_state_of(alloc, netlist.latches())?;
        let loads = no_faults(alloc, W::count())?;
        let mut marks = filled(alloc, false, nets)?;
        let mut next = filled(alloc, 0, gates.len())?;
        let forces = idle_forces(alloc, nets)?;
        let raw = filled(alloc, W::all(false), starts.len())?;
        let words = filled(alloc, W::all(false), nets)?;
        prepare(&gates, &loads, &mut marks, &mut next);
        let transient = is_some_transient(&loads);
        Ok(Kernel {
            circuit: Snapshot::of(netlist),
            order: Snapshot::of(order),
            gates,
            masks,
            starts,
            loads,
            transient,
            marks,
            next,
            forces,
            stale: true,
            cycle: 0,
            raw,
            words,
        })
    }

    /// Gives some lanes their faults, from a lane on.
    pub fn load(&mut self, from: usize, faults: &[[Option<Fault>; 2]])
        requires kernel { IsLaneKernel W.lanes W.lane_bit self.old }
        requires lanes { from + length faults.now ≤ W.lanes }
        ensures kernel { IsLaneKernel W.lanes W.lane_bit self.new }
        ensures made { IsBankFor self.old.circuit.value self.old.order.value (kernel_bank self.new) }
        ensures placed { (k : ℕ) (d : List (Option Fault)) → k < length faults.now
            → slice_index_or self.new.loads.items (from + k) d ≡ slice_index_or faults.now k d }
        ensures others { (j : ℕ) (d : List (Option Fault)) → (j < from) ⊎ (from + length faults.now ≤ j)
            → slice_index_or self.new.loads.items j d ≡ slice_index_or self.old.loads.items j d }
    {
        unmark_all(&self.loads, &mut self.marks);
        disarm_all(&self.loads, &mut self.forces);
        place(&mut self.loads, from, faults);
        prepare(&self.gates, &self.loads, &mut self.marks, &mut self.next);
        self.transient = is_some_transient(&self.loads);
        self.stale = true;
    }

    /// Goes to the initial state in all lanes.
    pub fn start(&mut self)
        requires { IsLaneKernel W.lanes W.lane_bit self.old }
        ensures kernel { IsLaneKernel W.lanes W.lane_bit self.new }
        ensures keeps { KeepsBankLoads (kernel_bank self.old) (kernel_bank self.new) }
        ensures cycle { self.new.cycle ≡ 0 }
        ensures start { AreAfter W.lanes W.lane_bit [] (kernel_bank self.new) }
    {
        take_first(&self.starts, &mut self.raw);
        self.cycle = 0;
    }

    /// Runs the next cycle in all lanes.
    pub fn cycle<L: Ledger>(&mut self, netlist: &Netlist, inputs: &[bool], steps: &mut Steps<L>)
        requires kernel { IsLaneKernel W.lanes W.lane_bit self.old }
        requires made { self.old.circuit.value ≡ netlist.now }
        requires few { self.old.cycle < 65536 }
        ensures kernel { IsLaneKernel W.lanes W.lane_bit self.new }
        ensures keeps { KeepsBankLoads (kernel_bank self.old) (kernel_bank self.new) }
        ensures cycle { self.new.cycle ≡ self.old.cycle + 1 }
        ensures step { (vectors : List (List Bool)) → AreAfter W.lanes W.lane_bit vectors (kernel_bank self.old)
            → AreAfter W.lanes W.lane_bit (vectors ++ inputs.now ∷ []) (kernel_bank self.new) }
        ensures cost { steps.new ≡ steps.old + length netlist.now.tables }
    {
        self.stale = arm_for(
            &self.loads,
            self.transient,
            self.stale,
            self.cycle,
            &mut self.forces,
        );
        run(
            netlist,
            &self.gates,
            &self.masks,
            &self.next,
            &self.forces,
            &self.loads,
            self.transient,
            self.cycle,
            inputs,
            &mut self.raw,
            &mut self.words,
            steps,
        );
        self.cycle += 1;
    }

    /// The word of a net in the last cycle.
    pub fn net(&self, net: NetId) -> W
        ensures { (k : ℕ) → k < W.lanes → W.lane_bit result k ≡ bit_at (plane W.lane_bit k self.now.words.items) net.0 }
    {
        word_at(&self.words, net.0 as usize)
    }
}
