// 64 lanes in one word, and 256 in four.
ghost use Rattle.std.specs.Prelude.{◌≡◌, ◌<◌, ◌≤◌, ◌+◌, ◌*◌, ◌⊎◌, ◌++◌, ◌∷◌, [], ℕ, Bool, List, IfOk, length};
ghost use Rattle.circuit.specs.Order.{IsOrder};
ghost use Rattle.circuit.specs.Trace.{trace};
ghost use Rattle.fm_base.specs.Planes.{bit};
ghost use Rattle.lane_words.specs.Bank.{AreAfter, AreUnloaded, IsBankFor, KeepsBankLoads};
ghost use Rattle.lane_words.specs.Bits.{quad_bit};
ghost use Rattle.lane_words.specs.Loads.{loaded_faults};

use crate::kernel::Kernel;
use circuit::netlist::Netlist;
use circuit::parts::{Fault, NetId};
use fm_base::Steps;
use lane_words::Word;
use netlist_levels::Order;
use room::NoRoom;
use std::alloc::Global;
use std::marker::Model;
use std::simd::prelude::*;
use std::sync::ledger::Ledger;

/// 64 simulations of one netlist, one in each lane, which stand between two cycles. No call but `new` takes memory.
#[derive(Drop)]
pub struct Lanes {
    kernel: Kernel<u64>,
}

impl Model for Lanes {
    ghost use Rattle.std.specs.Prelude.{ℕ};
    ghost use Rattle.fm_base.specs.Planes.{bit};
    ghost use Rattle.lane_words.specs.Bank.{Bank};
    ghost use Rattle.lane_kernel.specs.Kernel.{IsLaneKernel, kernel_bank};

    ghost Value = { Bank ℕ };

    ghost view = { λ s. kernel_bank s.kernel };

    ghost invariant = { λ s. IsLaneKernel 64 bit s.kernel };
}

impl Lanes {
    /// Lanes for a netlist and an order of its tables, without faults and not yet started.
    pub fn new(alloc: Global, netlist: &Netlist, order: &Order) -> Result<Self, NoRoom>
        requires { IsOrder netlist.now order.now }
        ensures made { IfOk result (λ lanes. IsBankFor netlist.now order.now lanes) }
        ensures unloaded { IfOk result (λ lanes. AreUnloaded lanes) }
    {
        let kernel = Kernel::new(alloc, netlist, order)?;
        Ok(Lanes { kernel })
    }

    /// Gives each lane up to two faults. The lanes have to be started anew.
    pub fn load(&mut self, faults: &[[Option<Fault>; 2]; 64])
        ensures made { IsBankFor self.old.circuit self.old.order self.new }
        ensures loads { (k : ℕ) → k < 64 → loaded_faults self.new.loads k ≡ loaded_faults faults.now k }
    {
        self.kernel.load(0, faults);
    }

    /// Goes to the initial state in all lanes, before the cycle of number 0.
    pub fn start(&mut self)
        ensures keeps { KeepsBankLoads self.old self.new }
        ensures cycle { self.new.cycle ≡ 0 }
        // No cycle was simulated yet.
        ensures start { AreAfter 64 bit [] self.new }
    {
        self.kernel.start();
    }

    /// Simulates the next cycle in all lanes, with these bits of the inputs, one for each. There can be 65,536 cycles
    /// since the start.
    pub fn cycle<L: Ledger>(
        &mut self,
        netlist: &Netlist,
        order: &Order,
        inputs: &[bool],
        steps: &mut Steps<L>,
    )
        requires made { IsBankFor netlist.now order.now self.old }
        requires few { self.old.cycle < 65536 }
        ensures keeps { KeepsBankLoads self.old self.new }
        ensures cycle { self.new.cycle ≡ self.old.cycle + 1 }
        // After cycles with some vectors, each lane is after those and this one, with its own faults alone.
        ensures step { (vectors : List (List Bool)) → AreAfter 64 bit vectors self.old → AreAfter 64 bit (vectors ++ inputs.now ∷ []) self.new }
        // One step for each table.
        ensures cost { steps.new ≡ steps.old + length netlist.now.tables }
    {
        self.kernel.cycle(netlist, inputs, steps);
    }

    /// The value of a net in the cycle that was simulated last, in each lane.
    pub fn net(&self, net: NetId) -> u64
        // After cycles with these vectors, t being the last: bit k is the net's trace under the faults of lane k alone.
        ensures { (vectors : List (List Bool)) (t k : ℕ) → AreAfter 64 bit vectors self.now → t + 1 ≡ length vectors → k < 64
            → net.0 < length self.now.circuit.drivers
            → bit result k ≡ trace self.now.circuit (loaded_faults self.now.loads k) vectors t net.0 }
    {
        self.kernel.net(net)
    }
}

/// The same in four words, with 64 lanes in each: lane k of a word is the lane of number 64 * word + k.
#[derive(Drop)]
pub struct Lanes4 {
    kernel: Kernel<u64x4>,
}

impl Model for Lanes4 {
    ghost use Rattle.std.specs.Prelude.{ℕ, List};
    ghost use Rattle.lane_words.specs.Bank.{Bank};
    ghost use Rattle.lane_words.specs.Bits.{quad_bit};
    ghost use Rattle.lane_kernel.specs.Kernel.{IsLaneKernel, kernel_bank};

    ghost Value = { Bank (List ℕ) };

    ghost view = { λ s. kernel_bank s.kernel };

    ghost invariant = { λ s. IsLaneKernel 256 quad_bit s.kernel };
}

impl Lanes4 {
    /// Lanes for a netlist and an order of its tables, without faults and not yet started.
    pub fn new(alloc: Global, netlist: &Netlist, order: &Order) -> Result<Self, NoRoom>
        requires { IsOrder netlist.now order.now }
        ensures made { IfOk result (λ lanes. IsBankFor netlist.now order.now lanes) }
        ensures unloaded { IfOk result (λ lanes. AreUnloaded lanes) }
    {
        let kernel = Kernel::new(alloc, netlist, order)?;
        Ok(Lanes4 { kernel })
    }

    /// Gives each lane of a word up to two faults. The lanes have to be started anew.
    pub fn load(&mut self, word: u32, faults: &[[Option<Fault>; 2]; 64])
        requires { word < 4 }
        ensures made { IsBankFor self.old.circuit self.old.order self.new }
        ensures loads { (k : ℕ) → k < 64 → loaded_faults self.new.loads (word * 64 + k) ≡ loaded_faults faults.now k }
        ensures others { (j : ℕ) → (j < word * 64) ⊎ (word * 64 + 64 ≤ j) → loaded_faults self.new.loads j ≡ loaded_faults self.old.loads j }
    {
        self.kernel.load(word as usize * 64, faults);
    }

    /// Goes to the initial state in all lanes, before the cycle of number 0.
    pub fn start(&mut self)
        ensures keeps { KeepsBankLoads self.old self.new }
        ensures cycle { self.new.cycle ≡ 0 }
        // No cycle was simulated yet.
        ensures start { AreAfter 256 quad_bit [] self.new }
    {
        self.kernel.start();
    }

    /// Simulates the next cycle in all lanes, with these bits of the inputs, one for each. There can be 65,536 cycles
    /// since the start.
    pub fn cycle<L: Ledger>(
        &mut self,
        netlist: &Netlist,
        order: &Order,
        inputs: &[bool],
        steps: &mut Steps<L>,
    )
        requires made { IsBankFor netlist.now order.now self.old }
        requires few { self.old.cycle < 65536 }
        ensures keeps { KeepsBankLoads self.old self.new }
        ensures cycle { self.new.cycle ≡ self.old.cycle + 1 }
        // After cycles with some vectors, each lane is after those and this one, with its own faults alone.
        ensures step { (vectors : List (List Bool)) → AreAfter 256 quad_bit vectors self.old → AreAfter 256 quad_bit (vectors ++ inputs.now ∷ []) self.new }
        // One step for each table, for all four words together.
        ensures cost { steps.new ≡ steps.old + length netlist.now.tables }
    {
        self.kernel.cycle(netlist, inputs, steps);
    }

    /// The value of a net in the cycle that was simulated last, in each lane of a word.
    pub fn net(&self, net: NetId, word: u32) -> u64
        requires { word < 4 }
        // After cycles with these vectors, t being the last: bit k is the net's trace under the faults of lane k of the word alone.
        ensures { (vectors : List (List Bool)) (t k : ℕ) → AreAfter 256 quad_bit vectors self.now → t + 1 ≡ length vectors → k < 64
            → net.0 < length self.now.circuit.drivers
            → bit result k ≡ trace self.now.circuit (loaded_faults self.now.loads (word * 64 + k)) vectors t net.0 }
    {
        self.kernel.net(net).part(word)
    }
}
