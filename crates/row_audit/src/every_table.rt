// The kernel that evaluates every table, 256 circuits at once.
ghost use Rattle.std.specs.Prelude.{◌≡◌, ◌<◌, ◌+◌, ◌*◌, ◌++◌, ◌∷◌, [], ℕ, Bool, List, IfOk, length};
ghost use Rattle.circuit.specs.Order.{IsOrder};
ghost use Rattle.lane_words.specs.Bank.{AreAfter, IsBankFor, KeepsBankLoads};
ghost use Rattle.lane_words.specs.Bits.{quad_bit};
ghost use Rattle.lane_words.specs.Loads.{loaded_faults};
ghost use Rattle.classifier.specs.Batch.{alone_in};
ghost use Rattle.row_audit.specs.Loaded.{HasGoldenWord, in_lanes};
ghost use Rattle.row_audit.specs.declared.kernel.Kernel.TheVariants.{EveryTable as EveryTableKernel};

use crate::circuits::Circuits;
use crate::kernel::Kernel;
use campaign_plan::has_bit;
use circuit::netlist::Netlist;
use circuit::parts::{Fault, NetId};
use fault_list::FaultList;
use fm_base::Steps;
use lane_kernel::Lanes4;
use netlist_levels::Order;
use room::NoRoom;
use std::alloc::Global;
use std::marker::Brand;
use std::sync::ledger::{Blank, Ledger};

const LANES: u32 = 64;

// The last of four words, whose lanes have no fault.
const GOLDEN_WORD: u32 = 3;

// The faults of a batch, each alone in its lane.
fn loads_of(faults: &FaultList, batch: Option<u32>) -> [[Option<Fault>; 2]; 64]
    ensures { (k : ℕ) → k < 64 → loaded_faults result k ≡ alone_in faults.now batch k }
{
    let mut loads = [[None, None]; 64];
    for lane in 0..LANES {
        loads[lane as usize] = [faults.in_lane(batch, lane), None];
    }
    loads
}

/// Lanes for a netlist and an order of its tables, without faults and not yet started.
pub(crate) fn lanes_for(alloc: Global, net: &Netlist, order: &Order) -> Result<Lanes4, NoRoom>
    requires { IsOrder net.now order.now }
    ensures made { IfOk result (λ lanes. IsBankFor net.now order.now lanes) }
    ensures golden { IfOk result (λ lanes. HasGoldenWord lanes) }
{
    Lanes4::new(alloc, net, order)
}

// Simulates the next cycle, with a counter of steps that nobody reads.
fn run_next<L: Ledger>(
    net: &Netlist,
    order: &Order,
    inputs: &[bool],
    lanes: &mut Lanes4,
    blank: Blank,
)
    requires made { IsBankFor net.now order.now lanes.old }
    requires few { lanes.old.cycle < 65536 }
    requires blank { (blank.name ≡ L.name) × (blank.parts ≡ L.parts) × (0 < blank.parts) }
    ensures keeps { KeepsBankLoads lanes.old lanes.new }
    ensures step { (vectors : List (List Bool)) → AreAfter 256 quad_bit vectors lanes.old → AreAfter 256 quad_bit (vectors ++ inputs.now ∷ []) lanes.new }
{
    let mut steps: Steps<L> = Steps::fresh(blank);
    lanes.cycle(net, order, inputs, &mut steps);
}

impl Circuits for Lanes4 {
    ghost words = { 3 };

    ghost kernel = { EveryTableKernel };

    ghost loaded = { in_lanes };

    ghost IsSound = { HasGoldenWord };

    ghost IsAfter = { λ lanes vectors. HasGoldenWord lanes × AreAfter 256 quad_bit vectors lanes };

    fn kernel() -> Kernel {
        Kernel::EveryTable
    }

    fn words() -> usize {
        GOLDEN_WORD as usize
    }

    fn load_batch(&mut self, word: usize, faults: &FaultList, batch: Option<u32>) {
        self.load(word as u32, &loads_of(faults, batch));
    }

    fn restart(&mut self) {
        self.start();
    }

    fn advance(&mut self, net: &Netlist, order: &Order, inputs: &[bool]) {
        run_next::<Brand>(net, order, inputs, self, Blank::new(1));
    }

    fn values(&self, net: NetId, word: usize) -> u64 {
        self.net(net, word as u32)
    }

    fn golden(&self, net: NetId) -> bool {
        has_bit(self.net(net, GOLDEN_WORD), 0)
    }
}
