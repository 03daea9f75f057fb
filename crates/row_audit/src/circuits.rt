// Faulty circuits side by side with the golden one.
ghost use Rattle.std.specs.Prelude.{◌≡◌, ◌≢◌, ◌<◌, ◌+◌, ◌++◌, ◌∷◌, [], ℕ, Bool, List, length};
ghost use Rattle.circuit.specs.Trace.{trace};
ghost use Rattle.fm_base.specs.Planes.{bit};
ghost use Rattle.classifier.specs.Batch.{alone_in};
ghost use Rattle.row_audit.specs.Loaded.{IsLoadedFor, Loaded};
ghost use Rattle.row_audit.specs.declared.kernel.Kernel.{Kernel as KernelValue};

use crate::kernel::Kernel;
use circuit::netlist::Netlist;
use circuit::parts::NetId;
use fault_list::FaultList;
use netlist_levels::Order;

/// The golden circuit, and faulty ones that run side by side with it, 64 of them in each of some words. Each has its own faults alone,
/// and in each every table is evaluated in every cycle. No method takes memory.
pub trait Circuits: Drop {
    // how many words there are
    ghost words: { ℕ };

    // which kernel they are of
    ghost kernel: { KernelValue };

    // what they were made for, and loaded with
    ghost loaded: { Self → Loaded };

    // all of them are circuits of one netlist, and one is golden
    ghost IsSound: { Self → Type 0 };

    // since the start each has run cycles with these vectors
    ghost IsAfter: { Self → List (List Bool) → Type 0 };

    /// Which kernel they are of.
    fn kernel() -> Kernel
        ensures { result ≡ kernel };

    /// The number of words.
    fn words() -> usize
        ensures count { result ≡ words }
        ensures some { 0 < words };

    /// Gives each lane of a word the fault of this batch that is in this lane, alone, and leaves the other words as they are loaded. The
    /// circuits have to be started anew.
    fn load_batch(&mut self, word: usize, faults: &FaultList, batch: Option<u32>)
        requires word { word < words }
        requires sound { IsSound self.old }
        ensures sound { IsSound self.new }
        ensures circuit { (loaded self.new).circuit ≡ (loaded self.old).circuit }
        ensures order { (loaded self.new).order ≡ (loaded self.old).order }
        ensures loads { (k : ℕ) → k < 64 → (loaded self.new).faults word k ≡ alone_in faults.now batch k }
        ensures others { (other k : ℕ) → other < words → other ≢ word → k < 64 → (loaded self.new).faults other k ≡ (loaded self.old).faults other k };

    /// Goes to the initial state in all circuits, before the cycle of number 0.
    fn restart(&mut self)
        requires sound { IsSound self.old }
        ensures sound { IsSound self.new }
        ensures keeps { loaded self.new ≡ loaded self.old }
        ensures start { IsAfter self.new [] };

    /// Simulates the next cycle in all circuits, with these bits of the inputs. There can be 65,536 cycles since the start.
    fn advance(&mut self, net: &Netlist, order: &Order, inputs: &[bool])
        requires made { IsLoadedFor net.now order.now (loaded self.old) }
        requires few { (vectors : List (List Bool)) × IsAfter self.old vectors × (length vectors < 65536) }
        ensures sound { IsSound self.new }
        ensures keeps { loaded self.new ≡ loaded self.old }
        ensures step { (vectors : List (List Bool)) → IsAfter self.old vectors → IsAfter self.new (vectors ++ inputs.now ∷ []) };

    /// The value of a net in the last cycle, in each lane of a word.
    fn values(&self, net: NetId, word: usize) -> u64
        requires word { word < words }
        requires sound { IsSound self.now }
        ensures { (vectors : List (List Bool)) (t k : ℕ) → IsAfter self.now vectors → t + 1 ≡ length vectors → k < 64
            → net.0 < length (loaded self.now).circuit.drivers
            → bit result k ≡ trace (loaded self.now).circuit ((loaded self.now).faults word k) vectors t net.0 };

    /// The value of a net in the last cycle, in the golden circuit.
    fn golden(&self, net: NetId) -> bool
        ensures { (vectors : List (List Bool)) (t : ℕ) → IsAfter self.now vectors → t + 1 ≡ length vectors
            → net.0 < length (loaded self.now).circuit.drivers
            → result ≡ trace (loaded self.now).circuit [] vectors t net.0 };
}
