// The gates of a walk, by their operations or by the rows of their tables.
ghost use Rattle.std.specs.Prelude.{◌≡◌, ◌<◌, ◌≤◌, ◌+◌, ◌-◌, ℕ, Bool, List, length, take, slice_set};
ghost use Rattle.circuit.specs.declared.parts.NetId.{NetId as NetIdValue};
ghost use Rattle.circuit.specs.Value.{Cycle, bit_at, driven, driver_at, table_gives};
ghost use Rattle.circuit.proofs.Walks.{Holds};
ghost use Rattle.lane_words.specs.Gates.{AreOps, IsGate, IsInside, IsProgram, gate_value, plane};
ghost use Rattle.lane_kernel.specs.Walk.{AreInside, IsNarrowRun, IsQuiet};

use circuit::netlist::Netlist;
use circuit::parts::NetId;
use fm_base::Steps;
use lane_words::gate::{Gate, Masks, apply};
use lane_words::table::{NetWords, net_word};
use lane_words::{Word, word_at};
use std::sync::ledger::Ledger;

// The words of all nets, as they are read.
#[derive(Drop)]
struct Words<'a, W> {
    words: &'a [W],
}

impl<'a, W: Word> NetWords<W> for Words<'a, W> {
    ghost read = { λ s k n. bit_at (plane W.lane_bit k s.words.now) n };

    fn word_of(&self, net: u32) -> W {
        word_at(self.words, net as usize)
    }
}

/// What a gate gives.
pub fn evaluate<W: Word>(gate: &Gate, masks: &[Masks<W>], words: &[W]) -> W
    requires ops { AreOps W.lanes W.lane_bit masks.now }
    requires inside { IsInside (length words.now) gate.now }
    requires narrow { gate.now.op < 16 }
    ensures { (k : ℕ) → k < W.lanes → W.lane_bit result k ≡ gate_value gate.now (bit_at (plane W.lane_bit k words.now)) }
{
    apply(
        &masks[gate.op as usize],
        words[gate.a as usize],
        words[gate.b as usize],
    )
}

/// Sets the word of a gate's net.
pub fn store<W: Word>(gate: &Gate, value: W, words: &mut [W])
    requires { IsInside (length words.old) gate.now }
    ensures { words.new ≡ slice_set words.old gate.now.to value }
{
    words[gate.to as usize] = value;
}

/// Evaluates the gates at the places from `from` up to the one before `to`, whose nets no fault changes.
pub fn run_plain<W: Word, L: Ledger>(
    gates: &[Gate],
    masks: &[Masks<W>],
    from: usize,
    to: usize,
    words: &mut [W],
    steps: &mut Steps<L>,
)
    requires ops { AreOps W.lanes W.lane_bit masks.now }
    requires inside { AreInside (length words.old) gates.now }
    requires narrow { IsNarrowRun gates.now from to }
    requires from { from ≤ to }
    requires to { to ≤ length gates.now }
    ensures values { (k : ℕ) (x : Cycle) (order : List NetIdValue) → k < W.lanes → IsProgram x.circuit order gates.now → IsQuiet gates.now x from to
        → Holds x (plane W.lane_bit k words.old) (take from order) from
        → Holds x (plane W.lane_bit k words.new) (take to order) to }
    ensures cost { steps.new ≡ steps.old + (to - from) }
{
    for j in from..to {
        let gate = &gates[j];
        words[gate.to as usize] = evaluate(gate, masks, words);
        steps.tick();
    }
}

/// What the table of a gate's net gives, by its operation or by its rows.
pub fn evaluate_any<W: Word>(netlist: &Netlist, gate: &Gate, masks: &[Masks<W>], words: &[W]) -> W
    requires ops { AreOps W.lanes W.lane_bit masks.now }
    requires gate { IsGate netlist.now gate.now }
    requires size { length words.now ≡ length netlist.now.drivers }
    ensures { (k : ℕ) (state inputs : List Bool) → k < W.lanes
        → W.lane_bit result k ≡ driven state inputs (table_gives netlist.now (bit_at (plane W.lane_bit k words.now))) (driver_at netlist.now gate.now.to) }
{
    if gate.op < 16 {
        evaluate(gate, masks, words)
    } else {
        net_word(netlist, NetId(gate.to), &Words { words })
    }
}
