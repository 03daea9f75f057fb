// Lanes that are followed through a run.
ghost use Rattle.std.specs.Prelude.{◌≡◌, ◌≢◌, ◌<◌, ◌≤◌, ◌+◌, ◌⊎◌, ◌++◌, ◌∷◌, [], ℕ, All, Bool, List, false, true, length, not, slice_index_or, take};
ghost use Rattle.std.specs.List.{list_any};
ghost use Rattle.circuit.specs.Sound.{IsNet};
ghost use Rattle.workload.specs.declared.run.Run.{Run};
ghost use Rattle.workload.specs.Runs.{cycles_of};
ghost use Rattle.campaign_plan.specs.Danger.{golden as golden_value, with_faults};
ghost use Rattle.fm_base.specs.Lists.{same_bit};
ghost use Rattle.fm_base.specs.Planes.{bit};
ghost use Rattle.golden_difference.specs.Beside.{IsGoldenRow};
ghost use Rattle.classifier.specs.InRun.{AreAllOver, IsForBench, KeepPlace, LanesInRun, in_run};
ghost use Rattle.classifier.specs.Noise.{IsNoiseOf, noise_at};

use crate::noise::Noise;
use crate::points::{differ_in, hear, noise_of, parts_of};
use circuit::parts::NetId;
use differential_kernel::DifferentialLanes;
use fm_base::Steps;
use lane_words::Word;
use std::sync::ledger::Ledger;
use testbench::Testbench;

/// Some words of 64 lanes each, of which each lane runs beside the golden run with its own faults.
pub trait Followed {
    ghost words: { ℕ };

    ghost in_run: { Self → LanesInRun };

    /// The number of words.
    fn words() -> u32
        ensures count { result ≡ words }
        ensures few { words ≤ 4 };

    /// The lanes of each word in which some of these nets differs from the golden run in the last cycle.
    fn differing(&self, nets: &[NetId]) -> [u64; 4]
        requires { All (IsNet (in_run self.now).load.circuit) nets.now }
        ensures { (run : Run) (t word k : ℕ) → t < cycles_of run → (in_run self.now).IsAfter (take (t + 1) run.vectors) → word < words → k < 64
            → bit (slice_index_or result word 0) k ≡ list_any (λ net. not (same_bit (with_faults (in_run self.now).load.circuit ((in_run self.now).faults word k) run t net)
            (golden_value (in_run self.now).load.circuit run t net))) nets.now };

    /// The lanes of each word in which some of these alarms is raised in the last cycle, and those in which some is silenced. `row`
    /// has the golden values of this cycle.
    fn noise_in(&self, row: &[u64], nets: &[NetId]) -> [Noise; 4]
        requires { All (IsNet (in_run self.now).load.circuit) nets.now }
        ensures { (run : Run) (t word : ℕ) → t < cycles_of run → (in_run self.now).IsAfter (take (t + 1) run.vectors)
            → IsGoldenRow (in_run self.now).load.circuit run.vectors t row.now → word < words
            → IsNoiseOf (in_run self.now).load.circuit ((in_run self.now).faults word) run t nets.now (noise_at result word) };

    /// Drops the lanes of a word whose bit is set.
    fn drop_lanes(&mut self, word: u32, out: u64)
        requires { word < words }
        ensures place { KeepPlace (in_run self.old) (in_run self.new) }
        ensures dropped { (k : ℕ) → k < 64 → bit out k ≡ true → (in_run self.new).faults word k ≡ [] }
        ensures others { (other k : ℕ) → other < words → k < 64 → (other ≢ word) ⊎ (bit out k ≡ false)
            → (in_run self.new).faults other k ≡ (in_run self.old).faults other k };

    /// Simulates the next cycle in all lanes, where `row` has the golden value of each net in this cycle.
    fn advance<L: Ledger>(&mut self, bench: &Testbench<'_>, row: &[u64], steps: &mut Steps<L>)
        requires made { IsForBench bench.now (in_run self.old).load }
        requires few { (in_run self.old).cycle < 65536 }
        ensures load { (in_run self.new).load ≡ (in_run self.old).load }
        ensures faults { (word k : ℕ) → (in_run self.new).faults word k ≡ (in_run self.old).faults word k }
        ensures cycle { (in_run self.new).cycle ≡ (in_run self.old).cycle + 1 }
        ensures step { (vectors : List (List Bool)) (inputs : List Bool) → (in_run self.old).IsAfter vectors
            → IsGoldenRow bench.now.circuit (vectors ++ inputs ∷ []) (length vectors) row.now → (in_run self.new).IsAfter (vectors ++ inputs ∷ []) }
        ensures cost { steps.new ≤ steps.old + length bench.now.circuit.tables };

    /// Whether the run is over in all lanes; it may be so where the answer is no.
    fn is_over(&self) -> bool
        ensures { (vectors : List (List Bool)) → result ≡ true → (in_run self.now).IsAfter vectors → AreAllOver words (in_run self.now) vectors };
}

impl<W: Word> Followed for DifferentialLanes<W> {
    ghost words = { W.words };

    ghost in_run = { in_run W.lanes W.lane_bit };

    fn words() -> u32 {
        W::words()
    }

    fn differing(&self, nets: &[NetId]) -> [u64; 4] {
        parts_of(differ_in(self, nets))
    }

    fn noise_in(&self, row: &[u64], nets: &[NetId]) -> [Noise; 4] {
        noise_of(&hear(self, row, nets))
    }

    fn drop_lanes(&mut self, word: u32, out: u64) {
        DifferentialLanes::drop_lanes(self, word, out);
    }

    fn advance<L: Ledger>(&mut self, bench: &Testbench<'_>, row: &[u64], steps: &mut Steps<L>) {
        bench.advance(row, self, steps);
    }

    fn is_over(&self) -> bool {
        DifferentialLanes::is_over(self)
    }
}
