// Faults that change nothing in a stretch of a run.
ghost use Rattle.std.specs.Prelude.{◌≡◌, true};
ghost use Rattle.lane_words.specs.Loads.{somes};
ghost use Rattle.testbench.specs.Resting.{Rest};
ghost use Rattle.workload.specs.Runs.{run_at};
ghost use Rattle.fault_runs.specs.Resting.{IsAtRest, IsWithin};

use crate::over::is_empty;
use circuit::parts::Fault;
use place_set::PlaceSet;
use testbench::Testbench;

/// The cycles of a run from one to before another, and how the faults of a draw stand before them.
#[derive(Clone, Copy)]
pub struct Stretch<'b, 't, 'd, 's> {
    pub bench: &'b Testbench<'t>,
    pub run: u32,
    pub from: u32,
    pub to: u32,
    pub draw: &'d [[Option<Fault>; 2]],
    pub states: &'s [PlaceSet],
}

impl Stretch<'_, '_, '_, '_> {
    // Whether these faults, at most one, change nothing where no latch differs before.
    fn rest(&self, faults: [Option<Fault>; 2]) -> bool
        requires within { IsWithin self.now }
        ensures { result ≡ true → Rest self.now.bench.now.circuit (somes faults) (run_at self.now.bench.now.runs self.now.run).vectors self.now.from self.now.to }
    {
        match faults {
            [Some(fault), None] => self.bench.rests(self.run, self.from, self.to, fault),
            _ => false,
        }
    }

    /// Whether a fault of the draw is at rest: no latch differs, and it changes nothing in these cycles.
    pub fn has_at_rest(&self, i: usize) -> bool
        requires within { IsWithin self.now }
        ensures { result ≡ true → IsAtRest self.now i }
    {
        match (self.draw.get(i), self.states.get(i)) {
            (Some(faults), Some(state)) => self.rest(*faults) && is_empty(state),
            _ => false,
        }
    }
}
