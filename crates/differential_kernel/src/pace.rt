// How the cycles of a run are run.
ghost use Rattle.std.specs.Prelude.{◌≡◌};

use crate::cone::Cone;
use crate::difference::value_word;
use lane_words::Word;

// After so many cycles that were run by a cone, a sample shows again how much differs.
const SWEEPS: u32 = 8;

// The sample has one of so many tables of the cone: looking at it takes a hundredth of the time of these cycles.
const SAMPLE_STEP: usize = 16;

// To find what differs is quicker again where less than one of so many nets does.
const LEAST_SHARE: usize = 8;

/// How the cycles of a run are run. It changes how long they take, and nothing that they show.
#[derive(Drop)]
pub struct Pace {
    /// What the faults of the run can reach.
    pub cone: Cone,
    /// The number of cycles to come that are run by it.
    pub sweeps: u32,
    /// Whether it was made in this run.
    pub made: bool,
}

// How many nets of a sample of a cone's tables differ, by their values beside golden ones, where the sample has so many.
fn count_differing<W: Word>(cone: &Cone, size: usize, row: &[u64], values: &[W]) -> usize {
    let tables = cone.gates.as_slice();
    let mut differing = 0;
    for place in 0..size {
        if let Some(table) = tables.get(place.saturating_mul(SAMPLE_STEP)) {
            if !value_word(row, values, table.gate.to).is_none() {
                differing += 1;
            }
        }
    }
    differing
}

// Whether so much differs by a sample that the cone's tables are evaluated as soon in their turn.
fn is_much_of_sample<W: Word>(cone: &Cone, row: &[u64], values: &[W]) -> bool {
    let size = cone.table_count / SAMPLE_STEP;
    count_differing(cone, size, row, values) > size / LEAST_SHARE
}

impl Pace {
    /// That of a run that begins, with the cone of another one.
    pub fn new(cone: Cone) -> Self
        ensures { result.cone ≡ cone }
    {
        Pace {
            cone,
            sweeps: 0,
            made: false,
        }
    }

    /// That of a run that begins; the cone is still that of the run before.
    pub fn begin(&mut self)
        ensures { self.new.cone ≡ self.old.cone }
    {
        self.sweeps = 0;
        self.made = false;
    }

    /// Goes on after a cycle that was run by the cone, and left these values beside golden ones.
    pub fn go_on_by_sample<W: Word>(&mut self, row: &[u64], values: &[W])
        ensures { self.new.cone ≡ self.old.cone }
    {
        self.sweeps = self.sweeps.saturating_sub(1);
        if self.sweeps == 0 {
            let much = is_much_of_sample(&self.cone, row, values);
            self.go_on(much);
        }
    }

    /// Goes on after a cycle that showed whether much differs.
    pub fn go_on(&mut self, much: bool)
        ensures { self.new.cone ≡ self.old.cone }
    {
        self.sweeps = if much { SWEEPS } else { 0 };
    }
}
