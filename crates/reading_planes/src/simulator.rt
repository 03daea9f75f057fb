// Batches of faults, simulated four at once for all readings.
ghost use Rattle.std.specs.Prelude.{◌≡◌, ◌<◌, ◌≤◌, ◌+◌, ◌*◌, ◌^◌, [], IfOk, length, slice_index_or};
ghost use Rattle.workload.specs.Runs.{all_cycles};
ghost use Rattle.reading_planes.specs.Folded.{ArePlanesFor};
ghost use Rattle.reading_planes.specs.Readings.{AreReadingsOf};
ghost use Rattle.reading_planes.specs.Simulator.{HasFound, IsSimulatorFor};

use crate::cycles::FaultCycles;
use crate::planes::ReadingPlanes;
use crate::reading::Reading;
use crate::runs::loaded_readings;
use campaign_plan::Outcome;
use fault_list::FaultList;
use fault_runs::{FaultDraw, PointPaths};
use fm_base::Steps;
use room::{NoRoom, push};
use std::alloc::Global;
use std::marker::Brand;
use std::sync::ledger::{Blank, Ledger};
use testbench::Testbench;

const WORDS: u32 = 4;

const LANES: u32 = 64;

/// What simulates four batches of 64 faults on a testbench at once, and finds their planes by each reading. What it has
/// simulated before is no matter. No call but `new` takes memory.
#[derive(Drop)]
pub struct ReadingSimulator {
    pub(crate) draw: FaultDraw,
    pub(crate) paths: PointPaths,
    pub(crate) cycles: FaultCycles,
    pub(crate) planes: Vec<ReadingPlanes>,
}

// Planes of each reading for each word.
fn word_planes(alloc: Global, readings: &[Reading]) -> Result<Vec<ReadingPlanes>, NoRoom>
    ensures words { IfOk result (λ planes. length planes.items ≡ 4) }
    ensures fit { IfOk result (λ planes. ArePlanesFor readings.now planes.items) }
{
    let mut planes = Vec::new(alloc);
    for _ in 0..WORDS {
        push(&mut planes, ReadingPlanes::new(alloc, readings.len())?)?;
    }
    Ok(planes)
}

impl ReadingSimulator {
    /// A simulator of a testbench, for as many readings as these.
    pub fn new(alloc: Global, bench: &Testbench<'_>, readings: &[Reading]) -> Result<Self, NoRoom>
        ensures { IfOk result (IsSimulatorFor bench.now readings.now) }
    {
        // What has least to give up comes first, and the draw last.
        let planes = word_planes(alloc, readings)?;
        let cycles = FaultCycles::new(alloc, bench.points())?;
        let paths = PointPaths::new(alloc, bench)?;
        let draw = FaultDraw::new(alloc, bench, WORDS * LANES)?;
        Ok(ReadingSimulator {
            draw,
            paths,
            cycles,
            planes,
        })
    }

    /// The planes of a word by each reading, in the order of the readings.
    pub fn planes(&self, word: u32) -> &[Outcome]
        requires { word < length self.now.planes.items }
        ensures { result.now ≡ slice_index_or self.now.planes.items word [] }
    {
        self.planes[word as usize].outcomes()
    }

    /// Simulates four batches of 64 faults, the first and each `apart` further, each fault alone, and finds their planes by each of
    /// these readings; there is no fault in the lanes behind the last. `ftti` is the fault tolerant time interval of the settings in cycles, for the goals without
    /// one of their own and the readings that name none.
    pub fn batches(
        &mut self,
        bench: &Testbench<'_>,
        ftti: u32,
        readings: &[Reading],
        faults: &FaultList,
        first: u32,
        apart: u32,
    )
        requires made { IsSimulatorFor bench.now readings.now self.old }
        requires readings { AreReadingsOf bench.now.points readings.now }
        requires few { first + 4 * apart < 2 ^ 32 }
        ensures made { IsSimulatorFor bench.now readings.now self.new }
        ensures found { HasFound bench.now ftti readings.now faults.now first apart self.new }
    {
        self.batches_by::<Brand>(bench, ftti, readings, faults, first, apart, Blank::new(1));
    }

    // The same, with a counter of steps that nobody reads.
    fn batches_by<L: Ledger>(
        &mut self,
        bench: &Testbench<'_>,
        ftti: u32,
        readings: &[Reading],
        faults: &FaultList,
        first: u32,
        apart: u32,
        blank: Blank,
    )
        requires made { IsSimulatorFor bench.now readings.now self.old }
        requires readings { AreReadingsOf bench.now.points readings.now }
        requires few { first + 4 * apart < 2 ^ 32 }
        requires blank { (blank.name ≡ L.name) × (blank.parts ≡ L.parts) × (0 < blank.parts) }
        ensures made { IsSimulatorFor bench.now readings.now self.new }
        ensures found { HasFound bench.now ftti readings.now faults.now first apart self.new }
    {
        let mut steps: Steps<L> = Steps::fresh(blank);
        self.counted_batches(bench, ftti, readings, faults, first, apart, &mut steps);
    }

    /// The same, and it counts its steps: at most one for each table and cycle, for all words together and whatever the number of
    /// readings.
    pub fn counted_batches<L: Ledger>(
        &mut self,
        bench: &Testbench<'_>,
        ftti: u32,
        readings: &[Reading],
        faults: &FaultList,
        first: u32,
        apart: u32,
        steps: &mut Steps<L>,
    )
        requires made { IsSimulatorFor bench.now readings.now self.old }
        requires readings { AreReadingsOf bench.now.points readings.now }
        requires few { first + 4 * apart < 2 ^ 32 }
        ensures made { IsSimulatorFor bench.now readings.now self.new }
        ensures found { HasFound bench.now ftti readings.now faults.now first apart self.new }
        ensures cost { steps.new ≤ steps.old + all_cycles bench.now.runs * length bench.now.circuit.tables }
    {
        self.draw.load_batches(faults, first, apart);
        let planes = self.planes.as_mut_slice();
        loaded_readings(
            bench,
            ftti,
            readings,
            &self.paths,
            &mut self.draw,
            &mut self.cycles,
            planes,
            steps,
        );
    }
}
