// Faults, simulated in four words of lanes at once.
ghost use Rattle.std.specs.Prelude.{◌≡◌, ◌<◌, ◌≤◌, ◌+◌, ◌*◌, ℕ, IfOk, length, map};
ghost use Rattle.workload.specs.Runs.{all_cycles};
ghost use Rattle.golden_difference.specs.Lanes.{IsMadeFor};
ghost use Rattle.classifier.specs.Batch.{outcome_for};
ghost use Rattle.testbench.specs.Load.{lane_faults, load_of};
ghost use Rattle.classifier.specs.OutOfReach.{AreAllOutOfReach};
ghost use Rattle.classifier.specs.Planes.{outcome_at, planes_of};
ghost use Rattle.classifier.specs.Simulator.{listed, simulator_of};

use crate::batch::narrowed_outcomes;
use crate::narrow::Narrow;
use crate::outcome::loaded_quad;
use crate::reached::{OutOfReach, WITHIN_REACH, out_of_reach};
use alarm_points::Points;
use alarm_points::windows4::Windows4;
use campaign_plan::Outcome;
use circuit::parts::Fault;
use differential_kernel::DifferentialLanes4;
use fault_list::FaultList;
use fm_base::Steps;
use room::NoRoom;
use std::alloc::Global;
use std::marker::{Brand, Model};
use std::slice::from_mut;
use std::snapshot::Snapshot;
use std::sync::ledger::{Blank, Ledger};
use testbench::Testbench;

/// Up to two faults for each of 64 lanes.
pub type LaneFaults = [[Option<Fault>; 2]; 64];

/// What simulates up to 256 lists of faults on a testbench at once. What it has simulated before is no matter. No call but `new`
/// takes memory.
#[derive(Drop)]
pub struct Simulator {
    points: Snapshot<Points>,
    lanes: DifferentialLanes4,
    // In which the last lanes of a run go on.
    narrow: Narrow,
    windows: Windows4,
}

impl Model for Simulator {
    ghost use Rattle.alarm_points.specs.FourWatches.{AreFourMadeFor};
    ghost use Rattle.golden_difference.specs.Lanes.{IsMadeFor};
    ghost use Rattle.classifier.specs.Simulator.{Simulator};

    ghost Value = { Simulator };

    ghost view = { λ s. record { circuit = s.lanes.circuit; order = s.lanes.order; points = s.points.value; ftti = s.windows.ftti } };

    ghost invariant = { λ s. AreFourMadeFor s.points.value s.windows × IsMadeFor s.lanes.circuit s.lanes.order s.narrow.lanes };
}

impl Simulator {
    /// A simulator of a testbench. `ftti` is the fault tolerant time interval in cycles, for the goals without one of their own.
    pub fn new(alloc: Global, bench: &Testbench<'_>, ftti: u32) -> Result<Self, NoRoom>
        ensures { IfOk result (λ simulator. simulator ≡ simulator_of bench.now ftti) }
    {
        // What has least to give up comes first, and the lanes last.
        let points = bench.points();
        let windows = Windows4::new(alloc, points, ftti)?;
        let (narrow, lanes) = lanes_for(alloc, bench)?;
        Ok(Simulator {
            points: Snapshot::of(points),
            lanes,
            narrow,
            windows,
        })
    }

    /// The planes of danger and of notice of up to four batches of 64 faults, each fault alone. Bits of lanes that hold no fault
    /// are 0, and so are all of a batch behind the last, and both planes where there is no batch.
    pub fn quad(
        &mut self,
        bench: &Testbench<'_>,
        faults: &FaultList,
        batches: &[Option<u32>; 4],
    ) -> [Outcome; 4]
        requires { self.old ≡ simulator_of bench.now self.old.ftti }
        ensures outcomes { result ≡ map (outcome_for bench.now.circuit bench.now.points self.old.ftti bench.now.runs faults.now) batches.now }
        ensures same { self.new ≡ self.old }
    {
        self.quad_by::<Brand>(bench, faults, batches, Blank::new(1))
    }

    // The same, with a counter of steps that nobody reads.
    fn quad_by<L: Ledger>(
        &mut self,
        bench: &Testbench<'_>,
        faults: &FaultList,
        batches: &[Option<u32>; 4],
        blank: Blank,
    ) -> [Outcome; 4]
        requires made { self.old ≡ simulator_of bench.now self.old.ftti }
        requires blank { (blank.name ≡ L.name) × (blank.parts ≡ L.parts) × (0 < blank.parts) }
        ensures outcomes { result ≡ map (outcome_for bench.now.circuit bench.now.points self.old.ftti bench.now.runs faults.now) batches.now }
        ensures same { self.new ≡ self.old }
    {
        let mut steps: Steps<L> = Steps::fresh(blank);
        narrowed_outcomes(
            bench,
            faults,
            batches,
            &mut self.lanes,
            from_mut(&mut self.narrow),
            &mut self.windows,
            &mut steps,
        )
    }

    /// The planes of danger and of notice of each word: bit k of word w's is that of the faults of its lane k together.
    pub fn lists(&mut self, bench: &Testbench<'_>, lists: &[LaneFaults; 4]) -> [Outcome; 4]
        requires { self.old ≡ simulator_of bench.now self.old.ftti }
        ensures outcomes { (word : ℕ) → word < 4
            → outcome_at result word ≡ planes_of bench.now.circuit bench.now.points self.old.ftti bench.now.runs (listed lists.now word) }
        ensures same { self.new ≡ self.old }
    {
        self.lists_by::<Brand>(bench, lists, Blank::new(1))
    }

    // The same, with a counter of steps that nobody reads.
    fn lists_by<L: Ledger>(
        &mut self,
        bench: &Testbench<'_>,
        lists: &[LaneFaults; 4],
        blank: Blank,
    ) -> [Outcome; 4]
        requires made { self.old ≡ simulator_of bench.now self.old.ftti }
        requires blank { (blank.name ≡ L.name) × (blank.parts ≡ L.parts) × (0 < blank.parts) }
        ensures outcomes { (word : ℕ) → word < 4
            → outcome_at result word ≡ planes_of bench.now.circuit bench.now.points self.old.ftti bench.now.runs (listed lists.now word) }
        ensures same { self.new ≡ self.old }
    {
        let mut steps: Steps<L> = Steps::fresh(blank);
        self.counted_lists(bench, lists, &mut steps)
    }

    /// The same as `lists`. It counts the steps: at most one for each table and cycle, for all four words together.
    pub fn counted_lists<L: Ledger>(
        &mut self,
        bench: &Testbench<'_>,
        lists: &[LaneFaults; 4],
        steps: &mut Steps<L>,
    ) -> [Outcome; 4]
        requires { self.old ≡ simulator_of bench.now self.old.ftti }
        ensures outcomes { (word : ℕ) → word < 4
            → outcome_at result word ≡ planes_of bench.now.circuit bench.now.points self.old.ftti bench.now.runs (listed lists.now word) }
        ensures same { self.new ≡ self.old }
        ensures cost { steps.new ≤ steps.old + all_cycles bench.now.runs * length bench.now.circuit.tables }
    {
        let reach = load_lists(bench, lists, &mut self.lanes);
        loaded_quad(
            bench,
            &reach,
            &mut self.lanes,
            from_mut(&mut self.narrow),
            &mut self.windows,
            steps,
        )
    }
}

// The one word in which the last lanes of a run go on, and the four words of lanes.
fn lanes_for(alloc: Global, bench: &Testbench<'_>) -> Result<(Narrow, DifferentialLanes4), NoRoom>
    ensures narrow { IfOk result (λ made. IsMadeFor bench.now.circuit bench.now.order made.0.lanes) }
    ensures lanes { IfOk result (λ made. IsMadeFor bench.now.circuit bench.now.order made.1) }
{
    let narrow = Narrow::new(alloc, bench.net(), bench.order())?;
    let lanes = DifferentialLanes4::new(alloc, bench.net(), bench.order())?;
    Ok((narrow, lanes))
}

// Loads each word with its lists, and tells in which lanes points are out of reach.
fn load_lists(
    bench: &Testbench<'_>,
    lists: &[LaneFaults; 4],
    lanes: &mut DifferentialLanes4,
) -> [OutOfReach; 4]
    ensures made { IsMadeFor lanes.old.circuit lanes.old.order lanes.new }
    ensures loads { (word k : ℕ) → word < 4 → k < 64 → lane_faults (load_of lanes.new) word k ≡ listed lists.now word k }
    ensures reach { AreAllOutOfReach bench.now.circuit bench.now.points 4 (load_of lanes.new) result }
{
    let mut reach = [WITHIN_REACH; 4];
    for word in 0..4 {
        reach[word as usize] = out_of_reach(bench, &lists[word as usize]);
        lanes.load(word, &lists[word as usize]);
    }
    reach
}
