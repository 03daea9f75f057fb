// A draw of faults, and what it is followed with.
ghost use Rattle.std.specs.Prelude.{◌≡◌, ◌<◌, ◌≤◌, ◌+◌, ◌*◌, ◌/◌, ◌%◌, ◌^◌, ◌∷◌, [], ℕ, IfOk, Some, length};
ghost use Rattle.std.specs.Int.{div_ceil};
ghost use Rattle.workload.specs.Runs.{cycles_of, run_at};
ghost use Rattle.first_cycles.specs.Shown.{shown_in};
ghost use Rattle.fault_list.specs.Faults.{fault_in_lane};
ghost use Rattle.lane_words.specs.Loads.{loaded_faults, somes};
ghost use Rattle.fault_runs.specs.Draw.{HoldsBatches, IsDrawFor};
ghost use Rattle.fault_runs.specs.Records.{record_of};
ghost use Rattle.fault_runs.specs.Stretch.{state_at};
ghost use Rattle.fault_runs.specs.Whole.{ArePathsTo, HasShownRun};

use crate::paths::PointPaths;
use crate::record::FaultRecords;
use crate::run::follow_run;
use crate::whole::AllShown;
use circuit::parts::Fault;
use differential_kernel::DifferentialLanes4;
use fault_list::FaultList;
use fm_base::Steps;
use place_set::PlaceSet;
use room::{NoRoom, filled, push};
use std::alloc::Global;
use std::sync::ledger::Ledger;
use testbench::Testbench;

// The number of lanes in four words.
const LANES: usize = 256;

const BATCH: usize = 64;

/// A draw of faults, and what it is followed with through a run: lanes for a group of at most 256 faults; of each fault its state and what
/// a run has shown of it. No call but `new` takes memory.
#[derive(Drop)]
pub struct FaultDraw {
    pub(crate) lanes: DifferentialLanes4,
    pub(crate) faults: Vec<[Option<Fault>; 2]>,
    pub(crate) states: Vec<PlaceSet>,
    pub(crate) records: FaultRecords,
    // The faults that are still followed, and the group that is.
    pub(crate) active: PlaceSet,
    pub(crate) group: Vec<u32>,
}

// A state for each of so many faults, of so many latches.
fn states_for(alloc: Global, count: u32, latches: u32) -> Result<Vec<PlaceSet>, NoRoom>
    ensures count { IfOk result (λ states. length states.items ≡ count) }
    ensures bound { IfOk result (λ states. (i : ℕ) → i < count → (state_at states.items i).bound ≡ latches) }
{
    let mut states = Vec::new(alloc);
    for _ in 0..count {
        push(&mut states, PlaceSet::new(alloc, latches)?)?;
    }
    Ok(states)
}

// Puts batches of 64 faults of a list into a draw, the first and each `apart` further, each fault alone.
fn put_batches(faults: &FaultList, first: u32, apart: u32, draw: &mut [[Option<Fault>; 2]])
    requires size { length draw.old < 2 ^ 32 }
    requires few { first + length draw.old / 64 * apart < 2 ^ 32 }
    ensures { (i : ℕ) → i < length draw.old → loaded_faults draw.new i ≡ somes (fault_in_lane faults.now (Some (first + i / 64 * apart)) (i % 64) ∷ []) }
{
    for i in 0..draw.len() {
        let batch = first + (i / BATCH) as u32 * apart;
        let fault = faults.in_lane(Some(batch), (i % BATCH) as u32);
        draw[i] = [fault, None];
    }
}

impl FaultDraw {
    /// A draw of so many faults, for the circuit and the points of a testbench. It holds no fault yet.
    pub fn new(alloc: Global, bench: &Testbench<'_>, count: u32) -> Result<Self, NoRoom>
        ensures made { IfOk result (IsDrawFor bench.now) }
        ensures count { IfOk result (λ draw. length draw.faults.items ≡ count) }
    {
        // What has least to give up comes first, and the lanes last.
        let faults = filled(alloc, [None, None], count as usize)?;
        let group = filled(alloc, 0, LANES)?;
        let active = PlaceSet::new(alloc, count)?;
        let states = states_for(alloc, count, bench.net().latches().len() as u32)?;
        let records = FaultRecords::new(alloc, count as usize, bench.points())?;
        let lanes = DifferentialLanes4::new(alloc, bench.net(), bench.order())?;
        Ok(FaultDraw {
            lanes,
            faults,
            states,
            records,
            active,
            group,
        })
    }

    /// Puts batches of 64 faults of a list into the draw, as many as it has room for: the first, and each other that `apart` further.
    /// Each fault is alone. There is no fault at the numbers behind the last.
    pub fn load_batches(&mut self, faults: &FaultList, first: u32, apart: u32)
        requires size { length self.old.faults.items < 2 ^ 32 }
        requires few { first + length self.old.faults.items / 64 * apart < 2 ^ 32 }
        ensures holds { HoldsBatches faults.now first apart self.new }
        ensures count { length self.new.faults.items ≡ length self.old.faults.items }
        ensures lanes { self.new.lanes ≡ self.old.lanes }
        ensures states { self.new.states ≡ self.old.states }
        ensures records { self.new.records ≡ self.old.records }
        ensures active { self.new.active ≡ self.old.active }
        ensures group { self.new.group ≡ self.old.group }
    {
        put_batches(faults, first, apart, self.faults.as_mut_slice());
    }

    /// What the last run has shown of each fault.
    pub fn records(&self) -> &FaultRecords
        ensures { result.now ≡ self.now.records }
    {
        &self.records
    }

    /// Follows all faults of the draw through a run: the record of each then has what the whole run shows of it. A fault leaves a run of
    /// the mission once each goal and each alarm point that it can change has shown itself, and any run once nothing more comes of it.
    /// What was followed before is no matter. It takes at most one step for each table, cycle and group of 256 faults, and no memory.
    pub fn follow_whole<L: Ledger>(
        &mut self,
        bench: &Testbench<'_>,
        run: u32,
        paths: &PointPaths,
        steps: &mut Steps<L>,
    )
        requires run { run < length bench.now.runs }
        requires made { IsDrawFor bench.now self.old }
        requires paths { ArePathsTo bench.now.circuit bench.now.points paths.now }
        ensures made { IsDrawFor bench.now self.new }
        ensures faults { self.new.faults ≡ self.old.faults }
        ensures shown { (i : ℕ) → i < length self.old.faults.items
            → HasShownRun bench.now.points (shown_in bench.now.circuit (loaded_faults self.old.faults.items i) (run_at bench.now.runs run)) (record_of self.new.records i) }
        ensures cost { steps.new ≤ steps.old + div_ceil (length self.old.faults.items) 256 * (cycles_of (run_at bench.now.runs run) * length bench.now.circuit.tables) }
    {
        let draw = self.faults.as_slice();
        let rule = AllShown {
            bench,
            paths: paths.paths.as_slice(),
            draw,
        };
        let states = self.states.as_mut_slice();
        let group = self.group.as_mut_slice();
        follow_run(
            bench,
            run,
            &rule,
            draw,
            &mut self.lanes,
            states,
            &mut self.records,
            &mut self.active,
            group,
            steps,
        );
    }
}
