// A group of faults followed through a stretch of a run.
ghost use Rattle.std.specs.Prelude.{◌≡◌, ◌<◌, ◌≤◌, ◌+◌, ◌-◌, ◌*◌, [], ℕ, All, Bool, List, Option, length, min, take};
ghost use Rattle.circuit.specs.declared.parts.Fault.{Fault as FaultValue};
ghost use Rattle.workload.specs.Runs.{cycles_of, run_at};
ghost use Rattle.golden_difference.specs.Beside.{AreBetween, IsStateOf};
ghost use Rattle.golden_difference.specs.Lanes.{IsMadeFor, KeepsLoads};
ghost use Rattle.lane_words.specs.Loads.{loaded_faults};
ghost use Rattle.testbench.specs.Load.{load_of};
ghost use Rattle.fault_runs.specs.First.{IsNotIn, fault_in};
ghost use Rattle.fault_runs.specs.Records.{AreKnownIn, AreRecordsFor, IsSameRecord, record_of};
ghost use Rattle.fault_runs.specs.Shown.{HasShown, SeesCycle};
ghost use Rattle.fault_runs.specs.Stretch.{AreInForce, AreStanding, state_at};

use crate::record::FaultRecords;
use crate::see::see_cycle;
use circuit::parts::Fault;
use differential_kernel::DifferentialLanes;
use fm_base::Steps;
use lane_words::Word;
use place_set::PlaceSet;
use std::sync::ledger::Ledger;
use testbench::{STRETCH, Testbench};

// The number of lanes that a group takes.
fn lanes_of<W: Word>(group: &[u32]) -> u32
    requires { length group.now ≤ W.lanes }
    ensures { result ≡ length group.now }
{
    (W::count() as usize).min(group.len()) as u32
}

// Puts each fault of a group into its lane, from its state.
fn put_group<W: Word>(
    draw: &[[Option<Fault>; 2]],
    group: &[u32],
    states: &[PlaceSet],
    lanes: &mut DifferentialLanes<W>,
)
    requires few { length group.now ≤ W.lanes }
    requires group { All (λ i. i < length draw.now) group.now }
    requires states { length states.now ≡ length draw.now }
    requires bound { (i : ℕ) → i < length states.now → (state_at states.now i).bound ≡ length lanes.old.circuit.latches }
    requires empty { (k : ℕ) → k < W.lanes → loaded_faults lanes.old.in_force k ≡ [] }
    ensures keeps { KeepsLoads lanes.old lanes.new }
    ensures cycle { lanes.new.cycle ≡ lanes.old.cycle }
    ensures in_force { AreInForce draw.now group.now lanes.new.in_force }
    ensures between { (vectors : List (List Bool)) → AreBetween W.lanes W.lane_bit vectors lanes.old
        → ((k : ℕ) → k < length group.now → IsStateOf lanes.old.circuit (loaded_faults draw.now (fault_in group.now k)) vectors (state_at states.now (fault_in group.now k)))
        → AreBetween W.lanes W.lane_bit vectors lanes.new }
{
    for lane in 0..lanes_of::<W>(group) {
        let i = group[lane as usize] as usize;
        lanes.put(lane, draw[i], &states[i]);
    }
}

// Keeps the state of each fault of a group, from its lane.
fn keep_group<W: Word>(group: &[u32], lanes: &DifferentialLanes<W>, states: &mut [PlaceSet])
    requires few { length group.now ≤ W.lanes }
    requires group { All (λ i. i < length states.old) group.now }
    requires bound { (i : ℕ) → i < length states.old → (state_at states.old i).bound ≡ length lanes.now.circuit.latches }
    ensures bound { (i : ℕ) → i < length states.old → (state_at states.new i).bound ≡ length lanes.now.circuit.latches }
    ensures kept { (vectors : List (List Bool)) (draw : List (List (Option FaultValue))) (k : ℕ) → AreBetween W.lanes W.lane_bit vectors lanes.now
        → AreInForce draw group.now lanes.now.in_force → k < length group.now
        → IsStateOf lanes.now.circuit (loaded_faults draw (fault_in group.now k)) vectors (state_at states.new (fault_in group.now k)) }
    ensures others { (i : ℕ) → IsNotIn group.now i → state_at states.new i ≡ state_at states.old i }
{
    for lane in 0..lanes_of::<W>(group) {
        let i = group[lane as usize] as usize;
        lanes.keep(lane, &mut states[i]);
    }
}

// Simulates the next cycle of a run, and shows it to the records of a group.
fn run_cycle<W: Word, L: Ledger>(
    bench: &Testbench<'_>,
    run: u32,
    t: u32,
    group: &[u32],
    lanes: &mut DifferentialLanes<W>,
    records: &mut FaultRecords,
    steps: &mut Steps<L>,
)
    requires run { run < length bench.now.runs }
    requires cycle { t < cycles_of (run_at bench.now.runs run) }
    requires few_cycles { t < 65536 }
    requires made { IsMadeFor bench.now.circuit bench.now.order lanes.old }
    requires cycles { lanes.old.cycle ≡ t }
    requires after { AreBetween W.lanes W.lane_bit (take t (run_at bench.now.runs run).vectors) lanes.old }
    requires few { length group.now ≤ W.lanes }
    requires group { All (λ i. i < records.old.faults) group.now }
    requires fit { AreRecordsFor bench.now.points records.old }
    requires known { AreKnownIn group.now records.old }
    ensures load { load_of lanes.new ≡ load_of lanes.old }
    ensures in_force { lanes.new.in_force ≡ lanes.old.in_force }
    ensures cycles { lanes.new.cycle ≡ t + 1 }
    ensures after { AreBetween W.lanes W.lane_bit (take (t + 1) (run_at bench.now.runs run).vectors) lanes.new }
    ensures faults { records.new.faults ≡ records.old.faults }
    ensures fit { AreRecordsFor bench.now.points records.new }
    ensures known { AreKnownIn group.now records.new }
    ensures seen { (draw : List (List (Option FaultValue))) (k : ℕ) → AreInForce draw group.now lanes.old.in_force → k < length group.now
        → SeesCycle bench.now.circuit bench.now.points (run_at bench.now.runs run) (loaded_faults draw (fault_in group.now k)) t
        (record_of records.old (fault_in group.now k)) (record_of records.new (fault_in group.now k)) }
    ensures others { (i : ℕ) → IsNotIn group.now i → IsSameRecord (record_of records.old i) (record_of records.new i) }
    ensures cost { steps.new ≤ steps.old + length bench.now.circuit.tables }
{
    let row = bench.row(run, t);
    bench.advance(row, lanes, steps);
    see_cycle(lanes, bench.points(), group, t, row, records);
}

// Simulates the cycles of a run from one to before another, and shows them to the records of a group.
fn follow_cycles<W: Word, L: Ledger>(
    bench: &Testbench<'_>,
    run: u32,
    from: u32,
    to: u32,
    group: &[u32],
    lanes: &mut DifferentialLanes<W>,
    records: &mut FaultRecords,
    steps: &mut Steps<L>,
)
    requires run { run < length bench.now.runs }
    requires from { from ≤ to }
    requires to { to ≤ cycles_of (run_at bench.now.runs run) }
    requires few_cycles { to ≤ 65536 }
    requires made { IsMadeFor bench.now.circuit bench.now.order lanes.old }
    requires cycles { lanes.old.cycle ≡ from }
    requires after { AreBetween W.lanes W.lane_bit (take from (run_at bench.now.runs run).vectors) lanes.old }
    requires few { length group.now ≤ W.lanes }
    requires group { All (λ i. i < records.old.faults) group.now }
    requires fit { AreRecordsFor bench.now.points records.old }
    requires known { AreKnownIn group.now records.old }
    ensures load { load_of lanes.new ≡ load_of lanes.old }
    ensures in_force { lanes.new.in_force ≡ lanes.old.in_force }
    ensures after { AreBetween W.lanes W.lane_bit (take to (run_at bench.now.runs run).vectors) lanes.new }
    ensures faults { records.new.faults ≡ records.old.faults }
    ensures fit { AreRecordsFor bench.now.points records.new }
    ensures shown { (draw : List (List (Option FaultValue))) (k : ℕ) → AreInForce draw group.now lanes.old.in_force → k < length group.now
        → HasShown bench.now.circuit bench.now.points (run_at bench.now.runs run) (loaded_faults draw (fault_in group.now k)) from (record_of records.old (fault_in group.now k))
        → HasShown bench.now.circuit bench.now.points (run_at bench.now.runs run) (loaded_faults draw (fault_in group.now k)) to (record_of records.new (fault_in group.now k)) }
    ensures others { (i : ℕ) → IsNotIn group.now i → IsSameRecord (record_of records.old i) (record_of records.new i) }
    ensures cost { steps.new ≤ steps.old + (to - from) * length bench.now.circuit.tables }
{
    for t in from..to {
        run_cycle(bench, run, t, group, lanes, records, steps);
    }
}

/// Follows a group of faults, at most as many as there are lanes, through the next stretch of a run: from a cycle to the one that is told,
/// 256 cycles later or where the run ends. Each fault of the group goes on from its state, which then is that at the end of the stretch, and
/// its record is shown the cycles of the stretch. Other faults of the draw are left as they are. It takes at most one step for each table
/// and cycle, for all lanes together, and no memory. What lanes held before is no matter.
pub fn follow_stretch<W: Word, L: Ledger>(
    bench: &Testbench<'_>,
    run: u32,
    from: u32,
    draw: &[[Option<Fault>; 2]],
    group: &[u32],
    lanes: &mut DifferentialLanes<W>,
    states: &mut [PlaceSet],
    records: &mut FaultRecords,
    steps: &mut Steps<L>,
) -> u32
    requires run { run < length bench.now.runs }
    requires from { from ≤ cycles_of (run_at bench.now.runs run) }
    requires made { IsMadeFor bench.now.circuit bench.now.order lanes.old }
    requires few { length group.now ≤ W.lanes }
    requires group { All (λ i. i < length draw.now) group.now }
    requires states { length states.old ≡ length draw.now }
    requires bound { (i : ℕ) → i < length states.old → (state_at states.old i).bound ≡ length bench.now.circuit.latches }
    requires faults { records.old.faults ≡ length draw.now }
    requires fit { AreRecordsFor bench.now.points records.old }
    requires stand { AreStanding bench.now.circuit bench.now.points (run_at bench.now.runs run) draw.now group.now from states.old records.old }
    ensures load { load_of lanes.new ≡ load_of lanes.old }
    ensures bound { (i : ℕ) → i < length states.old → (state_at states.new i).bound ≡ length bench.now.circuit.latches }
    ensures faults { records.new.faults ≡ records.old.faults }
    ensures fit { AreRecordsFor bench.now.points records.new }
    ensures to { result ≡ min (cycles_of (run_at bench.now.runs run)) (from + 256) }
    ensures stand { AreStanding bench.now.circuit bench.now.points (run_at bench.now.runs run) draw.now group.now result states.new records.new }
    ensures other_states { (i : ℕ) → IsNotIn group.now i → state_at states.new i ≡ state_at states.old i }
    ensures other_records { (i : ℕ) → IsNotIn group.now i → IsSameRecord (record_of records.old i) (record_of records.new i) }
    ensures cost { steps.new ≤ steps.old + (result - from) * length bench.now.circuit.tables }
{
    let cycles = bench.cycles(run);
    let to = cycles.min(from + STRETCH);
    if group.is_empty() {
        return to;
    }
    lanes.empty(from);
    put_group(draw, group, states, lanes);
    records.begin();
    follow_cycles(bench, run, from, to, group, lanes, records, steps);
    keep_group(group, lanes, states);
    to
}
