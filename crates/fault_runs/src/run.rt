// All faults of a draw followed through a run.
ghost use Rattle.std.specs.Prelude.{◌≡◌, ◌<◌, ◌≤◌, ◌+◌, ◌-◌, ◌*◌, ◌^◌, ℕ, false, true, length, min};
ghost use Rattle.std.specs.Int.{div_ceil};
ghost use Rattle.workload.specs.Runs.{cycles_of, run_at};
ghost use Rattle.golden_difference.specs.Lanes.{IsMadeFor};
ghost use Rattle.lane_words.specs.Loads.{loaded_faults};
ghost use Rattle.place_set.specs.Places.{has};
ghost use Rattle.testbench.specs.Load.{load_of};
ghost use Rattle.fault_runs.specs.Records.{AreRecordsFor, IsSameRecord, record_of};
ghost use Rattle.fault_runs.specs.Stretch.{state_at};
ghost use Rattle.fault_runs.specs.Followed.{AreActiveStanding, IsFollowed};

use crate::leaving::{LeavingRule, leave_active};
use crate::members::fill_group;
use crate::record::FaultRecords;
use crate::start::start_run;
use crate::resting::Stretch;
use crate::stretch::follow_stretch;
use circuit::parts::Fault;
use differential_kernel::DifferentialLanes;
use fm_base::Steps;
use lane_words::Word;
use place_set::PlaceSet;
use std::sync::ledger::Ledger;
use testbench::{STRETCH, Testbench};

// Follows all active faults through the next stretch of a run, group after group, but for those that are at rest in it. `group` is room for the members of a group, one
// for each lane.
fn follow_active<W: Word, L: Ledger>(
    bench: &Testbench<'_>,
    run: u32,
    from: u32,
    draw: &[[Option<Fault>; 2]],
    active: &PlaceSet,
    lanes: &mut DifferentialLanes<W>,
    states: &mut [PlaceSet],
    records: &mut FaultRecords,
    group: &mut [u32],
    steps: &mut Steps<L>,
)
    requires run { run < length bench.now.runs }
    requires from { from ≤ cycles_of (run_at bench.now.runs run) }
    requires made { IsMadeFor bench.now.circuit bench.now.order lanes.old }
    requires active { active.now.bound ≡ length draw.now }
    requires few { length draw.now < 2 ^ 32 }
    requires room { length group.old ≡ W.lanes }
    requires states { length states.old ≡ length draw.now }
    requires bound { (i : ℕ) → i < length states.old → (state_at states.old i).bound ≡ length bench.now.circuit.latches }
    requires faults { records.old.faults ≡ length draw.now }
    requires fit { AreRecordsFor bench.now.points records.old }
    requires stand { AreActiveStanding bench.now.circuit bench.now.points (run_at bench.now.runs run) draw.now active.now from states.old records.old }
    ensures load { load_of lanes.new ≡ load_of lanes.old }
    ensures bound { (i : ℕ) → i < length states.old → (state_at states.new i).bound ≡ length bench.now.circuit.latches }
    ensures faults { records.new.faults ≡ records.old.faults }
    ensures fit { AreRecordsFor bench.now.points records.new }
    ensures stand { AreActiveStanding bench.now.circuit bench.now.points (run_at bench.now.runs run) draw.now active.now (min (cycles_of (run_at bench.now.runs run)) (from + 256)) states.new records.new }
    ensures others { (i : ℕ) → has active.now i ≡ false → IsSameRecord (record_of records.old i) (record_of records.new i) }
    ensures cost { steps.new ≤ steps.old + div_ceil (length draw.now) W.lanes * ((min (cycles_of (run_at bench.now.runs run)) (from + 256) - from) * length bench.now.circuit.tables) }
{
    let _some = W::words();
    let _fit = bench.points();
    let to = bench.cycles(run).min(from + STRETCH);
    let mut next = 0;
    'groups: while let Some(first) = active.next_from(next) {
        let stretch = Stretch {
            bench,
            run,
            from,
            to,
            draw,
            states,
        };
        let members = fill_group(active, &stretch, first, group);
        follow_stretch(
            bench,
            run,
            from,
            draw,
            &group[..members.count],
            lanes,
            states,
            records,
            steps,
        );
        next = members.next;
    }
}

// Whether a run of so many cycles goes on before cycle t: there is one, and some fault is still followed.
fn goes_on(active: &PlaceSet, t: u32, cycles: u32) -> bool
    ensures more { result ≡ true → t < cycles }
    ensures over { result ≡ false → t < cycles → (i : ℕ) → has active.now i ≡ false }
{
    t < cycles && active.next_from(0).is_some()
}

/// Follows all faults of a draw through a run from its start: in groups, which are made anew of the faults that are still followed at each
/// 256 cycles; a fault that changes nothing in them, and has changed no latch, is in no group. Once what was seen of a fault is enough by the rule, or nothing more comes of it, it leaves the run, before the first cycle
/// or at the end of a stretch. The record of each fault then has what was seen of it. `draw` has up to two faults for each number, `states`, `records` and `active` are room for the same numbers, and
/// `group` is room for a number in each lane; what they held before is no matter, nor what the lanes held. It takes at most one step for each
/// table, cycle and group of as many faults as there are lanes, and no memory.
pub fn follow_run<W: Word, R: LeavingRule, L: Ledger>(
    bench: &Testbench<'_>,
    run: u32,
    rule: &R,
    draw: &[[Option<Fault>; 2]],
    lanes: &mut DifferentialLanes<W>,
    states: &mut [PlaceSet],
    records: &mut FaultRecords,
    active: &mut PlaceSet,
    group: &mut [u32],
    steps: &mut Steps<L>,
)
    requires rule { R.is_sound rule.now }
    requires run { run < length bench.now.runs }
    requires made { IsMadeFor bench.now.circuit bench.now.order lanes.old }
    requires active { active.old.bound ≡ length draw.now }
    requires room { length group.old ≡ W.lanes }
    requires states { length states.old ≡ length draw.now }
    requires bound { (i : ℕ) → i < length states.old → (state_at states.old i).bound ≡ length bench.now.circuit.latches }
    requires faults { records.old.faults ≡ length draw.now }
    requires fit { AreRecordsFor bench.now.points records.old }
    ensures load { load_of lanes.new ≡ load_of lanes.old }
    ensures active { active.new.bound ≡ active.old.bound }
    ensures bound { (i : ℕ) → i < length states.old → (state_at states.new i).bound ≡ length bench.now.circuit.latches }
    ensures faults { records.new.faults ≡ records.old.faults }
    ensures fit { AreRecordsFor bench.now.points records.new }
    ensures followed { (i : ℕ) → i < length draw.now → IsFollowed bench.now.circuit bench.now.points (run_at bench.now.runs run) (loaded_faults draw.now i)
        (R.may_leave rule.now i (run_at bench.now.runs run).kind) (record_of records.new i) }
    ensures cost { steps.new ≤ steps.old + div_ceil (length draw.now) W.lanes * (cycles_of (run_at bench.now.runs run) * length bench.now.circuit.tables) }
{
    let _few = active.bound();
    let _fit = bench.points();
    start_run(states, records);
    active.fill();
    let cycles = bench.cycles(run);
    let kind = bench.kind(run);
    let mut t = 0;
    leave_active(rule, kind, 0, draw, states, records, active);
    'clock: while goes_on(active, t, cycles) {
        follow_active(
            bench, run, t, draw, active, lanes, states, records, group, steps,
        );
        t = cycles.min(t + STRETCH);
        leave_active(rule, kind, t, draw, states, records, active);
    }
}
