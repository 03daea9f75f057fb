// When a fault may leave a run.
ghost use Rattle.std.specs.Prelude.{◌≡◌, ◌<◌, ◌^◌, ◌⊎◌, ℕ, Bool, Option, List, [], false, true, length, slice_index_or};
ghost use Rattle.circuit.specs.declared.parts.Fault.{Fault as FaultValue};
ghost use Rattle.lane_words.specs.Loads.{loaded_faults, somes};
ghost use Rattle.workload.specs.declared.run.Kind.{Kind as KindValue};
ghost use Rattle.place_set.specs.Places.{has};
ghost use Rattle.fault_runs.specs.Over.{AreOver};
ghost use Rattle.fault_runs.specs.Records.{RunShown, record_of};
ghost use Rattle.fault_runs.specs.Stretch.{state_at};

use crate::over::are_over;
use crate::record::FaultRecords;
use circuit::parts::Fault;
use place_set::PlaceSet;
use workload::run::Kind;

/// A rule by which faults leave a run before its end: once what was seen of a fault is enough, whatever follows.
pub trait LeavingRule {
    // what an answer counts on
    ghost is_sound: { Self → Type 0 };

    // a fault of a draw may leave a run of a kind after so many cycles, with what they have shown of it
    ghost may_leave: { Self → (fault : ℕ) → KindValue → (cycles : ℕ) → RunShown → Type 0 };

    /// Whether a fault leaves a run of a kind after so many cycles.
    fn leaves(&self, fault: u32, kind: Kind, cycles: u32, records: &FaultRecords) -> bool
        requires sound { is_sound self.now }
        requires fault { fault < records.now.faults }
        ensures { result ≡ true → may_leave self.now fault kind cycles (record_of records.now fault) };
}

// Takes a fault out of those that are active, where it leaves.
fn remove_where(leaves: bool, fault: usize, active: &mut PlaceSet)
    requires { fault < active.old.bound }
    ensures bound { active.new.bound ≡ active.old.bound }
    ensures stays { (i : ℕ) → has active.new i ≡ true → has active.old i ≡ true }
    ensures leaves { (i : ℕ) → has active.old i ≡ true → has active.new i ≡ false → (leaves ≡ true) × (i ≡ fault) }
{
    if leaves {
        active.remove(fault);
    }
}

// Whether a fault leaves a run of a kind after so many cycles: by the rule, or since nothing more comes of it.
fn leaves_now<R: LeavingRule>(
    rule: &R,
    fault: u32,
    kind: Kind,
    cycles: u32,
    loads: [Option<Fault>; 2],
    state: &PlaceSet,
    records: &FaultRecords,
) -> bool
    requires sound { R.is_sound rule.now }
    requires fault { fault < records.now.faults }
    ensures { result ≡ true → AreOver (somes loads) cycles state.now ⊎ R.may_leave rule.now fault kind cycles (record_of records.now fault) }
{
    if are_over(&loads, cycles, state) {
        return true;
    }
    rule.leaves(fault, kind, cycles, records)
}

/// Takes the faults that the rule lets go out of those that are active, and those of which nothing more comes.
pub fn leave_active<R: LeavingRule>(
    rule: &R,
    kind: Kind,
    cycles: u32,
    draw: &[[Option<Fault>; 2]],
    states: &[PlaceSet],
    records: &FaultRecords,
    active: &mut PlaceSet,
)
    requires sound { R.is_sound rule.now }
    requires active { active.old.bound ≡ length draw.now }
    requires states { length states.now ≡ length draw.now }
    requires faults { records.now.faults ≡ length draw.now }
    requires few { length draw.now < 2 ^ 32 }
    ensures bound { active.new.bound ≡ active.old.bound }
    ensures stays { (i : ℕ) → has active.new i ≡ true → has active.old i ≡ true }
    ensures leaves { (i : ℕ) → has active.old i ≡ true → has active.new i ≡ false
        → AreOver (loaded_faults draw.now i) cycles (state_at states.now i) ⊎ R.may_leave rule.now i kind cycles (record_of records.now i) }
{
    let mut from = 0;
    'faults: while let Some(i) = active.next_from(from) {
        let leaves = leaves_now(rule, i as u32, kind, cycles, draw[i], &states[i], records);
        remove_where(leaves, i, active);
        from = i + 1;
    }
}
