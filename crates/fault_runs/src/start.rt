// All faults of a draw at the start of a run.
ghost use Rattle.std.specs.Prelude.{◌≡◌, ◌<◌, ℕ, All, Bool, List, Option, false, length};
ghost use Rattle.alarm_points.specs.declared.Points.{Points};
ghost use Rattle.circuit.specs.declared.parts.Fault.{Fault};
ghost use Rattle.circuit.specs.Circuit.{Circuit};
ghost use Rattle.workload.specs.declared.run.Run.{Run};
ghost use Rattle.place_set.specs.Places.{has};
ghost use Rattle.fault_runs.specs.Records.{AreRecordsFor};
ghost use Rattle.fault_runs.specs.Stretch.{AreStanding, state_at};

use crate::record::FaultRecords;
use place_set::PlaceSet;

// No latch differs in any state.
fn clear_states(states: &mut [PlaceSet])
    ensures bound { (i : ℕ) → (state_at states.new i).bound ≡ (state_at states.old i).bound }
    ensures none { (i p : ℕ) → i < length states.old → has (state_at states.new i) p ≡ false }
{
    for state in states.iter_mut() {
        state.clear();
    }
}

/// Puts all faults of a draw at the start of a run: no latch differs yet, and nothing was shown. What was kept of an earlier run is no
/// matter.
pub fn start_run(states: &mut [PlaceSet], records: &mut FaultRecords)
    ensures bound { (i : ℕ) → (state_at states.new i).bound ≡ (state_at states.old i).bound }
    ensures faults { records.new.faults ≡ records.old.faults }
    ensures fit { (points : Points) → AreRecordsFor points records.old → AreRecordsFor points records.new }
    ensures stand { (c : Circuit) (points : Points) (run : Run) (draw : List (List (Option Fault))) (group : List ℕ) → AreRecordsFor points records.old
        → All (λ i. i < length states.old) group → AreStanding c points run draw group 0 states.new records.new }
{
    clear_states(states);
    records.start();
}
