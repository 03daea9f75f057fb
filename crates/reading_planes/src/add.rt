// Danger and notice of a fault, added to the planes of each reading.
ghost use Rattle.std.specs.Prelude.{◌≡◌, ◌<◌, ◌%◌, ◌||◌, ◌&&◌, ◌==◌, ℕ, length};
ghost use Rattle.workload.specs.Runs.{is_mission};
ghost use Rattle.first_cycles.specs.Shown.{Shown};
ghost use Rattle.fm_base.specs.Planes.{bit};
ghost use Rattle.classifier.specs.Planes.{outcome_at};
ghost use Rattle.fault_runs.specs.Records.{AreRecordsFor, record_of};
ghost use Rattle.fault_runs.specs.Whole.{HasShownRun};
ghost use Rattle.reading_planes.specs.Folded.{AreCyclesFor, AreCyclesOf, AreWords, late_by, noticed_by, reading_at};
ghost use Rattle.reading_planes.specs.Readings.{AreReadingsOf, IsReadingOf};

use crate::cycles::FaultCycles;
use crate::late::is_late;
use crate::notice::is_noticed;
use crate::reading::Reading;
use alarm_points::Points;
use campaign_plan::Outcome;
use fault_runs::FaultRecords;
use workload::run::Kind;

// Adds a lane to a plane, where it counts.
fn with_lane(plane: u64, lane: u32, counts: bool) -> u64
    requires { lane < 64 }
    ensures { (k : ℕ) → k < 64 → bit result k ≡ (bit plane k || (lane == k && counts)) }
{
    if counts { plane | (1 << lane) } else { plane }
}

// Whether a fault is late by a reading, in a run of this kind: in a test it isn't.
fn is_late_in(
    kind: Kind,
    points: &Points,
    ftti: u32,
    reading: Reading,
    cycles: &FaultCycles,
) -> bool
    requires reading { IsReadingOf points.now reading }
    requires made { AreCyclesFor points.now cycles.now }
    ensures { (s : Shown) → AreCyclesOf points.now s cycles.now → result ≡ (is_mission kind && late_by points.now ftti reading s) }
{
    match kind {
        Kind::Mission => is_late(points, ftti, reading, cycles),
        Kind::Test => false,
    }
}

// Adds a lane to the planes of danger of those readings by which its fault is late, and to those of notice of those by which it is noticed.
fn add_lane(
    kind: Kind,
    points: &Points,
    ftti: u32,
    readings: &[Reading],
    lane: u32,
    cycles: &FaultCycles,
    outcomes: &mut [Outcome],
)
    requires lane { lane < 64 }
    requires readings { AreReadingsOf points.now readings.now }
    requires made { AreCyclesFor points.now cycles.now }
    requires count { length outcomes.old ≡ length readings.now }
    ensures danger { (s : Shown) (r k : ℕ) → AreCyclesOf points.now s cycles.now → r < length readings.now → k < 64
        → bit (outcome_at outcomes.new r).danger k ≡ (bit (outcome_at outcomes.old r).danger k || (lane == k && (is_mission kind && late_by points.now ftti (reading_at readings.now r) s))) }
    ensures noticed { (s : Shown) (r k : ℕ) → AreCyclesOf points.now s cycles.now → r < length readings.now → k < 64
        → bit (outcome_at outcomes.new r).noticed k ≡ (bit (outcome_at outcomes.old r).noticed k || (lane == k && noticed_by points.now (reading_at readings.now r) s)) }
    ensures words { (r : ℕ) → r < length readings.now → AreWords (outcome_at outcomes.new r) }
{
    for (r, reading) in readings.iter().enumerate() {
        let late = is_late_in(kind, points, ftti, *reading, cycles);
        let noticed = is_noticed(points, *reading, cycles);
        outcomes[r] = Outcome {
            danger: with_lane(outcomes[r].danger, lane, late),
            noticed: with_lane(outcomes[r].noticed, lane, noticed),
        };
    }
}

/// Adds what a run of this kind has shown of a fault, by its number in the draw, to its lane in the planes of each reading. `ftti` is the
/// interval of the settings, in cycles.
pub(crate) fn add_fault(
    kind: Kind,
    points: &Points,
    ftti: u32,
    readings: &[Reading],
    records: &FaultRecords,
    fault: u32,
    cycles: &mut FaultCycles,
    outcomes: &mut [Outcome],
)
    requires readings { AreReadingsOf points.now readings.now }
    requires fit { AreRecordsFor points.now records.now }
    requires made { AreCyclesFor points.now cycles.old }
    requires count { length outcomes.old ≡ length readings.now }
    ensures made { AreCyclesFor points.now cycles.new }
    ensures danger { (s : Shown) (r k : ℕ) → s.kind ≡ kind → HasShownRun points.now s (record_of records.now fault) → r < length readings.now → k < 64
        → bit (outcome_at outcomes.new r).danger k ≡ (bit (outcome_at outcomes.old r).danger k || (fault % 64 == k && (is_mission kind && late_by points.now ftti (reading_at readings.now r) s))) }
    ensures noticed { (s : Shown) (r k : ℕ) → s.kind ≡ kind → HasShownRun points.now s (record_of records.now fault) → r < length readings.now → k < 64
        → bit (outcome_at outcomes.new r).noticed k ≡ (bit (outcome_at outcomes.old r).noticed k || (fault % 64 == k && noticed_by points.now (reading_at readings.now r) s)) }
    ensures words { (r : ℕ) → r < length readings.now → AreWords (outcome_at outcomes.old r) → AreWords (outcome_at outcomes.new r) }
{
    cycles.load(kind, points, records, fault);
    if cycles.has_some() {
        add_lane(kind, points, ftti, readings, fault % 64, cycles, outcomes);
    }
}
