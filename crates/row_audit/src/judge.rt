// The planes of the batches of rows.
ghost use Rattle.std.specs.Prelude.{◌≡◌, ◌<◌, ℕ, List, Some, IfOk, IfSome, length};
ghost use Rattle.alarm_points.specs.PointsKept.{ArePointsFor};
ghost use Rattle.campaign_plan.specs.Batches.{outcome_of};
ghost use Rattle.circuit.specs.declared.parts.Fault.{Fault};
ghost use Rattle.circuit.specs.Circuit.{Circuit};
ghost use Rattle.workload.specs.declared.run.Run.{Run};
ghost use Rattle.alarm_points.specs.declared.Points.{Points};
ghost use Rattle.classifier.specs.Batch.{alone_in, outcome_for};
ghost use Rattle.classifier.specs.Planes.{HasPlanes};
ghost use Rattle.row_audit.specs.Loaded.{IsLoadedFor};
ghost use Rattle.row_audit.specs.Watched.{AreAllAtHand, AreAllReady, watcher_at};

use crate::alarms::QUIET;
use crate::bench::Bench;
use crate::circuits::Circuits;
use crate::run::judge_runs;
use crate::watcher::{NOTHING, Watcher};
use alarm_points::windows::Windows;
use campaign_plan::Outcome;
use fault_list::FaultList;
use result_file::Row;
use room::{NoRoom, push};
use std::alloc::Global;

/// A watcher for each of so many words, which has no batch yet.
pub(crate) fn watchers_for(
    alloc: Global,
    bench: &Bench<'_>,
    words: usize,
) -> Result<Vec<Watcher>, NoRoom>
    ensures count { IfOk result (λ watchers. length watchers.items ≡ words) }
    ensures at_hand { IfOk result (λ watchers.
        AreAllAtHand bench.now.net.now bench.now.points.now bench.now.ftti bench.now.work.now bench.now.faults.now watchers.items) }
{
    let mut watchers = Vec::new(alloc);
    for _ in 0..words {
        let windows = Windows::new(alloc, bench.points, bench.ftti)?;
        push(
            &mut watchers,
            Watcher {
                batch: None,
                windows,
                alarms: QUIET,
                planes: NOTHING,
            },
        )?;
    }
    Ok(watchers)
}

// The batch that a word is given: the first that is asked for, or that of the row which is audited so many rows later.
fn batch_for(first: u32, rows: &[Row], place: usize, every: u32, word: usize) -> Option<u32>
    ensures { word ≡ 0 → result ≡ Some first }
{
    if word == 0 {
        return Some(first);
    }
    let later = (every as usize).saturating_mul(word);
    let row = rows.get(place.checked_add(later)?)?;
    Some(row.batch)
}

// Turns each word to the batch of a row: the first to that of the row at this place.
fn turn_all(first: u32, rows: &[Row], place: usize, every: u32, watchers: &mut [Watcher])
    ensures windows { (word : ℕ) → word < length watchers.old → (watcher_at watchers.new word).windows ≡ (watcher_at watchers.old word).windows }
    ensures planes { (word : ℕ) → word < length watchers.old → (watcher_at watchers.new word).planes ≡ record { danger = 0; noticed = 0 } }
    ensures first { 0 < length watchers.old → (watcher_at watchers.new 0).batch ≡ Some first }
{
    for word in 0..watchers.len() {
        watchers[word].turn_to(batch_for(first, rows, place, every, word));
    }
}

// Loads the lanes of each word with the faults of its batch.
fn load_all<B: Circuits>(faults: &FaultList, watchers: &[Watcher], circuits: &mut B)
    requires count { length watchers.now ≡ B.words }
    requires sound { B.IsSound circuits.old }
    ensures sound { B.IsSound circuits.new }
    ensures circuit { (B.loaded circuits.new).circuit ≡ (B.loaded circuits.old).circuit }
    ensures order { (B.loaded circuits.new).order ≡ (B.loaded circuits.old).order }
    ensures loads { (word k : ℕ) → word < B.words → k < 64
        → (B.loaded circuits.new).faults word k ≡ alone_in faults.now (watcher_at watchers.now word).batch k }
{
    for word in 0..watchers.len() {
        circuits.load_batch(word, faults, watchers[word].batch);
    }
}

// Leaves the planes of each word's batch alone.
fn mask_all(faults: &FaultList, watchers: &mut [Watcher])
    ensures batch { (word : ℕ) → word < length watchers.old → (watcher_at watchers.new word).batch ≡ (watcher_at watchers.old word).batch }
    ensures windows { (word : ℕ) → word < length watchers.old → (watcher_at watchers.new word).windows ≡ (watcher_at watchers.old word).windows }
    ensures planes { (c : Circuit) (points : Points) (ftti : ℕ) (runs : List Run) (lanes : ℕ → List Fault) (word : ℕ) → word < length watchers.old
        → ((k : ℕ) → k < 64 → lanes k ≡ alone_in faults.now (watcher_at watchers.old word).batch k)
        → HasPlanes c points ftti runs lanes (watcher_at watchers.old word).planes
        → (watcher_at watchers.new word).planes ≡ outcome_for c points ftti runs faults.now (watcher_at watchers.old word).batch }
{
    for word in 0..watchers.len() {
        watchers[word].mask(faults);
    }
}

// Simulates a batch, and with it those of the rows that are audited next, as many as there are words.
fn judge_from<B: Circuits>(
    bench: &Bench<'_>,
    batch: u32,
    rows: &[Row],
    place: usize,
    every: u32,
    circuits: &mut B,
    watchers: &mut [Watcher],
)
    requires points { ArePointsFor bench.now.net.now bench.now.points.now }
    requires made { IsLoadedFor bench.now.net.now bench.now.order.now (B.loaded circuits.old) }
    requires sound { B.IsSound circuits.old }
    requires count { length watchers.old ≡ B.words }
    requires ready { AreAllReady bench.now.points.now bench.now.ftti watchers.old }
    ensures made { IsLoadedFor bench.now.net.now bench.now.order.now (B.loaded circuits.new) }
    ensures sound { B.IsSound circuits.new }
    ensures at_hand { AreAllAtHand bench.now.net.now bench.now.points.now bench.now.ftti bench.now.work.now bench.now.faults.now watchers.new }
    ensures first { 0 < length watchers.old → (watcher_at watchers.new 0).batch ≡ Some batch }
{
    turn_all(batch, rows, place, every, watchers);
    load_all(bench.faults, watchers, circuits);
    judge_runs(bench, circuits, watchers);
    mask_all(bench.faults, watchers);
}

// The planes of a batch, where some word has them.
fn at_hand(watchers: &[Watcher], batch: u32) -> Option<Outcome>
    ensures { IfSome result (λ planes. (word : ℕ) × (word < length watchers.now)
        × ((watcher_at watchers.now word).batch ≡ Some batch) × (planes ≡ (watcher_at watchers.now word).planes)) }
{
    for watcher in watchers {
        if watcher.batch == Some(batch) {
            return Some(watcher.planes);
        }
    }
    None
}

/// The planes of a batch, which is that of the row at this place: where they aren't at hand, it is simulated together with those of the
/// rows that are audited next, each `every` rows further on.
pub(crate) fn planes_of<B: Circuits>(
    bench: &Bench<'_>,
    batch: u32,
    rows: &[Row],
    place: usize,
    every: u32,
    circuits: &mut B,
    watchers: &mut [Watcher],
) -> Outcome
    requires points { ArePointsFor bench.now.net.now bench.now.points.now }
    requires made { IsLoadedFor bench.now.net.now bench.now.order.now (B.loaded circuits.old) }
    requires sound { B.IsSound circuits.old }
    requires count { length watchers.old ≡ B.words }
    requires some { 0 < length watchers.old }
    requires at_hand { AreAllAtHand bench.now.net.now bench.now.points.now bench.now.ftti bench.now.work.now bench.now.faults.now watchers.old }
    ensures planes { result ≡ outcome_of bench.now.net.now bench.now.points.now bench.now.ftti bench.now.work.now bench.now.faults.now batch }
    ensures made { IsLoadedFor bench.now.net.now bench.now.order.now (B.loaded circuits.new) }
    ensures sound { B.IsSound circuits.new }
    ensures at_hand { AreAllAtHand bench.now.net.now bench.now.points.now bench.now.ftti bench.now.work.now bench.now.faults.now watchers.new }
{
    match at_hand(watchers, batch) {
        Some(planes) => planes,
        None => {
            judge_from(bench, batch, rows, place, every, circuits, watchers);
            watchers[0].planes
        }
    }
}
