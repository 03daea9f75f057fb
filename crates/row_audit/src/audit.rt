// The rows of a result file, judged anew.
ghost use Rattle.std.specs.Prelude.{◌≡◌, ◌<◌, ◌%◌, ◌==◌, IfOk, None, Some, length, if◌then◌else◌, ◌&&◌, slice_index_or};
ghost use Rattle.circuit.specs.Order.{IsOrder};
ghost use Rattle.alarm_points.specs.PointsKept.{ArePointsFor};
ghost use Rattle.campaign_plan.specs.Analysis.{Analysis};
ghost use Rattle.campaign_plan.specs.Batches.{true_planes};
ghost use Rattle.row_audit.specs.Audited.{IsOfPlan, each_nth, first_false, is_false, told_of};
ghost use Rattle.result_file.specs.declared.Row.{Row as RowValue};
ghost use Rattle.row_audit.specs.Loaded.{IsLoadedFor};
ghost use Rattle.row_audit.specs.Watched.{AreAllAtHand};

use crate::bench::Bench;
use crate::circuits::Circuits;
use crate::every_table::lanes_for;
use crate::judge::planes_of;
use crate::kernel::Kernel;
use crate::one_circuit::circuits_for;
use crate::simulated::{Simulated, simulated_by};
use crate::watcher::Watcher;
use campaign_plan::{Outcome, Plan};
use netlist_levels::Order;
use result_file::{FalseRow, Row};
use room::NoRoom;
use std::alloc::Global;

// Whether a row of this number is one of those that are looked at.
fn is_audited(place: usize, every: u32) -> bool
    requires { 0 < every }
    ensures { result ≡ (place % every == 0) }
{
    place % every as usize == 0
}

// What is told of a row whose batch has these planes, if it keeps others.
fn judged(row: &Row, computed: Outcome) -> Option<FalseRow>
    ensures { (p : Analysis) → computed ≡ true_planes p row.now.batch → result ≡ (if is_false p row.now then Some (told_of p row.now) else None) }
{
    let kept = Outcome {
        danger: row.danger,
        noticed: row.noticed,
    };
    if kept == computed {
        None
    } else {
        Some(FalseRow {
            batch: row.batch,
            kept,
            computed,
        })
    }
}

// What is told of the row at this place, if it is one of each N-th and keeps other planes than its batch truly has.
fn false_at<B: Circuits>(
    bench: &Bench<'_>,
    rows: &[Row],
    place: usize,
    every: u32,
    circuits: &mut B,
    watchers: &mut [Watcher],
) -> Option<FalseRow>
    requires place { place < length rows.now }
    requires every { 0 < every }
    requires points { ArePointsFor bench.now.net.now bench.now.points.now }
    requires made { IsLoadedFor bench.now.net.now bench.now.order.now (B.loaded circuits.old) }
    requires sound { B.IsSound circuits.old }
    requires count { length watchers.old ≡ B.words }
    requires some { 0 < length watchers.old }
    requires at_hand { AreAllAtHand bench.now.net.now bench.now.points.now bench.now.ftti bench.now.work.now bench.now.faults.now watchers.old }
    ensures found { (p : Analysis) (none : RowValue) → IsOfPlan p bench.now.net.now bench.now.work.now bench.now.points.now bench.now.ftti bench.now.faults.now
        → let row = slice_index_or rows.now place none in result ≡ (if (place % every == 0) && is_false p row then Some (told_of p row) else None) }
    ensures made { IsLoadedFor bench.now.net.now bench.now.order.now (B.loaded circuits.new) }
    ensures sound { B.IsSound circuits.new }
    ensures at_hand { AreAllAtHand bench.now.net.now bench.now.points.now bench.now.ftti bench.now.work.now bench.now.faults.now watchers.new }
{
    if !is_audited(place, every) {
        return None;
    }
    let row = &rows[place];
    let planes = planes_of(bench, row.batch, rows, place, every, circuits, watchers);
    judged(row, planes)
}

/// What is told of the first such row.
pub(crate) fn first_in<B: Circuits>(
    bench: &Bench<'_>,
    rows: &[Row],
    every: u32,
    circuits: &mut B,
    watchers: &mut [Watcher],
) -> Option<FalseRow>
    requires every { 0 < every }
    requires points { ArePointsFor bench.now.net.now bench.now.points.now }
    requires made { IsLoadedFor bench.now.net.now bench.now.order.now (B.loaded circuits.old) }
    requires sound { B.IsSound circuits.old }
    requires count { length watchers.old ≡ B.words }
    requires some { 0 < length watchers.old }
    requires at_hand { AreAllAtHand bench.now.net.now bench.now.points.now bench.now.ftti bench.now.work.now bench.now.faults.now watchers.old }
    ensures { (p : Analysis) → IsOfPlan p bench.now.net.now bench.now.work.now bench.now.points.now bench.now.ftti bench.now.faults.now
        → result ≡ first_false p every rows.now }
{
    for place in 0..rows.len() {
        if let Some(found) = false_at(bench, rows, place, every, circuits, watchers) {
            return Some(found);
        }
    }
    None
}

/// Simulates the batches of the rows at the places 0, N, 2N and so on, N being `every`, and answers the first of these rows that keeps
/// other planes than its batch truly has, with both. What the row keeps, and what was simulated when it was written, is no matter. All
/// memory is taken before the first cycle: some words of 256 bits for each net, or 65 bytes where one circuit is simulated at a time.
pub fn first_false_row(
    alloc: Global,
    plan: &Plan,
    order: &Order,
    rows: &[Row],
    every: u32,
    kernel: Kernel,
) -> Result<Simulated, NoRoom>
    requires order { IsOrder plan.now.circuit order.now }
    requires every { 0 < every }
    ensures found { IfOk result (λ simulated. simulated.row ≡ first_false plan.now every rows.now) }
    ensures kernel { IfOk result (λ simulated. simulated.kernel ≡ kernel) }
{
    let bench = Bench::of_plan(plan, order);
    match kernel {
        Kernel::EveryTable => {
            let mut lanes = lanes_for(alloc, plan.net(), order)?;
            simulated_by(alloc, &bench, rows, every, &mut lanes)
        }
        Kernel::OneCircuit => {
            let mut circuits = circuits_for(alloc, plan.net(), order)?;
            simulated_by(alloc, &bench, rows, every, &mut circuits)
        }
    }
}

/// The number of rows that an audit of each N-th row looks at.
pub fn audited(rows: &[Row], every: u32) -> usize
    requires { 0 < every }
    ensures { result ≡ length (each_nth every rows.now) }
{
    let mut count = 0;
    for number in 0..rows.len() {
        if is_audited(number, every) {
            count += 1;
        }
    }
    count
}
