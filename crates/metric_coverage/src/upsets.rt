// The lines of upsets: how many were tried, and the metric of transient faults by the flips of each cycle alone.
ghost use Rattle.std.specs.Prelude.{◌≡◌, ◌<◌, ◌≤◌, ◌^◌, All, count_by, flat_map, if◌then◌else◌, length, nat_lt, sum_by};
ghost use Rattle.std.specs.List.Sorted.{IsStrictlyIncreasing};
ghost use Rattle.circuit.specs.declared.parts.Fault.TheVariants.{Flip as FlipOf};
ghost use Rattle.fm_shelf.specs.Sink.{Sends};
ghost use Rattle.workload.specs.Runs.{cycles_of, is_mission, run_at};
ghost use Rattle.coverage.specs.Upsets.{all_upsets, counted_latches as latches_that_count, counts, mission_runs, tried_upsets, upset_lines};
ghost use Rattle.metric_coverage.specs.Cycles.{AreCyclesWeighed, IsCycleLight, cycle_at};
ghost use Rattle.metric_coverage.specs.Freed.{evidence_at};
ghost use Rattle.metric_coverage.specs.Text.{cycle_by, upsets_line};

use crate::cycles::{CycleWeights, is_counted};
use campaign_plan::Plan;
use coverage::Evidence;
use fm_shelf::lines::{number_word, write_line};
use fm_shelf::shelf::{Failed, Sink};
use metric_bounds::words::fraction_word;
use workload::run::Kind;

/// So many upsets were tried, of so many that there are.
#[derive(Clone, Copy)]
pub(crate) struct Upsets {
    tried: u64,
    all: u64,
}

// Whether the part of a latch counts: it is that of the latch's output net, and so that of the first fault on this net.
fn is_latch_counted(plan: &Plan, latch: usize) -> bool
    requires { latch < length plan.now.circuit.latches }
    ensures { result ≡ counts plan.now (FlipOf latch 0) }
{
    let net = plan.net().latches()[latch].to;
    is_counted(plan, net.0 * 2)
}

// The number of latches whose part counts.
fn counted_latches(plan: &Plan) -> u64
    ensures count { result ≡ latches_that_count plan.now }
    ensures few { result ≤ 2 ^ 18 }
{
    let mut count = 0;
    for latch in 0..plan.net().latches().len() {
        if is_latch_counted(plan, latch) {
            count += 1;
        }
    }
    count
}

// How many of these cycles, which rise, are below a bound. It looks at no more of them than at the first that isn't.
fn cycles_below(cycles: &[u32], bound: u32) -> u64
    requires { IsStrictlyIncreasing cycles.now }
    ensures count { result ≡ count_by (λ cycle. nat_lt cycle bound) cycles.now }
    ensures few { result ≤ bound }
{
    for (k, cycle) in cycles.iter().enumerate() {
        if *cycle >= bound {
            return k as u64;
        }
    }
    cycles.len() as u64
}

// The upsets of one latch in a run: a flip in each cycle of a run of the mission, of which those are tried whose cycle is listed.
fn upsets_of_a_run(plan: &Plan, run: u32) -> Upsets
    requires { run < length plan.now.runs }
    ensures tried { result.tried ≡ (if is_mission (run_at plan.now.runs run).kind then count_by (λ cycle. nat_lt cycle (cycles_of (run_at plan.now.runs run))) plan.now.settings.flips else 0) }
    ensures all { result.all ≡ (if is_mission (run_at plan.now.runs run).kind then cycles_of (run_at plan.now.runs run) else 0) }
    ensures among { result.tried ≤ result.all }
{
    let work = plan.work();
    if work.kind(run) != Kind::Mission {
        return Upsets { tried: 0, all: 0 };
    }
    let cycles = work.cycles(run);
    Upsets {
        tried: cycles_below(plan.settings().flips.as_slice(), cycles),
        all: u64::from(cycles),
    }
}

// Those of one latch in all runs.
fn upsets_of_a_latch(plan: &Plan) -> Upsets
    ensures tried { result.tried ≡ sum_by (λ run. count_by (λ cycle. nat_lt cycle (cycles_of run)) plan.now.settings.flips) (mission_runs plan.now) }
    ensures all { result.all ≡ sum_by cycles_of (mission_runs plan.now) }
    ensures among { result.tried ≤ result.all }
    ensures few { result.all ≤ 65536 }
{
    let mut upsets = Upsets { tried: 0, all: 0 };
    for run in 0..plan.work().runs() {
        let own = upsets_of_a_run(plan, run);
        upsets.tried += own.tried;
        upsets.all += own.all;
    }
    upsets
}

// Those of all latches whose part counts.
fn upsets_of(plan: &Plan) -> Upsets
    ensures tried { result.tried ≡ tried_upsets plan.now }
    ensures all { result.all ≡ all_upsets plan.now }
{
    let latches = counted_latches(plan);
    let each = upsets_of_a_latch(plan);
    Upsets {
        tried: latches * each.tried,
        all: latches * each.all,
    }
}

// Writes how many upsets were tried of how many.
fn write_upsets<O: Sink>(upsets: Upsets, out: &mut O) -> Result<(), Failed>
    ensures { Sends (O.seen out.old) (O.seen out.new) (upsets_line upsets.tried upsets.all) result }
{
    write_line(
        out,
        &[
            b"upsets",
            number_word(upsets.tried).bytes(),
            b"of",
            number_word(upsets.all).bytes(),
        ],
    )
}

// Writes what the metric of transient faults were by the flips of a cycle alone.
fn write_cycle<O: Sink>(cycle: u32, weights: &CycleWeights, out: &mut O) -> Result<(), Failed>
    requires { IsCycleLight weights.now }
    ensures { Sends (O.seen out.old) (O.seen out.new) (cycle_by cycle weights.now) result }
{
    write_line(
        out,
        &[
            b"cycle",
            number_word(u64::from(cycle)).bytes(),
            b"harm",
            number_word(weights.harm).bytes(),
            b"rate",
            number_word(weights.rate).bytes(),
            b"spfm transient",
            fraction_word(weights.spfm()).bytes(),
        ],
    )
}

// Writes the line of each of these cycles.
fn write_cycles<O: Sink>(
    cycles: &[u32],
    weights: &[CycleWeights],
    out: &mut O,
) -> Result<(), Failed>
    requires room { All (λ cycle. cycle < length weights.now) cycles.now }
    requires light { All (λ cycle. IsCycleLight (cycle_at weights.now cycle)) cycles.now }
    ensures { Sends (O.seen out.old) (O.seen out.new) (flat_map (λ cycle. cycle_by cycle (cycle_at weights.now cycle)) cycles.now) result }
{
    for cycle in cycles {
        write_cycle(*cycle, &weights[*cycle as usize], out)?;
    }
    Ok(())
}

/// Writes how many upsets were tried, and the line of each cycle of flips; nothing where none is listed.
pub(crate) fn write_upset_lines<O: Sink>(
    plan: &Plan,
    evidence: &[Evidence],
    weights: &[CycleWeights],
    out: &mut O,
) -> Result<(), Failed>
    requires { AreCyclesWeighed plan.now (evidence_at evidence.now) weights.now }
    ensures { Sends (O.seen out.old) (O.seen out.new) (upset_lines plan.now (evidence_at evidence.now)) result }
{
    let flips = plan.settings().flips.as_slice();
    if flips.is_empty() {
        return Ok(());
    }
    write_upsets(upsets_of(plan), out)?;
    write_cycles(flips, weights, out)
}
