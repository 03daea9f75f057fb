// One cycle in all lanes, beside the golden run.
ghost use Rattle.std.specs.Prelude.{◌≡◌, ◌<◌, ◌≤◌, ◌+◌, ◌/◌, ℕ, length};
ghost use Rattle.fanout.specs.Readers.{Ordered};
ghost use Rattle.lane_words.specs.Gates.{IsProgram};
ghost use Rattle.differential_kernel.specs.Cone.{Holds, IsConeOf};
ghost use Rattle.differential_kernel.specs.Cycle.{CanSweep, FitTogether, IsGoldenCycle, NetsDiffer, RunsCycle};
ghost use Rattle.differential_kernel.specs.Differences.{DifferOnlyIn, Grows};
ghost use Rattle.differential_kernel.specs.Parts.{AreLatchesOf, AreNetsOf};
ghost use Rattle.differential_kernel.specs.Shown.{AreShownNetsOf, ReadGolden, shown_by, shown_of, told_in};

use crate::cone::{Cone, holds, make};
use crate::force::Forces;
use crate::golden_cycle::GoldenCycle;
use crate::latches::LatchDifferences;
use crate::nets::NetDifferences;
use crate::pace::Pace;
use crate::program::Program;
use crate::shown::{ShownNets, keep_row};
use crate::sources::{clear, force_all, take_live};
use crate::sweep::{force_sources, read_golden, show_ends, sweep, take_ends};
use crate::walk::{take_latches, walk};
use circuit::parts::Fault;
use fm_base::Steps;
use lane_words::Word;
use lane_words::gate::Gate;
use place_set::PlaceSet;
use std::sync::ledger::Ledger;

// Runs one cycle with the forces of this cycle, on what the latches differ in after flips, and answers how many tables were
// evaluated.
fn run<W: Word, L: Ledger>(
    cycle: &GoldenCycle<'_>,
    program: &Program<W>,
    forces: &Forces<W>,
    latches: &mut LatchDifferences<W>,
    nets: &mut NetDifferences<W>,
    steps: &mut Steps<L>,
) -> usize
    requires fit { FitTogether W.lanes W.lane_bit cycle.now program.now forces.now }
    requires latches { AreLatchesOf W.lanes W.lane_bit cycle.now.netlist.now latches.old }
    requires nets { AreNetsOf W.lanes W.lane_bit cycle.now.fanout.now nets.old }
    ensures run { RunsCycle W.lanes W.lane_bit cycle.now forces.now latches.old latches.new (shown_by W.lane_bit nets.new.words.items) }
    ensures nets { AreNetsOf W.lanes W.lane_bit cycle.now.fanout.now nets.new }
    ensures cost { steps.new ≤ steps.old + length cycle.now.order.now }
{
    clear(&mut nets.touched, &mut nets.words);
    take_live(cycle, latches, nets);
    let forced = force_all(cycle, forces, nets);
    let evaluated = walk(cycle, program, forces, nets, steps);
    take_latches(cycle, latches, nets);
    forced + evaluated
}

// Evaluates the nets of a cone, in which all is that is forced or differs.
fn sweep_cone<W: Word, L: Ledger>(
    cycle: &GoldenCycle<'_>,
    forces: &Forces<W>,
    cone: &Cone,
    raw: &[W],
    values: &mut [W],
    steps: &mut Steps<L>,
)
    requires fit { CanSweep W.lanes W.lane_bit cycle.now forces.now cone.now }
    requires raw { DifferOnlyIn W.lanes W.lane_bit cone.now.latches raw.now }
    requires room { length values.old ≡ length cycle.now.netlist.now.drivers }
    ensures values { NetsDiffer W.lanes W.lane_bit cycle.now forces.now.by_net.items raw.now (λ k n. told_in W.lane_bit k cycle.now.row.now cone.now.nets values.new n) }
    ensures read { ReadGolden W.lanes W.lane_bit cycle.now.row.now cone.now values.new }
    ensures cost { steps.new ≤ steps.old + length cycle.now.order.now }
{
    read_golden(cone, cycle.row, values);
    show_ends(cycle.netlist, cone, cycle.row, raw, values);
    force_sources(cone, forces, values);
    sweep(cycle, forces, cone, values, steps);
}

// The nets are then told by their values, which are of this cycle.
fn tell_by_values<W: Word>(row: &[u64], cone: &Cone, nets: &mut ShownNets<W>)
    requires { cone.now.nets.bound ≡ nets.old.own.touched.bound }
    ensures told { (k n : ℕ) → n / 64 < length nets.old.row.items → shown_of W.lane_bit nets.new k n ≡ told_in W.lane_bit k row.now cone.now.nets nets.old.values.items n }
    ensures nets { (o : Ordered) → Grows nets.old.own.touched cone.now.nets → AreShownNetsOf W.lanes W.lane_bit o nets.old → AreShownNetsOf W.lanes W.lane_bit o nets.new }
{
    keep_row(row, &mut nets.row);
    nets.own.touched.copy_from(&cone.nets);
    nets.swept = true;
}

// The same as a run, by all tables of a cone, in which all is that is forced or differs.
fn run_cone<W: Word, L: Ledger>(
    cycle: &GoldenCycle<'_>,
    forces: &Forces<W>,
    cone: &Cone,
    latches: &mut LatchDifferences<W>,
    nets: &mut ShownNets<W>,
    steps: &mut Steps<L>,
)
    requires fit { CanSweep W.lanes W.lane_bit cycle.now forces.now cone.now }
    requires holds { Holds cone.now forces.now latches.old nets.old.own }
    requires latches { AreLatchesOf W.lanes W.lane_bit cycle.now.netlist.now latches.old }
    requires nets { AreShownNetsOf W.lanes W.lane_bit cycle.now.fanout.now nets.old }
    ensures run { RunsCycle W.lanes W.lane_bit cycle.now forces.now latches.old latches.new (shown_of W.lane_bit nets.new) }
    ensures nets { AreShownNetsOf W.lanes W.lane_bit cycle.now.fanout.now nets.new }
    ensures cost { steps.new ≤ steps.old + length cycle.now.order.now }
{
    sweep_cone(cycle, forces, cone, &latches.raw, &mut nets.values, steps);
    take_ends(
        cycle.netlist,
        cone,
        cycle.row,
        &nets.values,
        &mut latches.raw,
    );
    latches.live.copy_from(&cone.latches);
    tell_by_values(cycle.row, cone, nets);
}

// Whether so many tables were evaluated, or forced nets told, that those of the cone are evaluated as soon in their turn: to find a table
// that reads what differs takes some four times as long. A cone that isn't made yet is taken to have a third of all tables.
fn is_much(evaluated: usize, tables: usize, pace: &Pace) -> bool {
    if pace.made {
        evaluated > pace.cone.table_count / 4
    } else {
        evaluated > tables / 12
    }
}

// After a cycle in which so many tables were evaluated, says how the next ones are run, and makes the cone of this run where it is
// needed for the first time. `gates` are those of all tables.
fn look_ahead(
    cycle: &GoldenCycle<'_>,
    gates: &[Gate],
    loads: &[[Option<Fault>; 2]],
    named: &PlaceSet,
    touched: &PlaceSet,
    evaluated: usize,
    pace: &mut Pace,
)
    requires golden { IsGoldenCycle cycle.now }
    requires gates { IsProgram cycle.now.netlist.now cycle.now.order.now gates.now }
    requires named { named.now.bound ≡ length cycle.now.netlist.now.drivers }
    requires touched { touched.now.bound ≡ length cycle.now.netlist.now.drivers }
    requires cone { IsConeOf cycle.now.fanout.now pace.old.cone }
    ensures { IsConeOf cycle.now.fanout.now pace.new.cone }
{
    let much = is_much(evaluated, cycle.order.len(), pace);
    if much && !pace.made {
        make(cycle, gates, loads, named, touched, &mut pace.cone);
        pace.made = true;
    }
    pace.go_on(much);
}

/// Runs one cycle with the forces of this cycle, on what the latches differ in after flips: by all tables of the cone where the pace
/// says so, and all that is forced or differs is in it; and else by those that read what differs.
pub fn advance<W: Word, L: Ledger>(
    cycle: &GoldenCycle<'_>,
    program: &Program<W>,
    loads: &[[Option<Fault>; 2]],
    forces: &Forces<W>,
    pace: &mut Pace,
    latches: &mut LatchDifferences<W>,
    nets: &mut ShownNets<W>,
    steps: &mut Steps<L>,
)
    requires fit { FitTogether W.lanes W.lane_bit cycle.now program.now forces.now }
    requires cone { IsConeOf cycle.now.fanout.now pace.old.cone }
    requires latches { AreLatchesOf W.lanes W.lane_bit cycle.now.netlist.now latches.old }
    requires nets { AreShownNetsOf W.lanes W.lane_bit cycle.now.fanout.now nets.old }
    ensures run { RunsCycle W.lanes W.lane_bit cycle.now forces.now latches.old latches.new (shown_of W.lane_bit nets.new) }
    ensures nets { AreShownNetsOf W.lanes W.lane_bit cycle.now.fanout.now nets.new }
    ensures cone { IsConeOf cycle.now.fanout.now pace.new.cone }
    ensures cost { steps.new ≤ steps.old + length cycle.now.order.now }
{
    if pace.sweeps > 0 && holds(&pace.cone, forces, latches, &nets.own) {
        run_cone(cycle, forces, &pace.cone, latches, nets, steps);
        pace.go_on_by_sample(cycle.row, &nets.values);
    } else {
        let evaluated = run(cycle, program, forces, latches, &mut nets.own, steps);
        nets.swept = false;
        look_ahead(
            cycle,
            &program.gates,
            loads,
            &forces.named,
            &nets.own.touched,
            evaluated,
            pace,
        );
    }
}
