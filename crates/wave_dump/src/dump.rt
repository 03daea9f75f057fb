// The dump of a run.
ghost use Rattle.std.specs.Prelude.{◌≡◌, ◌<◌, ◌≤◌, ◌&&◌, ◌==◌, IfOk, false, is_none, is_some, length, nat_le, not};
ghost use Rattle.circuit.specs.Order.{IsOrder};
ghost use Rattle.circuit.specs.Sound.{IsNetlist};
ghost use Rattle.fm_base.specs.Answers.{Gives};
ghost use Rattle.fm_shelf.specs.Sink.{Sends};
ghost use Rattle.workload.specs.Runs.{run_at};
ghost use Rattle.workload.specs.RunsKept.{AreRuns};
ghost use Rattle.wave_dump.specs.Asked.{is_pattern as is_pattern_word, nets_shown as shown_by, waves_asked};
ghost use Rattle.wave_dump.specs.Dump.{dump_text};
ghost use Rattle.wave_dump.specs.Steps.{HasLanes};

use crate::header::write_scopes;
use crate::named::{given_fault, is_pattern};
use crate::scene::Scene;
use crate::shown::nets_shown;
use crate::values::{loaded_lanes, write_cycles};
use crate::words::write_moment;
use crate::{Asked, DumpFault};
use circuit::netlist::Netlist;
use circuit::parts::Fault;
use fm_base::{Name, Refusal, Steps};
use fm_shelf::shelf::{Failed, Sink};
use fm_shelf::whole::write_all;
use lane_kernel::Lanes;
use netlist_levels::Order;
use room::{NoRoom, filled};
use std::alloc::Global;
use std::marker::{Brand, Model};
use std::sync::ledger::{Blank, Ledger};
use workload::run::Workload;

/// The value change dump of a run. All memory is taken when it is made.
#[derive(Drop)]
pub struct Dump<'a> {
    scene: Scene<'a>,
    order: &'a Order,
    lanes: Lanes,
    // The values of the cycle before: of each net that is shown a word, as the lanes have it.
    held: Vec<u64>,
}

impl<'a> Model for Dump<'a> {
    ghost use Rattle.wave_dump.specs.Dump.{Waves};
    ghost use Rattle.wave_dump.specs.Steps.{IsDump};

    ghost Value = { Waves };

    ghost view = { λ d. d.scene };

    ghost invariant = { λ d. IsDump d.scene d.order.now d.lanes d.held.items };
}

// Whether there is no run of this number, from 1.
fn lacks_run(work: &Workload, number: u32) -> bool
    ensures value { result ≡ not (nat_le 1 number && nat_le number (length work.now)) }
    ensures within { result ≡ false → (0 < number) × (number ≤ length work.now) }
    ensures sound { AreRuns work.now }
{
    let runs = work.runs();
    number < 1 || number > runs
}

// Whether a name is given that no fault has.
fn lacks_fault(fault: Option<Fault>, name: &Option<Name>) -> bool
    ensures { result ≡ (is_none fault && is_some name.now) }
{
    fault.is_none() && name.is_some()
}

// Whether a pattern is given that no net matches.
fn lacks_nets(scene: &Scene<'_>, word: &Option<Name>) -> bool
    ensures { result ≡ ((length scene.now.nets == 0) && is_pattern_word scene.now.fault word.now) }
{
    scene.nets().is_empty() && is_pattern(scene.fault(), word)
}

// Writes all of a dump.
fn write_parts<O: Sink, L: Ledger>(
    scene: &Scene<'_>,
    order: &Order,
    lanes: &mut Lanes,
    held: &mut [u64],
    steps: &mut Steps<L>,
    out: &mut O,
) -> Result<(), Failed>
    requires lanes { HasLanes scene.now order.now lanes.old }
    requires held { length held.old ≡ length scene.now.nets }
    ensures lanes { HasLanes scene.now order.now lanes.new }
    ensures sends { Sends (O.seen out.old) (O.seen out.new) (dump_text scene.now) result }
{
    write_all(out, b"$version fmeda trace $end\n$timescale 1 ns $end\n")?;
    write_scopes(scene, out)?;
    write_all(out, b"$enddefinitions $end\n")?;
    write_cycles(scene, order, lanes, held, steps, out)?;
    write_moment(scene.cycles(), out)
}

// A run, a fault, and the nets that a word asks for.
fn scene_of<'a>(
    alloc: Global,
    net: &'a Netlist,
    order: &Order,
    work: &'a Workload,
    run: u32,
    fault: Option<Fault>,
    word: &Option<Name>,
) -> Result<Scene<'a>, NoRoom>
    requires sound { IsNetlist net.now }
    requires order { IsOrder net.now order.now }
    requires runs { AreRuns work.now }
    requires run { run < length work.now }
    ensures { IfOk result (λ scene. scene ≡ record {
      circuit = net.now;
      run = run_at work.now run;
      fault = fault;
      nets = shown_by net.now (run_at work.now run) fault word.now;
    }) }
{
    let mut scene = Scene {
        net,
        work,
        run,
        fault,
        nets: Vec::new(alloc),
    };
    scene.nets = nets_shown(alloc, &scene, order, word)?;
    Ok(scene)
}

impl<'a> Dump<'a> {
    /// The dump that is asked for.
    ///
    /// Refused in this order: `NoRun`, where the workload has no run of the number; `NoFault`, where a name is given that no fault of
    /// the netlist with these flips and pulses has; `NoNet`, where no net matches a pattern. That no net differs is no refusal. For the
    /// nets that differ the run is simulated once, and `write` simulates it again.
    pub fn new(
        alloc: Global,
        net: &'a Netlist,
        order: &'a Order,
        work: &'a Workload,
        asked: &Asked<'_>,
    ) -> Result<Dump<'a>, Refusal<DumpFault>>
        requires { IsOrder net.now order.now }
        ensures { Gives (waves_asked net.now work.now asked.now.flips.now asked.now.pulses.now asked.now.run asked.now.fault.now asked.now.nets.now) result }
    {
        if lacks_run(work, asked.run) {
            return Err(Refusal::Fault(DumpFault::NoRun));
        }
        let fault = given_fault(net, asked.flips, asked.pulses, asked.fault);
        if lacks_fault(fault, asked.fault) {
            return Err(Refusal::Fault(DumpFault::NoFault));
        }
        let _sound = net.nets();
        let scene = scene_of(alloc, net, order, work, asked.run - 1, fault, asked.nets)?;
        if lacks_nets(&scene, asked.nets) {
            return Err(Refusal::Fault(DumpFault::NoNet));
        }
        let dump = Dump::of(alloc, scene, order)?;
        Ok(dump)
    }

    // The dump of what is known.
    fn of(alloc: Global, scene: Scene<'a>, order: &'a Order) -> Result<Dump<'a>, NoRoom>
        requires { IsOrder scene.circuit order.now }
        ensures { IfOk result (λ dump. dump ≡ scene.entry) }
    {
        let held = filled(alloc, 0, scene.nets().len())?;
        let lanes = loaded_lanes(alloc, &scene, order)?;
        Ok(Dump {
            scene,
            order,
            lanes,
            held,
        })
    }

    // Writes all of it, with a counter of steps that nobody reads.
    fn write_counted<O: Sink, L: Ledger>(&mut self, blank: Blank, out: &mut O) -> Result<(), Failed>
        requires { (blank.name ≡ L.name) × (blank.parts ≡ L.parts) × (0 < blank.parts) }
        ensures sends { Sends (O.seen out.old) (O.seen out.new) (dump_text self.old) result }
        ensures same { self.new ≡ self.old }
    {
        let mut steps: Steps<L> = Steps::fresh(blank);
        write_parts(
            &self.scene,
            self.order,
            &mut self.lanes,
            &mut self.held,
            &mut steps,
            out,
        )
    }

    /// Writes the dump. It takes no memory, and each piece is short, so a slow output wants a sink that gathers them.
    pub fn write<O: Sink>(&mut self, out: &mut O) -> Result<(), Failed>
        ensures sends { Sends (O.seen out.old) (O.seen out.new) (dump_text self.old) result }
        ensures same { self.new ≡ self.old }
    {
        self.write_counted::<O, Brand>(Blank::new(1), out)
    }
}
