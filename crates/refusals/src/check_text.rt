// The text of `check`.
ghost use Rattle.std.specs.Prelude.{◌≡◌, ◌≤◌, length};
ghost use Rattle.std.specs.List.{flat_map};
ghost use Rattle.alarm_points.specs.PointsFile.{observed};
ghost use Rattle.rate_table.specs.Table.{all_rates};
ghost use Rattle.fm_shelf.specs.Sink.{Sends};
ghost use Rattle.refusals.specs.Texts.{check_text};
ghost use Rattle.refusals.specs.Steps.{faults_line, netlist_line, points_line, rates_line, workload_line};

use alarm_points::{Goal, Points};
use campaign_plan::Plan;
use circuit::netlist::Netlist;
use fm_shelf::lines::{number_word, write_line};
use fm_shelf::shelf::{Failed, Sink};
use workload::run::Workload;

fn write_netlist<O: Sink>(net: &Netlist, out: &mut O) -> Result<(), Failed>
    ensures { Sends (O.seen out.old) (O.seen out.new) (netlist_line net.now) result }
{
    write_line(
        out,
        &[
            b"netlist nets",
            number_word(net.nets() as u64).bytes(),
            b"inputs",
            number_word(net.inputs().len() as u64).bytes(),
            b"tables",
            number_word(net.tables() as u64).bytes(),
            b"latches",
            number_word(net.latches().len() as u64).bytes(),
        ],
    )
}

fn write_workload<O: Sink>(work: &Workload, out: &mut O) -> Result<(), Failed>
    ensures { Sends (O.seen out.old) (O.seen out.new) (workload_line work.now) result }
{
    write_line(
        out,
        &[
            b"workload workloads",
            number_word(u64::from(work.runs())).bytes(),
            b"cycles",
            number_word(u64::from(work.all_cycles())).bytes(),
        ],
    )
}

// The rates of all parts, in units of 10^-6 FIT.
fn units(plan: &Plan) -> u64
    ensures { result ≡ all_rates plan.now.rates.parts }
{
    let mut units = 0;
    for k in 0..plan.parts() {
        let part = plan.part(k);
        units += part.permanent + part.transient;
    }
    units
}

fn write_rates<O: Sink>(plan: &Plan, out: &mut O) -> Result<(), Failed>
    ensures { Sends (O.seen out.old) (O.seen out.new) (rates_line plan.now.rates) result }
{
    write_line(
        out,
        &[
            b"rates parts",
            number_word(u64::from(plan.parts())).bytes(),
            b"units",
            number_word(units(plan)).bytes(),
        ],
    )
}

// The number of observation points of all goals.
fn observation_points(goals: &[Goal]) -> u64
    requires { length (flat_map (λ goal. goal.observe) goals.now) ≤ 1024 }
    ensures { result ≡ length (flat_map (λ goal. goal.observe) goals.now) }
{
    let mut count = 0;
    for goal in goals {
        count += goal.observe.as_slice().len() as u64;
    }
    count
}

fn write_points<O: Sink>(points: &Points, out: &mut O) -> Result<(), Failed>
    requires { length (observed points.now) ≤ 1024 }
    ensures { Sends (O.seen out.old) (O.seen out.new) (points_line points.now) result }
{
    write_line(
        out,
        &[
            b"points observe",
            number_word(observation_points(points.goals.as_slice())).bytes(),
            b"alarm",
            number_word(points.alarm.as_slice().len() as u64).bytes(),
        ],
    )
}

fn write_faults<O: Sink>(plan: &Plan, out: &mut O) -> Result<(), Failed>
    ensures { Sends (O.seen out.old) (O.seen out.new) (faults_line plan.now) result }
{
    write_line(
        out,
        &[
            b"faults",
            number_word(u64::from(plan.faults().len())).bytes(),
            b"batches",
            number_word(u64::from(plan.batches())).bytes(),
        ],
    )
}

/// Writes what a campaign over this plan would be, in five lines.
pub fn write_check<O: Sink>(plan: &Plan, out: &mut O) -> Result<(), Failed>
    ensures { Sends (O.seen out.old) (O.seen out.new) (check_text plan.now) result }
{
    write_netlist(plan.net(), out)?;
    write_workload(plan.work(), out)?;
    write_rates(plan, out)?;
    write_points(plan.points(), out)?;
    write_faults(plan, out)
}
