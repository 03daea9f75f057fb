// The text of `coverage`.
ghost use Rattle.std.specs.Prelude.{◌≡◌, ◌+◌, ◌*◌, ◌++◌, ◌∷◌, [], flat_map, length};
ghost use Rattle.fm_shelf.specs.Sink.{Sends};
ghost use Rattle.campaign_plan.specs.Analysis.{batch_count};
ghost use Rattle.fmeda_report.specs.Tallies.{planes_in_order};
ghost use Rattle.readings.specs.Breakdown.{goal_word as word_of_goal, with_goals};
ghost use Rattle.coverage.specs.Coverage.{coverage, reading_lines};
ghost use Rattle.metric_coverage.specs.Findings.{AreFindings, AreFound, HasFound, IsFindingBy, several};
ghost use Rattle.metric_coverage.specs.Freed.{evidence_at};
ghost use Rattle.metric_coverage.specs.Text.{goal_lines, unspoken_lines, whole_lines};

use crate::found::{Finding, Found, several_goals};
use crate::free::FreeFaults;
use crate::lines::write_parts;
use crate::metrics::{write_found_lines, write_free_lines};
use crate::names::write_names;
use crate::planes::{BatchPlanes, planes_by};
use crate::upsets::write_upset_lines;
use alarm_points::Goal;
use campaign_plan::{Outcome, Plan};
use fm_shelf::lines::write_line;
use fm_shelf::shelf::{Failed, Sink};

// The name of a goal, or a dash.
fn goal_word(goal: &Goal) -> &[u8]
    ensures { result.now ≡ word_of_goal goal.now }
{
    let name = goal.name.as_slice();
    if name.is_empty() { b"-" } else { name }
}

// Writes the lines of a reading: those of the parts, of the metrics and of the upsets.
fn write_reading<O: Sink>(
    plan: &Plan,
    finding: &Finding,
    planes: &[Outcome],
    out: &mut O,
) -> Result<(), Failed>
    requires planes { length planes.now ≡ batch_count plan.now }
    requires finding { IsFindingBy plan.now planes.now finding.now }
    ensures { Sends (O.seen out.old) (O.seen out.new)
        (reading_lines plan.now (evidence_at finding.now.evidence.items) (planes_in_order planes.now)) result }
{
    let evidence = finding.evidence.as_slice();
    write_parts(plan, finding.parts.as_slice(), out)?;
    write_found_lines(plan, evidence, planes, out)?;
    write_upset_lines(plan, evidence, finding.cycles.as_slice(), out)?;
    write_free_lines(
        plan,
        b"unexcited",
        FreeFaults::Unexcited,
        evidence,
        planes,
        out,
    )?;
    write_free_lines(
        plan,
        b"unreached",
        FreeFaults::Unreached,
        evidence,
        planes,
        out,
    )
}

// Writes the reading of the plan itself.
fn write_whole<O: Sink>(
    plan: &Plan,
    finding: &Finding,
    planes: &[Outcome],
    out: &mut O,
) -> Result<(), Failed>
    requires { HasFound plan.now plan.now planes.now finding.now }
    ensures { Sends (O.seen out.old) (O.seen out.new) (whole_lines plan.now) result }
{
    write_line(out, &[b"reading", b"all"])?;
    write_reading(plan, finding, planes, out)
}

// Writes the reading of goal `g` alone.
fn write_goal<O: Sink>(
    plan: &Plan,
    goal: &Goal,
    finding: &Finding,
    planes: &[Outcome],
    out: &mut O,
) -> Result<(), Failed>
    requires { HasFound plan.now (with_goals plan.now (goal.now ∷ [])) planes.now finding.now }
    ensures { Sends (O.seen out.old) (O.seen out.new) (goal_lines plan.now goal.now) result }
{
    write_line(out, &[b"reading", b"goal", goal_word(goal)])?;
    write_reading(plan, finding, planes, out)
}

// Writes the reading of each of these goals.
fn write_goals<O: Sink>(
    plan: &Plan,
    goals: &[Goal],
    findings: &[Finding],
    tables: &[BatchPlanes],
    out: &mut O,
) -> Result<(), Failed>
    requires goals { goals.now ≡ several plan.now }
    requires tables { length tables.now ≡ 2 * length (several plan.now) + 2 }
    requires findings { AreFindings plan.now tables.now findings.now }
    ensures { Sends (O.seen out.old) (O.seen out.new) (flat_map (goal_lines plan.now) goals.now) result }
{
    for (g, goal) in goals.iter().enumerate() {
        let planes = planes_by(tables, 2 * g + 2);
        write_goal(plan, goal, &findings[g], planes, out)?;
    }
    Ok(())
}

// Writes all readings.
fn write_readings<O: Sink>(plan: &Plan, found: &Found, out: &mut O) -> Result<(), Failed>
    requires { AreFound plan.now found.now }
    ensures { Sends (O.seen out.old) (O.seen out.new) (whole_lines plan.now ++ flat_map (goal_lines plan.now) (several plan.now)) result }
{
    let tables = found.tables.as_slice();
    let findings = found.goals.as_slice();
    let goals = several_goals(plan);
    write_whole(plan, &found.whole, planes_by(tables, 0), out)?;
    write_goals(plan, goals, findings, tables, out)
}

// Writes the lines of the faults that nothing speaks for, in the reading of the plan itself.
fn write_unspoken_faults<O: Sink>(
    plan: &Plan,
    finding: &Finding,
    planes: &[Outcome],
    out: &mut O,
) -> Result<(), Failed>
    requires { HasFound plan.now plan.now planes.now finding.now }
    ensures { Sends (O.seen out.old) (O.seen out.new) (unspoken_lines plan.now) result }
{
    let evidence = finding.evidence.as_slice();
    write_names(plan, evidence, planes, out)
}

/// Writes the whole text, by what was found.
pub(crate) fn write_text<O: Sink>(plan: &Plan, found: &Found, out: &mut O) -> Result<(), Failed>
    requires { AreFound plan.now found.now }
    ensures { Sends (O.seen out.old) (O.seen out.new) (coverage plan.now) result }
{
    let tables = found.tables.as_slice();
    write_line(out, &[b"fmeda-coverage", b"1"])?;
    write_readings(plan, found, out)?;
    write_unspoken_faults(plan, &found.whole, planes_by(tables, 0), out)?;
    write_line(out, &[b"end"])
}
