// The lines of each reading.
ghost use Rattle.std.specs.Prelude.{◌≡◌, ◌++◌, ◌∷◌, flat_map, codes, [], map};
ghost use Rattle.fm_base.specs.Text.{line};
ghost use Rattle.fm_shelf.specs.Sink.{Sends};
ghost use Rattle.metric_sums.specs.Totals.{AreConsistent};
ghost use Rattle.campaign_plan.specs.Kept.{IsPlan};
ghost use Rattle.readings.specs.Breakdown.{breakdown, goal_word as word_of_goal};
ghost use Rattle.reading_planes.specs.Readings.{AreReadingsOf, IsReadingOf, words_by, reading_list};
ghost use Rattle.metric_breakdown.specs.Text.{AreReadingSums, lines_by, reading_lines};

use alarm_points::Goal;
use campaign_plan::Plan;
use fm_shelf::lines::{number_word, write_line};
use fm_shelf::shelf::{Failed, Sink};
use fmeda_report::write_metrics;
use metric_sums::Sums;
use reading_planes::Reading;

// The name of a goal, or a dash.
fn goal_word(goal: &Goal) -> &[u8]
    ensures { result.now ≡ word_of_goal goal.now }
{
    let name = goal.name.as_slice();
    if name.is_empty() { b"-" } else { name }
}

// Writes the line of a reading.
fn write_reading<O: Sink>(plan: &Plan, reading: Reading, out: &mut O) -> Result<(), Failed>
    requires { IsReadingOf plan.now.points reading }
    ensures { Sends (O.seen out.old) (O.seen out.new) (line (codes "reading" ∷ words_by plan.now reading)) result }
{
    let points = plan.points();
    let goals = points.goals.as_slice();
    let alarms = points.alarm.as_slice();
    match reading {
        Reading::Whole => write_line(out, &[b"reading", b"all"]),
        Reading::Bare | Reading::BareGoal(_) => write_line(out, &[b"reading", b"bare"]),
        Reading::Goal(g) => write_line(out, &[b"reading", b"goal", goal_word(&goals[g as usize])]),
        Reading::Without(a) => {
            write_line(
                out,
                &[b"reading", b"without", plan.net().name(alarms[a as usize])],
            )
        }
        Reading::Only(a) => {
            write_line(
                out,
                &[b"reading", b"only", plan.net().name(alarms[a as usize])],
            )
        }
        Reading::Interval(cycles) => write_line(
            out,
            &[b"reading", b"ftti", number_word(u64::from(cycles)).bytes()],
        ),
    }
}

// Writes the line of a reading, and those of its sums, its metrics and its targets.
fn write_lines<O: Sink>(
    plan: &Plan,
    reading: Reading,
    sums: &Sums,
    out: &mut O,
) -> Result<(), Failed>
    requires reading { IsReadingOf plan.now.points reading }
    requires sums { AreConsistent sums.now }
    ensures { Sends (O.seen out.old) (O.seen out.new) (reading_lines plan.now reading sums.now) result }
{
    write_reading(plan, reading, out)?;
    write_metrics(plan.settings().asil, sums, out)
}

// Writes the lines of each reading.
fn write_readings<O: Sink>(
    plan: &Plan,
    readings: &[Reading],
    sums: &[Sums],
    out: &mut O,
) -> Result<(), Failed>
    requires plan { IsPlan plan.now }
    requires readings { AreReadingsOf plan.now.points readings.now }
    requires sums { AreReadingSums plan.now readings.now sums.now }
    ensures { Sends (O.seen out.old) (O.seen out.new) (flat_map (lines_by plan.now) readings.now) result }
{
    for (r, reading) in readings.iter().enumerate() {
        write_lines(plan, *reading, &sums[r], out)?;
    }
    Ok(())
}

/// Writes the lines of each reading, and the last line.
pub(crate) fn write_text<O: Sink>(
    plan: &Plan,
    readings: &[Reading],
    sums: &[Sums],
    out: &mut O,
) -> Result<(), Failed>
    requires plan { IsPlan plan.now }
    requires readings { AreReadingsOf plan.now.points readings.now }
    requires sums { AreReadingSums plan.now readings.now sums.now }
    ensures { Sends (O.seen out.old) (O.seen out.new) (flat_map (lines_by plan.now) readings.now ++ line (codes "end" ∷ [])) result }
{
    write_readings(plan, readings, sums, out)?;
    write_line(out, &[b"end"])
}
