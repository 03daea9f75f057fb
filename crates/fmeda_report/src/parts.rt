// The lines of the parts.
ghost use Rattle.std.specs.Prelude.{◌≡◌, ◌<◌, ℕ, flat_map, length};
ghost use Rattle.fm_base.specs.Lists.{below};
ghost use Rattle.campaign_plan.specs.Analysis.{part_count};
ghost use Rattle.fmeda_report.specs.Report.{part_line};
ghost use Rattle.result_file.specs.RowPlanes.{Planes};
ghost use Rattle.fmeda_report.specs.Steps.{faults_of_part};
ghost use Rattle.fmeda_report.specs.Words.{covering_word as word_of_covering};
ghost use Rattle.metric_sums.specs.Words.{role_word as word_of_role};
ghost use Rattle.fm_shelf.specs.Sink.{Sends};
ghost use Rattle.fmeda_report.specs.Tallies.{tally_at, tally_of, AreAmountsSmall, AreTallied};

use crate::tally::Tally;
use crate::words::{covering_word, fraction_word};
use campaign_plan::Plan;
use fm_shelf::lines::{number_word, write_line};
use fm_shelf::shelf::{Failed, Sink};
use metric_sums::words::role_word;
use rate_table::Part;

// The word of a part's role.
fn role_of(part: &Part) -> &[u8]
    ensures { result.now ≡ word_of_role part.now.role }
{
    role_word(part.role)
}

// Whether a part is covered.
fn covering_of(part: &Part) -> &[u8]
    ensures { result.now ≡ word_of_covering part.now.covered }
{
    covering_word(part.covered)
}

// Writes the line of a part with this tally of its faults.
fn write_part<O: Sink>(plan: &Plan, number: u32, tally: &Tally, out: &mut O) -> Result<(), Failed>
    requires part { number < part_count plan.now }
    requires small { AreAmountsSmall tally.now }
    ensures { (planes : Planes) → tally.now ≡ tally_of plan.now planes (faults_of_part plan.now number)
        → Sends (O.seen out.old) (O.seen out.new) (part_line plan.now planes number) result }
{
    let part = plan.part(number);
    write_line(
        out,
        &[
            b"part",
            part.name.as_slice(),
            role_of(part),
            covering_of(part),
            b"permanent",
            number_word(part.permanent).bytes(),
            b"transient",
            number_word(part.transient).bytes(),
            b"faults",
            number_word(u64::from(tally.all.faults)).bytes(),
            b"safe",
            number_word(u64::from(tally.safe.faults)).bytes(),
            b"detected",
            number_word(u64::from(tally.detected.faults)).bytes(),
            b"residual",
            number_word(u64::from(tally.residual.faults)).bytes(),
            b"single-point",
            number_word(u64::from(tally.single_point.faults)).bytes(),
            b"latent",
            number_word(u64::from(tally.latent.faults)).bytes(),
            b"outside",
            number_word(u64::from(tally.outside.faults)).bytes(),
            b"coverage",
            fraction_word(tally.coverage()).bytes(),
        ],
    )
}

// Writes a line for each part, in order of first row.
pub(crate) fn write_parts<O: Sink>(
    plan: &Plan,
    tallies: &[Tally],
    out: &mut O,
) -> Result<(), Failed>
    requires parts { length tallies.now ≡ part_count plan.now }
    requires small { (k : ℕ) → k < part_count plan.now → AreAmountsSmall (tally_at tallies.now k) }
    ensures { (planes : Planes) → AreTallied plan.now planes tallies.now
        → Sends (O.seen out.old) (O.seen out.new)
        (flat_map (part_line plan.now planes) (below (part_count plan.now))) result }
{
    for number in 0..plan.parts() {
        write_part(plan, number, &tallies[number as usize], out)?;
    }
    Ok(())
}
