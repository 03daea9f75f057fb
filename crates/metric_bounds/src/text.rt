// The text of `progress`.
ghost use Rattle.std.specs.Prelude.{◌≡◌, map};
ghost use Rattle.campaign_plan.specs.Analysis.{batch_count};
ghost use Rattle.campaign_plan.specs.Batches.{AreDistinct};
ghost use Rattle.result_file.specs.KeptRows.{entry_of};
ghost use Rattle.result_merge.specs.Tables.{planes_table};
ghost use Rattle.fm_shelf.specs.Sink.{Sends};
ghost use Rattle.metric_bounds.specs.Progress.{progress, AreAllConsistent};
ghost use Rattle.metric_bounds.specs.Steps.{bound_lines, ends_line, judged_lines, share_line, standing_line, standing_lines, term_line};

use crate::sums::{kept_sums, sums_at_ends};
use crate::words::{fraction_word, standing_word};
use crate::{EndSums, Ends, Standing};
use campaign_plan::Plan;
use fm_shelf::lines::{number_word, write_line};
use fm_shelf::shelf::{Failed, Sink};
use metric_sums::{Asil, Sums};
use result_file::Row;
use result_merge::PlanesTable;

// Writes a label and how much there is of how much.
fn write_part<O: Sink>(label: &[u8], part: u64, whole: u64, out: &mut O) -> Result<(), Failed>
    ensures { Sends (O.seen out.old) (O.seen out.new) (share_line label.now part whole) result }
{
    write_line(
        out,
        &[
            label,
            number_word(part).bytes(),
            b"of",
            number_word(whole).bytes(),
        ],
    )
}

// Writes how many rows there are, and the weights of their batches and of all.
fn write_judged<O: Sink>(
    rows: u64,
    batches: u64,
    judged: &Sums,
    all: &Sums,
    out: &mut O,
) -> Result<(), Failed>
    ensures { Sends (O.seen out.old) (O.seen out.new)
        (judged_lines rows batches judged.now all.now) result }
{
    write_part(b"rows", rows, batches, out)?;
    write_part(
        b"judged permanent",
        judged.permanent_all,
        all.permanent_all,
        out,
    )?;
    write_part(
        b"judged transient",
        judged.transient_all,
        all.transient_all,
        out,
    )
}

// Writes a label and both ends of a metric.
fn write_ends<O: Sink>(label: &[u8], ends: Ends, out: &mut O) -> Result<(), Failed>
    ensures { Sends (O.seen out.old) (O.seen out.new) (ends_line label.now ends) result }
{
    write_line(
        out,
        &[
            label,
            b"from",
            fraction_word(ends.least).bytes(),
            b"to",
            fraction_word(ends.greatest).bytes(),
        ],
    )
}

// Writes the ends of the term.
fn write_term<O: Sink>(least: u64, greatest: u64, out: &mut O) -> Result<(), Failed>
    ensures { Sends (O.seen out.old) (O.seen out.new) (term_line least greatest) result }
{
    write_line(
        out,
        &[
            b"term",
            b"from",
            number_word(least).bytes(),
            b"to",
            number_word(greatest).bytes(),
        ],
    )
}

// Writes the bounds of the metrics.
fn write_bounds<O: Sink>(sums: &EndSums, out: &mut O) -> Result<(), Failed>
    requires { AreAllConsistent sums.now }
    ensures { Sends (O.seen out.old) (O.seen out.new) (bound_lines sums.now) result }
{
    write_ends(b"spfm permanent", sums.spfm_permanent(), out)?;
    write_ends(b"spfm transient", sums.spfm_transient(), out)?;
    write_ends(b"lfm", sums.lfm(), out)?;
    write_term(sums.least_term(), sums.greatest_term(), out)
}

// Writes the name of a target and how it stands.
fn write_standing<O: Sink>(
    label: &[u8],
    standing: Option<Standing>,
    out: &mut O,
) -> Result<(), Failed>
    ensures { Sends (O.seen out.old) (O.seen out.new) (standing_line label.now standing) result }
{
    write_line(out, &[b"target", label, standing_word(&standing)])
}

// Writes how the targets of a level stand.
fn write_standings<O: Sink>(asil: Asil, sums: &EndSums, out: &mut O) -> Result<(), Failed>
    requires { AreAllConsistent sums.now }
    ensures { Sends (O.seen out.old) (O.seen out.new) (standing_lines asil sums.now) result }
{
    let spfm = asil.spfm_target();
    write_standing(b"spfm permanent", sums.spfm_permanent().standing(spfm), out)?;
    write_standing(b"spfm transient", sums.spfm_transient().standing(spfm), out)?;
    write_standing(b"lfm", sums.lfm().standing(asil.lfm_target()), out)?;
    write_standing(b"term", Some(sums.term_standing(asil)), out)
}

/// Writes how far a campaign is that has kept these rows, the bounds of its metrics, and how its targets stand. `table` has the
/// planes of the rows. It takes no memory, and the time of three reports.
pub fn write_progress<O: Sink>(
    plan: &Plan,
    rows: &[Row],
    table: &PlanesTable,
    out: &mut O,
) -> Result<(), Failed>
    requires distinct { AreDistinct plan.now (map entry_of rows.now) }
    requires table { table.now ≡ planes_table (batch_count plan.now) (map entry_of rows.now) }
    ensures { Sends (O.seen out.old) (O.seen out.new)
        (progress plan.now (map entry_of rows.now)) result }
{
    let batches = u64::from(plan.batches());
    let judged = kept_sums(plan, rows);
    let sums = sums_at_ends(plan, table);
    write_judged(rows.len() as u64, batches, &judged, &sums.best, out)?;
    write_bounds(&sums, out)?;
    write_standings(plan.settings().asil, &sums, out)
}
