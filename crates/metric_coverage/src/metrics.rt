// The lines of the metrics: as they were found, and between which values they lie where some faults are free.
ghost use Rattle.std.specs.Prelude.{◌≡◌, ◌≤◌, length};
ghost use Rattle.fm_shelf.specs.Sink.{Sends};
ghost use Rattle.metric_sums.specs.Totals.{AreConsistent};
ghost use Rattle.campaign_plan.specs.Analysis.{batch_count, fault_count};
ghost use Rattle.campaign_plan.specs.Batches.{class_of_fault as class_by_planes};
ghost use Rattle.fmeda_report.specs.Report.{all_sums};
ghost use Rattle.fmeda_report.specs.Tallies.{planes_in_order};
ghost use Rattle.fmeda_report.specs.Words.{target_word as word_of_target};
ghost use Rattle.metric_bounds.specs.Progress.{AreAllConsistent};
ghost use Rattle.metric_bounds.specs.Steps.{standing_word as word_of_standing};
ghost use Rattle.coverage.specs.Coverage.{found_lines as lines_of_found, free_lines};
ghost use Rattle.metric_coverage.specs.Freed.{evidence_at, free_by};
ghost use Rattle.metric_coverage.specs.Text.{amount_line, bound_line, found_by, found_line, free_by_lines, ratio_line, term_line};

use crate::amount::{Amount, free_amount};
use crate::free::{FreeFaults, found_sums, free_sums};
use campaign_plan::{Outcome, Plan};
use coverage::Evidence;
use fm_shelf::lines::{number_word, write_line};
use fm_shelf::shelf::{Failed, Sink};
use metric_bounds::words::{fraction_word, standing_word};
use metric_bounds::{EndSums, Ends, Standing};
use metric_sums::{Asil, Sums};

// Whether a target is met, where there is a fraction.
fn target_word(met: &Option<bool>) -> &[u8]
    ensures { result.now ≡ word_of_target met.now }
{
    match *met {
        None => b"-",
        Some(true) => b"met",
        Some(false) => b"missed",
    }
}

// Writes a metric as it was found, and whether it meets its target.
fn write_metric<O: Sink>(
    label: &[u8],
    value: &[u8],
    met: Option<bool>,
    out: &mut O,
) -> Result<(), Failed>
    ensures { Sends (O.seen out.old) (O.seen out.new) (found_line label.now value.now met) result }
{
    write_line(out, &[b"found", label, value, b"target", target_word(&met)])
}

// Writes the metrics of these sums.
fn write_found<O: Sink>(asil: Asil, sums: &Sums, out: &mut O) -> Result<(), Failed>
    requires { AreConsistent sums.now }
    ensures { Sends (O.seen out.old) (O.seen out.new) (found_by asil sums.now) result }
{
    let targets = sums.targets(asil);
    let permanent = fraction_word(sums.spfm_permanent());
    write_metric(
        b"spfm permanent",
        permanent.bytes(),
        targets.spfm_permanent,
        out,
    )?;
    let transient = fraction_word(sums.spfm_transient());
    write_metric(
        b"spfm transient",
        transient.bytes(),
        targets.spfm_transient,
        out,
    )?;
    let latent = fraction_word(sums.lfm());
    write_metric(b"lfm", latent.bytes(), targets.lfm, out)?;
    write_metric(
        b"term",
        number_word(sums.term()).bytes(),
        Some(targets.term),
        out,
    )
}

/// Writes the metrics of a reading as they were found, and whether they meet their targets.
pub(crate) fn write_found_lines<O: Sink>(
    plan: &Plan,
    evidence: &[Evidence],
    planes: &[Outcome],
    out: &mut O,
) -> Result<(), Failed>
    requires evidence { length evidence.now ≡ fault_count plan.now }
    requires planes { length planes.now ≡ batch_count plan.now }
    ensures { Sends (O.seen out.old) (O.seen out.new) (lines_of_found plan.now (all_sums plan.now (planes_in_order planes.now))) result }
{
    let sums = found_sums(plan, evidence, planes);
    write_found(plan.settings().asil, &sums, out)
}

// Writes how many faults are free, and what they weigh.
fn write_amount<O: Sink>(word: &[u8], amount: &Amount, out: &mut O) -> Result<(), Failed>
    ensures { Sends (O.seen out.old) (O.seen out.new) (amount_line word.now amount.now) result }
{
    write_line(
        out,
        &[
            word,
            b"faults",
            number_word(u64::from(amount.faults)).bytes(),
            b"permanent",
            number_word(amount.permanent).bytes(),
            b"transient",
            number_word(amount.transient).bytes(),
        ],
    )
}

// Writes between which values a metric lies, and how its target stands.
fn write_bounds<'a, O: Sink>(
    word: &'a [u8],
    label: &'a [u8],
    from: &'a [u8],
    to: &'a [u8],
    standing: Option<Standing>,
    out: &mut O,
) -> Result<(), Failed>
    ensures { Sends (O.seen out.old) (O.seen out.new) (bound_line word.now label.now from.now to.now (word_of_standing standing)) result }
{
    write_line(
        out,
        &[
            word,
            label,
            b"from",
            from,
            b"to",
            to,
            b"target",
            standing_word(&standing),
        ],
    )
}

// The same of a metric that is a fraction, whose target is a percentage.
fn write_ratio<O: Sink>(
    word: &[u8],
    label: &[u8],
    percent: u64,
    ends: Ends,
    out: &mut O,
) -> Result<(), Failed>
    requires { percent ≤ 100 }
    ensures { Sends (O.seen out.old) (O.seen out.new) (ratio_line word.now label.now percent ends) result }
{
    let least = fraction_word(ends.least);
    let greatest = fraction_word(ends.greatest);
    write_bounds(
        word,
        label,
        least.bytes(),
        greatest.bytes(),
        ends.standing(percent),
        out,
    )
}

// The same of the single-point and residual term.
fn write_term<O: Sink>(word: &[u8], asil: Asil, sums: &EndSums, out: &mut O) -> Result<(), Failed>
    requires { AreAllConsistent sums.now }
    ensures { Sends (O.seen out.old) (O.seen out.new) (term_line word.now asil sums.now) result }
{
    let least = number_word(sums.least_term());
    let greatest = number_word(sums.greatest_term());
    let standing = sums.term_standing(asil);
    write_bounds(
        word,
        b"term",
        least.bytes(),
        greatest.bytes(),
        Some(standing),
        out,
    )
}

// Writes the lines of free faults of this amount, with these sums at the ends.
fn write_free<O: Sink>(
    word: &[u8],
    asil: Asil,
    amount: &Amount,
    sums: &EndSums,
    out: &mut O,
) -> Result<(), Failed>
    requires { AreAllConsistent sums.now }
    ensures { Sends (O.seen out.old) (O.seen out.new) (free_by_lines word.now asil amount.now sums.now) result }
{
    let spfm = asil.spfm_target();
    write_amount(word, amount, out)?;
    write_ratio(word, b"spfm permanent", spfm, sums.spfm_permanent(), out)?;
    write_ratio(word, b"spfm transient", spfm, sums.spfm_transient(), out)?;
    write_ratio(word, b"lfm", asil.lfm_target(), sums.lfm(), out)?;
    write_term(word, asil, sums, out)
}

/// Writes how many faults of a reading are free, what they weigh, and between which values each metric lies whatever they truly are.
pub(crate) fn write_free_lines<O: Sink>(
    plan: &Plan,
    word: &[u8],
    free: FreeFaults,
    evidence: &[Evidence],
    planes: &[Outcome],
    out: &mut O,
) -> Result<(), Failed>
    requires evidence { length evidence.now ≡ fault_count plan.now }
    requires planes { length planes.now ≡ batch_count plan.now }
    ensures { Sends (O.seen out.old) (O.seen out.new)
        (free_lines plan.now word.now (free_by free (evidence_at evidence.now) (class_by_planes plan.now (planes_in_order planes.now))) (class_by_planes plan.now (planes_in_order planes.now))) result }
{
    let amount = free_amount(plan, free, evidence, planes);
    let sums = free_sums(plan, free, evidence, planes);
    write_free(word, plan.settings().asil, &amount, &sums, out)
}
