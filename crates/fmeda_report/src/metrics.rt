// The lines of the sums, the metrics and the targets.
ghost use Rattle.std.specs.Prelude.{◌≡◌};
ghost use Rattle.metric_sums.specs.Totals.{AreConsistent};
ghost use Rattle.fmeda_report.specs.Report.{metric_lines};
ghost use Rattle.fmeda_report.specs.Steps.{ratio_lines, sum_lines, target_lines};
ghost use Rattle.fm_shelf.specs.Sink.{Sends};

use crate::words::{fraction_word, target_word};
use fm_shelf::lines::{number_word, write_line};
use fm_shelf::shelf::{Failed, Sink};
use metric_sums::{Asil, Sums, Targets};

// Writes the five sums.
fn write_sums<O: Sink>(sums: &Sums, out: &mut O) -> Result<(), Failed>
    ensures { Sends (O.seen out.old) (O.seen out.new) (sum_lines sums.now) result }
{
    write_line(
        out,
        &[
            b"permanent",
            b"all",
            number_word(sums.permanent_all).bytes(),
            b"danger",
            number_word(sums.permanent_danger).bytes(),
            b"latent",
            number_word(sums.latent).bytes(),
        ],
    )?;
    write_line(
        out,
        &[
            b"transient",
            b"all",
            number_word(sums.transient_all).bytes(),
            b"danger",
            number_word(sums.transient_danger).bytes(),
        ],
    )
}

// Writes the metrics.
fn write_ratios<O: Sink>(sums: &Sums, out: &mut O) -> Result<(), Failed>
    requires { AreConsistent sums.now }
    ensures { Sends (O.seen out.old) (O.seen out.new) (ratio_lines sums.now) result }
{
    let permanent = fraction_word(sums.spfm_permanent());
    write_line(out, &[b"spfm", b"permanent", permanent.bytes()])?;
    let transient = fraction_word(sums.spfm_transient());
    write_line(out, &[b"spfm", b"transient", transient.bytes()])?;
    write_line(out, &[b"lfm", fraction_word(sums.lfm()).bytes()])?;
    write_line(out, &[b"term", number_word(sums.term()).bytes()])
}

// Writes whether the targets are met.
fn write_targets<O: Sink>(targets: &Targets, out: &mut O) -> Result<(), Failed>
    ensures { Sends (O.seen out.old) (O.seen out.new) (target_lines targets.now) result }
{
    let permanent = target_word(targets.spfm_permanent);
    write_line(out, &[b"target", b"spfm", b"permanent", permanent])?;
    let transient = target_word(targets.spfm_transient);
    write_line(out, &[b"target", b"spfm", b"transient", transient])?;
    write_line(out, &[b"target", b"lfm", target_word(targets.lfm)])?;
    write_line(out, &[b"target", b"term", target_word(Some(targets.term))])
}

/// Writes the ten lines of the sums, the metrics and whether the targets of a level are met. It takes no memory.
pub fn write_metrics<O: Sink>(asil: Asil, sums: &Sums, out: &mut O) -> Result<(), Failed>
    requires { AreConsistent sums.now }
    ensures { Sends (O.seen out.old) (O.seen out.new) (metric_lines asil sums.now) result }
{
    write_sums(sums, out)?;
    write_ratios(sums, out)?;
    write_targets(&sums.targets(asil), out)
}
