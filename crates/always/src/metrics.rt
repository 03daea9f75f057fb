// The lines of the metrics.
ghost use Rattle.std.specs.Prelude.{◌≡◌, length, option_map};
ghost use Rattle.fm_shelf.specs.Sink.{Sends};
ghost use Rattle.campaign_plan.specs.Analysis.{fault_count};
ghost use Rattle.claim_laws.specs.Metrics.{open_sums as sums_where};
ghost use Rattle.metric_sums.specs.Metrics.{meets, spfm_target};
ghost use Rattle.metric_sums.specs.Totals.{AreConsistent};
ghost use Rattle.always.specs.Steps.{covers};
ghost use Rattle.always.specs.Text.{least_line, least_lines};
ghost use Rattle.always.specs.Verdict.{verdict_at};

use crate::sums::{Counting, open_sums};
use crate::words::standing_word;
use campaign_plan::Plan;
use claim_search::FaultAnswer;
use fm_shelf::lines::{number_word, write_line};
use fm_shelf::shelf::{Failed, Sink};
use metric_bounds::words::fraction_word;
use metric_sums::{Asil, Fraction, Sums};

// Whether the least value of a metric meets its target.
fn meets_target(asil: Asil, least: Option<Fraction>) -> Option<bool>
    ensures { result ≡ option_map (meets (spfm_target asil)) least }
{
    match least {
        None => None,
        Some(least) => Some(least.meets(asil.spfm_target())),
    }
}

// Writes how much a metric is at least.
fn write_least<O: Sink>(
    label: &[u8],
    since: u32,
    asil: Asil,
    least: Option<Fraction>,
    out: &mut O,
) -> Result<(), Failed>
    ensures { Sends (O.seen out.old) (O.seen out.new) (least_line label.now since (spfm_target asil) least) result }
{
    write_line(
        out,
        &[
            b"spfm",
            label,
            b"since",
            number_word(u64::from(since)).bytes(),
            b"at-least",
            fraction_word(least).bytes(),
            b"target",
            standing_word(&meets_target(asil, least)),
        ],
    )
}

// Writes the metrics of these sums.
fn write_both<O: Sink>(asil: Asil, since: u32, sums: &Sums, out: &mut O) -> Result<(), Failed>
    requires { AreConsistent sums.now }
    ensures { Sends (O.seen out.old) (O.seen out.new) (least_lines asil since sums.now) result }
{
    write_least(b"permanent", since, asil, sums.spfm_permanent(), out)?;
    write_least(b"transient", since, asil, sums.spfm_transient(), out)
}

/// Writes how much each metric is at least, where these differences count: those from cycle `since` on.
pub(crate) fn write_metrics<O: Sink>(
    plan: &Plan,
    from: u32,
    answers: &[FaultAnswer],
    counting: Counting,
    since: u32,
    out: &mut O,
) -> Result<(), Failed>
    requires answers { length answers.now ≡ fault_count plan.now }
    ensures { Sends (O.seen out.old) (O.seen out.new)
        (least_lines plan.now.settings.asil since (sums_where plan.now (λ i. covers counting (verdict_at plan.now from answers.now i)))) result }
{
    let sums = open_sums(plan, from, answers, counting);
    write_both(plan.settings().asil, since, &sums, out)
}
