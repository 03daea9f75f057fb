// The lines of the faults by name.
ghost use Rattle.std.specs.Prelude.{◌≡◌, ◌<◌, ◌∷◌, [], decimal, flat_map, length};
ghost use Rattle.fm_base.specs.Lists.{below};
ghost use Rattle.fm_base.specs.Text.{line};
ghost use Rattle.fm_shelf.specs.Sink.{Sends};
ghost use Rattle.fault_list.specs.Faults.{fault_name};
ghost use Rattle.campaign_plan.specs.Analysis.{fault_count, fault_numbered};
ghost use Rattle.campaign_plan.specs.Weights.{weight};
ghost use Rattle.always.specs.Steps.{is_counted as is_counted_by, is_named as is_named_by};
ghost use Rattle.always.specs.Text.{named_line};
ghost use Rattle.always.specs.Verdict.{is_verdict as is_verdict_of, verdict_at};

use crate::verdict::{Verdict, verdict_of};
use campaign_plan::Plan;
use claim_search::FaultAnswer;
use fm_shelf::lines::number_word;
use fm_shelf::shelf::{Failed, Sink};
use fm_shelf::whole::write_pieces;
use metric_sums::Role;

// Writes a word, the name and the weight of fault `i`.
fn write_named<O: Sink>(plan: &Plan, word: &[u8], i: u32, out: &mut O) -> Result<(), Failed>
    requires { i < fault_count plan.now }
    ensures { Sends (O.seen out.old) (O.seen out.new)
        (line (word.now ∷ fault_name plan.now.circuit (fault_numbered plan.now i) ∷ decimal (weight plan.now i) ∷ [])) result }
{
    write_pieces(out, &[word, b" "])?;
    plan.faults().write_name(plan.net(), i, out)?;
    write_pieces(out, &[b" ", number_word(plan.weight(i)).bytes(), b"\n"])
}

// Whether two verdicts are the same.
fn is_verdict(stands: Verdict, kind: Verdict) -> bool
    ensures { result ≡ is_verdict_of stands kind }
{
    match kind {
        Verdict::NoPath => stands == Verdict::NoPath,
        Verdict::Alarmed => stands == Verdict::Alarmed,
        Verdict::Early => stands == Verdict::Early,
        Verdict::Open => stands == Verdict::Open,
    }
}

// Whether the metrics count a fault.
fn is_counted(plan: &Plan, i: u32) -> bool
    requires { i < fault_count plan.now }
    ensures { result ≡ is_counted_by plan.now i }
{
    plan.part(plan.part_of_fault(i)).role != Role::Other
}

// Whether fault `i`, which stands so, has a line among those that stand in one way.
fn is_named(plan: &Plan, stands: Verdict, kind: Verdict, i: u32) -> bool
    requires { i < fault_count plan.now }
    ensures { result ≡ is_named_by plan.now stands kind i }
{
    is_verdict(stands, kind) && is_counted(plan, i)
}

// Writes the line of fault `i`, if it has one.
fn write_if_named<O: Sink>(
    plan: &Plan,
    from: u32,
    answers: &[FaultAnswer],
    kind: Verdict,
    word: &[u8],
    i: u32,
    out: &mut O,
) -> Result<(), Failed>
    requires fault { i < fault_count plan.now }
    requires answers { length answers.now ≡ fault_count plan.now }
    ensures { Sends (O.seen out.old) (O.seen out.new) (named_line plan.now (verdict_at plan.now from answers.now) kind word.now i) result }
{
    let stands = verdict_of(plan, from, answers, i);
    if is_named(plan, stands, kind, i) {
        write_named(plan, word, i, out)
    } else {
        Ok(())
    }
}

/// Writes the lines of the faults that stand in one way, in list order.
pub(crate) fn write_names<O: Sink>(
    plan: &Plan,
    from: u32,
    answers: &[FaultAnswer],
    kind: Verdict,
    word: &[u8],
    out: &mut O,
) -> Result<(), Failed>
    requires answers { length answers.now ≡ fault_count plan.now }
    ensures { Sends (O.seen out.old) (O.seen out.new)
        (flat_map (named_line plan.now (verdict_at plan.now from answers.now) kind word.now) (below (fault_count plan.now))) result }
{
    for i in 0..plan.faults().len() {
        write_if_named(plan, from, answers, kind, word, i, out)?;
    }
    Ok(())
}
