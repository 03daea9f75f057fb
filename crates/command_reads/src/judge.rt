// What the files of a command stand for, or the first refusal.
ghost use Rattle.std.specs.Prelude.{◌≡◌, ◌≢◌, IfOk};
ghost use Rattle.campaign_plan.specs.Kept.{AreSettings};
ghost use Rattle.commands.specs.declared.command.Kind.TheVariants as kind;
ghost use Rattle.commands.specs.declared.command.Kind.TheVariants.{Reweighed as OfReweigh};
ghost use Rattle.command_reads.specs.declared.judge.Judged.TheVariants as made;
ghost use Rattle.command_reads.specs.Files.{AreShort, reads_by};
ghost use Rattle.command_reads.specs.Answers.{IsSound, PlansAs, generated_settings};
ghost use Rattle.command_reads.specs.Judging.{IsOfKind, JudgesAs};

use crate::begun::{Begun, judge_begun};
use crate::driven::{Driven, judge_driven};
use crate::files::Reads;
use crate::merged::{Merged, judge_merged};
use crate::observed::{Observed, judge_observed};
use crate::planned::{Planned, judge_plan};
use crate::rated::{Rated, judge_rated};
use crate::reweighed::{Reweighed, judge_reweighed};
use crate::supposed::{Supposed, judge_supposed};
use campaign_plan::Settings;
use commands::Kind;
use fm_base::Seq;
use metric_sums::Asil;
use refusals::refused::Refused;
use room::{NoRoom, from_array};
use std::alloc::Global;

/// What the files of a command stand for.
#[derive(Drop)]
pub enum Judged {
    Observed(Observed),
    Driven(Driven),
    Rated(Rated),
    Planned(Planned),
    Begun(Begun),
    Merged(Merged),
    Reweighed(Reweighed),
    Supposed(Supposed),
}

// The settings of the generated campaign: flips in cycle 1, and no pulses.
fn sample_settings(alloc: Global) -> Result<Settings, NoRoom>
    ensures { IfOk result (λ set. set ≡ generated_settings) }
{
    let flips = Seq::from_vec(from_array(alloc, [1])?);
    Ok(Settings {
        ftti: 0,
        flips,
        stretch: None,
        pulses: Seq::new(alloc),
        asil: Asil::D,
    })
}

// The plan of the generated texts.
fn generated_plan(alloc: Global, netlist: &str, reads: &Reads) -> Result<Planned, Refused>
    requires { AreShort (reads_by reads.now) }
    ensures plans { PlansAs netlist.now generated_settings (reads_by reads.now) result }
    ensures sound { IfOk result (IsSound (reads_by reads.now)) }
{
    let settings = sample_settings(alloc)?;
    judge_plan(alloc, netlist, settings, reads)
}

// What the files of a command of this kind stand for, which isn't `reweigh`'s.
fn judge_as_read(
    alloc: Global,
    netlist: &str,
    settings: Settings,
    reads: &Reads,
    kind: Kind,
) -> Result<Judged, Refused>
    requires settings { AreSettings settings }
    requires short { AreShort (reads_by reads.now) }
    requires other { kind ≢ OfReweigh }
    ensures { JudgesAs netlist.now settings (reads_by reads.now) kind result }
{
    match kind {
        Kind::Observed => Ok(Judged::Observed(judge_observed(alloc, netlist, reads)?)),
        Kind::Driven => Ok(Judged::Driven(judge_driven(alloc, netlist, settings, reads)?)),
        Kind::Rated => Ok(Judged::Rated(judge_rated(alloc, netlist, reads)?)),
        Kind::Planned => Ok(Judged::Planned(judge_plan(alloc, netlist, settings, reads)?)),
        Kind::Begun => Ok(Judged::Begun(judge_begun(alloc, netlist, settings, reads)?)),
        Kind::Merged => Ok(Judged::Merged(judge_merged(alloc, netlist, settings, reads)?)),
        Kind::Supposed => Ok(Judged::Supposed(judge_supposed(alloc, netlist, settings, reads)?)),
        Kind::Generated(_) => Ok(Judged::Planned(generated_plan(alloc, netlist, reads)?)),
        Kind::Reweighed => unreachable!(),
    }
}

/// What the files of a command of this kind stand for, the netlist's of this name, or the first refusal in the order of the checks. The
/// generated campaign has settings of its own.
pub fn judge(
    alloc: Global,
    netlist: &str,
    settings: Settings,
    reads: Reads,
    kind: Kind,
) -> Result<Judged, Refused>
    requires settings { AreSettings settings }
    requires short { AreShort (reads_by reads) }
    ensures { JudgesAs netlist.now settings (reads_by reads) kind result }
{
    match kind {
        Kind::Reweighed => Ok(Judged::Reweighed(judge_reweighed(alloc, netlist, settings, reads)?)),
        _ => judge_as_read(alloc, netlist, settings, &reads, kind),
    }
}

impl Judged {
    /// What `classes` works on.
    pub fn observed(&self) -> &Observed
        requires { IsOfKind kind.Observed self.now }
        ensures { self.now ≡ made.Observed result.now }
    {
        match self {
            Judged::Observed(observed) => observed,
            _ => unreachable!(),
        }
    }

    /// What `trace` works on.
    pub fn driven(&self) -> &Driven
        requires { IsOfKind kind.Driven self.now }
        ensures { self.now ≡ made.Driven result.now }
    {
        match self {
            Judged::Driven(driven) => driven,
            _ => unreachable!(),
        }
    }

    /// What `parts` works on.
    pub fn rated(&self) -> &Rated
        requires { IsOfKind kind.Rated self.now }
        ensures { self.now ≡ made.Rated result.now }
    {
        match self {
            Judged::Rated(rated) => rated,
            _ => unreachable!(),
        }
    }

    /// The plan of commands that read four files, or none.
    pub fn planned(&self) -> &Planned
        requires { IsOfKind kind.Planned self.now }
        ensures { self.now ≡ made.Planned result.now }
    {
        match self {
            Judged::Planned(planned) => planned,
            _ => unreachable!(),
        }
    }

    /// The plan, and what is kept of its result file.
    pub fn begun(&self) -> &Begun
        requires { IsOfKind kind.Begun self.now }
        ensures { self.now ≡ made.Begun result.now }
    {
        match self {
            Judged::Begun(begun) => begun,
            _ => unreachable!(),
        }
    }

    /// The same, whole.
    pub fn into_begun(self) -> Begun
        requires { IsOfKind kind.Begun self }
        ensures { self ≡ made.Begun result }
    {
        match self {
            Judged::Begun(begun) => begun,
            _ => unreachable!(),
        }
    }

    /// The plan, and two of its result files.
    pub fn merged(&self) -> &Merged
        requires { IsOfKind kind.Merged self.now }
        ensures { self.now ≡ made.Merged result.now }
    {
        match self {
            Judged::Merged(merged) => merged,
            _ => unreachable!(),
        }
    }

    /// A plan with other rates, and rows by its weights.
    pub fn reweighed(&self) -> &Reweighed
        requires { IsOfKind kind.Reweighed self.now }
        ensures { self.now ≡ made.Reweighed result.now }
    {
        match self {
            Judged::Reweighed(reweighed) => reweighed,
            _ => unreachable!(),
        }
    }

    /// A plan without runs, and its held inputs.
    pub fn supposed(&self) -> &Supposed
        requires { IsOfKind kind.Supposed self.now }
        ensures { self.now ≡ made.Supposed result.now }
    {
        match self {
            Judged::Supposed(supposed) => supposed,
            _ => unreachable!(),
        }
    }
}
