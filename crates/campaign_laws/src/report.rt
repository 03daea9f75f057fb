// Laws that readers of a report lean on, for contracts and for readers. They compute nothing.
ghost use Rattle.campaign_laws.specs.Bounds.{PrintedBoundsHold};
ghost use Rattle.campaign_laws.specs.Counts.{CountsAddUp};
ghost use Rattle.campaign_laws.specs.Danger.{LongerIntervalIsLessDangerous, LongerTakesDanger, MoreAlarmsAreLessDangerous, MoreAlarmsDetect};
ghost use Rattle.campaign_laws.specs.Headers.{DigestIsOfText, HeadersTell};
ghost use Rattle.campaign_laws.specs.Named.{NamedWeightsAddUp};
ghost use Rattle.campaign_laws.specs.Parts.{MergedPartsReport};
ghost use Rattle.campaign_laws.specs.Targets.{PrintedVerdictsStay};

use campaign_plan::faults_are_alone;
use campaign_run::law::stopped_are_taken_up;
use fmeda_report::rows_report_truly;
use metric_bounds::{bounds_hold, targets_stand};
use result_merge::merges_are_lawful;

/// The six counts of a part's line add up to the part's faults, and the faults of all parts to those of the plan.
pub fn counts_add_up()
    ensures { CountsAddUp }
{}

/// The weights of the residual and single-point lines add up to `danger`, those of stuck-at faults to that of permanent faults and
/// those of flips and pulses to that of transient ones; the weights of the latent lines add up to `latent`.
pub fn named_weights_add_up()
    ensures { NamedWeightsAddUp }
{
    faults_are_alone();
}

/// The two numbers that `progress` prints for a metric hold the one that `report` prints, whatever the missing batches give, and
/// the one that `resume` prints of the same file.
pub fn printed_bounds_hold()
    ensures { PrintedBoundsHold }
{
    bounds_hold();
}

/// What `progress` says of a target that is met or missed stays so as rows come, and in the report; but the latent fault metric may
/// lose its value, where all permanent faults that count turn out to be dangerous, and its target is then `-`.
pub fn printed_verdicts_stay()
    ensures { PrintedVerdictsStay }
{
    faults_are_alone();
    bounds_hold();
    targets_stand();
}

/// As the interval grows danger can only go away: a fault keeps its class, or it was residual or single-point and isn't any more,
/// and the sums of danger can only fall.
pub fn longer_intervals_are_less_dangerous()
    ensures faults { LongerTakesDanger }
    ensures classes { LongerIntervalIsLessDangerous }
{
    faults_are_alone();
}

/// More alarm points can only take danger away and give notice: a fault keeps its class, or it is detected.
pub fn more_alarms_are_less_dangerous()
    ensures faults { MoreAlarmsAreLessDangerous }
    ensures classes { MoreAlarmsDetect }
{}

/// All parts of a campaign, merged two by two in any order and any tree, give a file whose report is that of `run`, for every
/// number of parts.
pub fn merged_parts_report()
    ensures { MergedPartsReport }
{
    merges_are_lawful();
    stopped_are_taken_up();
    rows_report_truly();
}

/// Two campaigns with one header have the same interval, flips, pulses and files, or two byte lists with one SHA-256 digest are in
/// hand.
pub fn headers_tell()
    ensures digest { DigestIsOfText }
    ensures same { HeadersTell }
{}
