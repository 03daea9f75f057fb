// Laws of claims on every workload. They compute nothing.
ghost use Rattle.claim_laws.specs.Laws.{AlarmsCome, AtOnceIsNotDangerous, DangerIsLast, DangerIsLeftOpen, FaultsLieWithin, LaterDangerIsLast, MarkedLieWithin, OneFaultLiesWithin, UnreachedIsNotDangerous};
ghost use Rattle.claim_laws.specs.Metrics.{ClaimsBoundSums, SpfmIsAtLeast, SumsAreAtMost};

use campaign_plan::faults_are_alone;

/// Where a claim is proved, an alarm comes in each admitted run in which an observation point differs, whatever the faults of the region.
/// So these faults are dangerous only by a difference before the claim's first cycle or in the last cycles of a run.
pub fn alarms_come()
    ensures alarms { AlarmsCome }
    ensures danger { DangerIsLeftOpen }
    ensures last { DangerIsLast }
    ensures later { LaterDangerIsLast }
    ensures at_once { AtOnceIsNotDangerous }
{}

/// Faults that no path leads from to an observation point are dangerous in no runs.
pub fn unreached_is_not_dangerous()
    ensures { UnreachedIsNotDangerous }
{}

/// A fault alone lies within its own region, and all faults on some nets, together too, within the region in which anything is done there.
pub fn faults_lie_within()
    ensures one { OneFaultLiesWithin }
    ensures some { FaultsLieWithin }
    ensures marked { MarkedLieWithin }
{}

/// The single-point fault metric of every plan in which the proved faults aren't dangerous is at least that of the sums in which
/// all other faults are, and it meets each target that this one meets.
pub fn metric_is_at_least()
    ensures sums { SumsAreAtMost }
    ensures claims { ClaimsBoundSums }
    ensures metric { SpfmIsAtLeast }
{
    faults_are_alone();
}
