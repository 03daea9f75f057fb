// Laws of the text, for readers of it. They compute nothing.
ghost use Rattle.always.specs.Asked.{AskedTermsFit};
ghost use Rattle.always.specs.Laws.{AlarmedIsHarmless, EarlyIsHarmless, NoPathIsHarmless, PrintedLaterSpfmHolds, PrintedSpfmHolds, TextIsOfNoRuns, WholePartIsCovered};

use claim_laws::{alarms_come, faults_lie_within, metric_is_at_least, unreached_is_not_dangerous};

/// A fault that stands as `no-path` is dangerous in no runs, one that stands as `alarmed` in none that are as supposed, but by a difference in
/// the last cycles of one, and one that stands as `early` also by one before the first cycle.
pub fn faults_are_harmless()
    ensures no_path { NoPathIsHarmless }
    ensures alarmed { AlarmedIsHarmless }
    ensures early { EarlyIsHarmless }
{
    alarms_come();
    unreached_is_not_dangerous();
    faults_lie_within();
}

/// Whatever goes wrong at once in the nets of a part that stands whole, but for those that are open alone, an alarm comes in its window.
pub fn whole_parts_are_covered()
    ensures { WholePartIsCovered }
{
    alarms_come();
    faults_lie_within();
}

/// Each plan with runs that are as supposed has a single-point fault metric of at least what is printed, in its report too.
pub fn printed_spfm_holds()
    ensures spfm { PrintedSpfmHolds }
    ensures later { PrintedLaterSpfmHolds }
{
    faults_are_harmless();
    metric_is_at_least();
}

/// The text is the same whatever the runs of the plan.
pub fn text_is_of_no_runs()
    ensures { TextIsOfNoRuns }
{}

/// What is asked of a plan and isn't refused fits it, whichever inputs are held.
pub fn asked_terms_fit()
    ensures { AskedTermsFit }
{}
