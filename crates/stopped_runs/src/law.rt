// Laws of campaigns that are stopped, for those who stop them. They compute nothing.
ghost use Rattle.stopped_runs.specs.Laws.{LeftIsTaken, LeftIsTrue, NoneIsFalse, PlansAreOne, StoppedAreResumed, StopsLeave, UndisturbedReport};

use campaign_run::law::stopped_are_taken_up;

/// The laws of a campaign whose calls are stopped at any moment, a `run` and then any number of `resume`s: RESULT is as it was before, or a
/// byte prefix of a result file of true rows, which isn't refused; and a `resume` that then ends by itself writes the report that the `run`,
/// undisturbed, would have. What RESULT held before is no matter where no false row would be kept of it.
pub fn stopped_are_resumed()
    ensures left { StopsLeave }
    ensures resumed { StoppedAreResumed }
    ensures undisturbed { UndisturbedReport }
    ensures one { PlansAreOne }
    ensures none { NoneIsFalse }
    ensures truly { LeftIsTrue }
    ensures taken { LeftIsTaken }
{
    stopped_are_taken_up();
}
