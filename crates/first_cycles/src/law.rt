// Laws of first cycles, for contracts. They compute nothing.
ghost use Rattle.first_cycles.specs.FirstCycles.{DangerIsByFirstCycles, FirstCyclesDecide, MayLeaveDecided};
ghost use Rattle.first_cycles.specs.Laws.{DangerIsShown, NoticeIsIdle, NoticeIsShown, PlanesAreShown};

/// Whether a difference goes without an alarm is decided by the first cycle that differs and the first cycle with an alarm, for
/// every interval; and so is danger of a run for a goal, for every list of alarm points, by the earliest of their first alarms.
pub fn first_cycles_decide()
    ensures decide { FirstCyclesDecide }
    ensures danger { DangerIsByFirstCycles }
{}

/// A lane may leave a run once what is seen of it decides; and whether a fault is noticed counts in no sum but for permanent faults
/// of mechanisms that aren't dangerous.
pub fn decided_lanes_may_leave()
    ensures decided { MayLeaveDecided }
    ensures idle { NoticeIsIdle }
{}

/// What the runs of a plan show of each fault gives danger and notice for any points and interval, and so the planes of the plan.
pub fn shown_runs_decide()
    ensures danger { DangerIsShown }
    ensures notice { NoticeIsShown }
    ensures planes { PlanesAreShown }
{}
