// Laws of readings, for contracts. They compute nothing.
ghost use Rattle.readings.specs.Laws.{AllSightingsAreShown, BreakdownIsShown, FlipIsExcited, IntervalIsShown, PulseIsExcited, StuckAtIsExcited, TableIsShown};
ghost use Rattle.readings.specs.PointsRows.{AlarmRowsGiveThem, GoalRowsGiveIt};

/// What the runs of a plan show of each fault gives the text of each reading, the interval that would do, and when a fault is
/// reached and when its first alarm comes.
pub fn one_simulation_gives_all()
    ensures text { BreakdownIsShown }
    ensures interval { IntervalIsShown }
    ensures table { TableIsShown }
    ensures sightings { AllSightingsAreShown }
{}

/// A stuck-at fault is excited where the golden run has the other value of its net.
pub fn stuck_at_is_excited()
    ensures { StuckAtIsExcited }
{}

/// A flip and a pulse are excited where some run has their cycle.
pub fn transients_are_excited()
    ensures flip { FlipIsExcited }
    ensures pulse { PulseIsExcited }
{}

/// A points file with a goal's rows alone beside those of the alarm points gives this goal alone, and one with the rows of some alarm
/// points beside those of the goals gives these alarm points.
pub fn rows_give_readings()
    ensures goal { GoalRowsGiveIt }
    ensures alarms { AlarmRowsGiveThem }
{}
