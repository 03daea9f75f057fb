// Laws of the list of readings, for contracts. They compute nothing.
ghost use Rattle.reading_planes.specs.Readings.{ListGivesReadings, ListIsSound, PairsAreSound, PairsGivePlans};

/// The list of readings is of readings of the points, and they are those of `breakdown`, with their words and plans, in its order.
pub fn list_gives_readings()
    ensures sound { ListIsSound }
    ensures readings { ListGivesReadings }
{}

/// So is the list of coverage, and its plans are those of each reading, with the alarm points and without any.
pub fn pairs_give_plans()
    ensures sound { PairsAreSound }
    ensures plans { PairsGivePlans }
{}
