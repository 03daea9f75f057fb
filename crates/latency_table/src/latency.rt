// What is kept of a fault while its runs are simulated.
ghost use Rattle.std.specs.Prelude.{◌≡◌};
ghost use Rattle.latency_table.specs.Latency.{first_of as first_sighting, latency_after};

use circuit::parts::NetId;
use first_cycles::late::longer;

/// A run, by its number from 0, and a cycle of it.
#[derive(Clone, Copy)]
pub struct Sighting {
    pub run: u32,
    pub cycle: u32,
}

/// What the runs so far show of a fault alone.
#[derive(Clone, Copy)]
pub struct Latency {
    /// Whether the fault is dangerous, with the intervals of the plan.
    pub dangerous: bool,
    /// Whether it is noticed.
    pub noticed: bool,
    /// When an observation point first differs, in a run of the mission.
    pub reached: Option<Sighting>,
    /// When an alarm is first raised.
    pub alarmed: Option<Sighting>,
    /// The first of the alarm points that are raised then.
    pub point: Option<NetId>,
    /// The least interval that would do for all goals, in cycles.
    pub interval: Option<u32>,
}

/// What one run shows of a fault alone.
#[derive(Clone, Copy)]
pub struct RunShows {
    /// Whether the first difference of some goal comes late.
    pub late: bool,
    /// Whether an alarm point gives notice.
    pub noticed: bool,
    /// The first cycle in which an observation point differs, in a run of the mission.
    pub reached: Option<u32>,
    /// The first cycle in which an alarm is raised.
    pub alarm: Option<u32>,
    /// The first of the alarm points that are raised then.
    pub point: Option<NetId>,
    /// The least interval that would do in this run, in cycles.
    pub interval: Option<u32>,
}

/// What is known before the first run.
pub(crate) const NOTHING: Latency = Latency {
    dangerous: false,
    noticed: false,
    reached: None,
    alarmed: None,
    point: None,
    interval: Some(0),
};

// The sighting of an earlier run, or that of this one.
fn first_of(before: Option<Sighting>, run: u32, cycle: Option<u32>) -> Option<Sighting>
    ensures { result ≡ first_sighting before run cycle }
{
    match (before, cycle) {
        (Some(sighting), _) => Some(sighting),
        (None, Some(cycle)) => Some(Sighting { run, cycle }),
        (None, None) => None,
    }
}

impl Latency {
    /// What is known once a run has shown this too.
    pub(crate) fn with_run(&self, run: u32, shows: &RunShows) -> Latency
        ensures { result ≡ latency_after self.now run shows.now }
    {
        Latency {
            dangerous: self.dangerous || shows.late,
            noticed: self.noticed || shows.noticed,
            reached: first_of(self.reached, run, shows.reached),
            alarmed: first_of(self.alarmed, run, shows.alarm),
            point: match self.alarmed {
                Some(_) => self.point,
                None => shows.point,
            },
            interval: longer(self.interval, shows.interval),
        }
    }
}
