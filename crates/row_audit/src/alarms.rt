// Alarms raised and silenced.

/// The lanes in which an alarm is raised, and those in which one is silenced.
#[derive(Clone, Copy)]
pub struct Alarms {
    pub raised: u64,
    pub silenced: u64,
}

/// No alarm in any lane.
pub const QUIET: Alarms = Alarms {
    raised: 0,
    silenced: 0,
};
