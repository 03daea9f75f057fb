// Alarms raised and silenced.

/// The lanes in which an alarm is raised, and those in which one is silenced.
#[derive(Clone, Copy)]
pub struct Noise {
    pub raised: u64,
    pub silenced: u64,
}

/// No alarm in any lane.
pub const SILENT: Noise = Noise {
    raised: 0,
    silenced: 0,
};

/// The same of all lanes of some words at once.
#[derive(Clone, Copy)]
pub struct Heard<W> {
    pub raised: W,
    pub silenced: W,
}
