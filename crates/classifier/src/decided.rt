// What is decided of lanes before a run.
ghost use Rattle.std.specs.Prelude.{◌≡◌, length};
ghost use Rattle.classifier.specs.OutOfReach.{AreAllDecidedBy, IsDecidedBy};

use crate::points::either_lanes;
use crate::reached::OutOfReach;
use campaign_plan::Outcome;

/// The lanes whose danger is decided before a run, and those whose notice is.
#[derive(Clone, Copy)]
pub struct Decided {
    pub danger: u64,
    pub notice: u64,
}

/// Nothing is decided in any lane.
pub const OPEN: Decided = Decided {
    danger: 0,
    notice: 0,
};

// What earlier runs have shown is decided, and what no run can show.
fn decided_by(outcome: Outcome, reach: OutOfReach) -> Decided
    ensures { IsDecidedBy outcome reach result }
{
    Decided {
        danger: either_lanes(outcome.danger, reach.observation),
        notice: either_lanes(outcome.noticed, reach.alarm),
    }
}

/// What is decided in each word, where earlier runs have shown `outcomes`.
pub fn decide(outcomes: &[Outcome], reach: &[OutOfReach], decided: &mut [Decided])
    requires reach { length reach.now ≡ length outcomes.now }
    requires decided { length decided.old ≡ length outcomes.now }
    ensures { AreAllDecidedBy outcomes.now reach.now decided.new }
{
    for word in 0..outcomes.len() {
        decided[word] = decided_by(outcomes[word], reach[word]);
    }
}
