// The planes of a word of lanes by each reading.
ghost use Rattle.std.specs.Prelude.{◌≡◌, ◌<◌, ℕ, IfOk, length};
ghost use Rattle.classifier.specs.Planes.{outcome_at};

use campaign_plan::Outcome;
use room::{NoRoom, push};
use std::alloc::Global;
use std::marker::Model;

const NOTHING: Outcome = Outcome {
    danger: 0,
    noticed: 0,
};

/// The planes of danger and of notice of 64 lanes by each reading. No call but `new` takes memory.
#[derive(Drop)]
pub struct ReadingPlanes {
    pub(crate) outcomes: Vec<Outcome>,
}

impl Model for ReadingPlanes {
    ghost use Rattle.std.specs.Prelude.{List};
    ghost use Rattle.campaign_plan.specs.declared.Outcome.{Outcome};

    ghost Value = { List Outcome };

    ghost view = { λ p. p.outcomes.items };
}

// No lane in danger and none noticed by any reading.
fn forget(outcomes: &mut [Outcome])
    ensures { (r : ℕ) → r < length outcomes.old → outcome_at outcomes.new r ≡ record { danger = 0; noticed = 0 } }
{
    for r in 0..outcomes.len() {
        outcomes[r] = NOTHING;
    }
}

impl ReadingPlanes {
    /// Room for the planes of so many readings.
    pub fn new(alloc: Global, readings: usize) -> Result<Self, NoRoom>
        ensures { IfOk result (λ planes. length planes ≡ readings) }
    {
        let mut outcomes = Vec::new(alloc);
        for _ in 0..readings {
            push(&mut outcomes, NOTHING)?;
        }
        Ok(ReadingPlanes { outcomes })
    }

    /// The planes of each reading, in order.
    pub fn outcomes(&self) -> &[Outcome]
        ensures { result.now ≡ self.now }
    {
        self.outcomes.as_slice()
    }

    // Forgets what was found.
    pub(crate) fn start(&mut self)
        ensures count { length self.new ≡ length self.old }
        ensures nothing { (r : ℕ) → r < length self.old → outcome_at self.new r ≡ record { danger = 0; noticed = 0 } }
    {
        forget(self.outcomes.as_mut_slice());
    }
}
