// What is answered.
ghost use Rattle.std.specs.Prelude.{◌≡◌};
ghost use Rattle.always_answers.specs.declared.answers.NoAnswers.TheVariants.{Memory};

use claim_search::{Contradiction, FaultAnswer};
use room::NoRoom;

/// What is answered to all nets of a part at once.
#[derive(Clone, Copy, Debug, PartialEq, Eq)]
pub enum PartAnswer {
    /// No path leads from any of its nets to an observation net.
    NoPath,
    /// Whatever goes wrong at once in all of its nets but the `open` ones that are open alone, an alarm comes in at most `window` cycles:
    /// the least number with which that is proved.
    Whole { open: u32, window: u32 },
    /// That isn't proved, or each of its nets that leads to an observation net is open alone.
    Alone,
}

/// What is answered for every workload.
#[derive(Drop)]
pub struct Answers {
    /// For each fault of the list, in its order, with the greatest window.
    pub faults: Vec<FaultAnswer>,
    /// For each net whether it is open alone: a path leads from it to an observation net, and that an alarm comes whatever goes wrong
    /// there isn't proved.
    pub open: Vec<bool>,
    /// For each part.
    pub parts: Vec<PartAnswer>,
}

/// Why there are no answers.
#[derive(Clone, Copy, Debug, PartialEq, Eq)]
pub enum NoAnswers {
    Contradiction(Contradiction),
    Memory(NoRoom),
}

impl From<NoRoom> for NoAnswers {
    ghost from_gives = { λ no_room e. e ≡ Memory no_room };

    fn from(e: NoRoom) -> Self {
        NoAnswers::Memory(e)
    }
}
