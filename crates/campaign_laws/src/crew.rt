// Laws of a crew, for readers. They compute nothing.
ghost use Rattle.campaign_laws.specs.CrewLaws.{AllIsDone, SomeCanGoOn, StepsAreFew, StepsAreLawful};
ghost use Rattle.campaign_laws.specs.Turns.{TurnIsFreeOrHeld};

use claim_counter::Kept;

/// Whatever steps were taken, and unless each worker has ended, some worker can take a step; and who has the turn can.
pub fn some_worker_can_go_on()
    ensures { SomeCanGoOn }
{}

/// In whatever order the workers take their steps, they take at most four for each batch and three for each worker.
pub fn no_crew_goes_on_for_ever()
    ensures { StepsAreFew }
{}

/// Where no worker can take a step, each has ended; and unless the campaign has failed, each batch was posted, once, and all the
/// steps were taken that there may be.
pub fn all_is_done_at_the_end()
    ensures { AllIsDone }
{}

/// The events that the steps of a crew are were each lawful for the machine of `campaign_core` when they came, and make the machine
/// that the crew has.
pub fn steps_are_lawful_events()
    ensures { StepsAreLawful }
{}

/// Between any two atomic steps on the shared table, its turn is free, or exactly one seat holds it, which wasn't joined into another.
pub fn a_turn_is_free_or_held<V: Kept>()
    ensures { TurnIsFreeOrHeld V.list V.is_failed }
{}
