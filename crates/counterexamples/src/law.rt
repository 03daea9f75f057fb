// A law of runs and claims. It computes nothing.
ghost use Rattle.counterexamples.specs.Contradicted.{ContradictedIsOpen};

use claim_laws::{alarms_come, faults_lie_within};

/// Where a run contradicts that an alarm comes for a fault, no claim of that is proved simply.
pub fn contradicted_is_open()
    ensures { ContradictedIsOpen }
{
    alarms_come();
    faults_lie_within();
}
