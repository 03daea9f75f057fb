// Laws of the rules. They compute nothing.
ghost use Rattle.coverage_claim.specs.Laws.{LargestHolds, LargestIsOne, LeadInProves, LongerWindowsProve, NarrowingIsSound, OrderIsFree, RefutationsAreSound, RulesAreSound, RulesProve, SimplyProves};

/// Each rule takes away pairs that no two runs have, so any sequence of rules does; what is proved by rules is proved.
pub fn rules_are_sound()
    ensures rules { RulesAreSound }
    ensures refutations { RefutationsAreSound }
    ensures narrowing { NarrowingIsSound }
    ensures proved { RulesProve }
    ensures lead_in { LeadInProves }
{}

/// The largest sets that the rules leave as they are hold all runs; there is one at most, and each sequence of rules that ends, ends in it.
pub fn largest_sets_are_one()
    ensures holds { LargestHolds }
    ensures one { LargestIsOne }
    ensures order { OrderIsFree }
    ensures simply { SimplyProves }
{}

/// What is proved with a window is with a longer one.
pub fn longer_windows_prove()
    ensures { LongerWindowsProve }
{}
