// Laws of a plan, for contracts and for readers. They compute nothing.
ghost use Rattle.campaign_plan.specs.Laws.{FaultsAreClassedAlone, SumsAreConsistent, SumsAreOfFaults, TrueSumsAreOfFaultsAlone, WeightsSumToRates};

/// The law that the weights of a part's faults of one kind, permanent or transient, sum to the part's rate of that kind, where
/// it has such a fault.
pub fn weights_sum_to_rates()
    ensures { WeightsSumToRates }
{}

/// The law that the five sums over batches of a plan, each of which stands once, are at most 10^18 units, whatever their planes.
pub fn sums_are_consistent()
    ensures { SumsAreConsistent }
{}

/// The laws that planes and batches say of each fault what is so of it alone: its class is that of the list that holds this fault
/// and no other, and the five sums over all batches are those over all faults, one after the other.
pub fn faults_are_alone()
    ensures classes { FaultsAreClassedAlone }
    ensures sums { SumsAreOfFaults }
    ensures truly { TrueSumsAreOfFaultsAlone }
{}
