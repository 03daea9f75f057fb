// The law of the generated campaign, for contracts and for readers. It computes nothing.
ghost use Rattle.campaign_laws.specs.Samples.{GeneratedIsAPlan};

/// What `gen` makes is a plan, for every number of stages from 1 to 1,000: its netlist, workload, rates and points are read without
/// refusal, the netlist has no loop, and the checks of the plan refuse nothing.
pub fn generated_is_a_plan()
    ensures { GeneratedIsAPlan }
{}
