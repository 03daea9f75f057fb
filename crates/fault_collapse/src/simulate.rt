// The simulation of chosen faults, 64 in each word of the lanes, each alone in its lane.
ghost use Rattle.std.specs.Prelude.{◌≡◌, ◌+◌, ◌*◌, ◌/◌, ◌%◌, ◌<◌, ◌≤◌, ◌^◌, ℕ, All, length};
ghost use Rattle.campaign_plan.specs.Analysis.{all_faults};
ghost use Rattle.classifier.specs.Simulator.{listed, simulator_of};
ghost use Rattle.testbench.specs.Testbench.{IsTestbenchFor};
ghost use Rattle.lane_words.specs.Loads.{loaded_faults};
ghost use Rattle.workload.specs.Runs.{all_cycles};
ghost use Rattle.fault_collapse.specs.Chosen.{AreSimulated, chosen_at, faults_in};

use campaign_plan::{Outcome, Plan};
use circuit::parts::Fault;
use classifier::{LaneFaults, Simulator};
use fault_list::FaultList;
use fm_base::Steps;
use std::sync::ledger::Ledger;
use testbench::Testbench;

const LANES: usize = 64;

/// The number of groups that are simulated at once.
pub(crate) const WORDS: usize = 4;

// The fault at a place among these numbers.
fn chosen_at(faults: &FaultList, numbers: &[u32], place: usize) -> Option<Fault>
    requires { All (λ number. number < length faults.now) numbers.now }
    ensures { result ≡ chosen_at faults.now numbers.now place }
{
    match numbers.get(place) {
        Some(number) => Some(faults.fault(*number)),
        None => None,
    }
}

// The faults of a group, each alone in its lane.
fn loads_of(faults: &FaultList, numbers: &[u32], group: usize) -> LaneFaults
    requires numbers { All (λ number. number < length faults.now) numbers.now }
    requires group { group < 2 ^ 32 }
    ensures { (k : ℕ) → k < 64 → loaded_faults result k ≡ faults_in faults.now numbers.now group k }
{
    let mut loads = [[None, None]; 64];
    for lane in 0..LANES {
        loads[lane] = [chosen_at(faults, numbers, LANES * group + lane), None];
    }
    loads
}

// The faults of four groups, from a first one on, in each word those of one.
fn lists_of(faults: &FaultList, numbers: &[u32], first: usize) -> [LaneFaults; 4]
    requires numbers { All (λ number. number < length faults.now) numbers.now }
    requires few { first + 4 ≤ 2 ^ 32 }
    ensures { (word k : ℕ) → word < 4 → k < 64 → listed result word k ≡ faults_in faults.now numbers.now (first + word) k }
{
    let mut lists = [[[None, None]; 64]; WORDS];
    for word in 0..WORDS {
        lists[word] = loads_of(faults, numbers, first + word);
    }
    lists
}

/// The planes of each group of 64 of the faults of these numbers, one after the other, four groups in each round. `found` has room
/// for whole rounds. It takes no memory, and at most one step for each round, table and cycle.
pub(crate) fn simulate<L: Ledger>(
    plan: &Plan,
    bench: &Testbench<'_>,
    numbers: &[u32],
    found: &mut [Outcome],
    simulator: &mut Simulator,
    steps: &mut Steps<L>,
)
    requires bench { IsTestbenchFor plan.now bench.now }
    requires numbers { All (λ number. number < length (all_faults plan.now)) numbers.now }
    requires few { length found.old < 2 ^ 32 }
    requires rounds { length found.old % 4 ≡ 0 }
    requires simulator { simulator.old ≡ simulator_of bench.now plan.now.settings.ftti }
    ensures found { AreSimulated plan.now numbers.now found.new }
    ensures same { simulator.new ≡ simulator.old }
    ensures cost { steps.new ≤ steps.old + length found.old / 4 * (all_cycles plan.now.runs * length plan.now.circuit.tables) }
{
    for round in 0..found.len() / WORDS {
        let first = round * WORDS;
        let lists = lists_of(plan.faults(), numbers, first);
        let outcomes = simulator.counted_lists(bench, &lists, steps);
        found[first..first + WORDS].copy_from_slice(&outcomes);
    }
}
