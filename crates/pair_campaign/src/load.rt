// The planes of pairs, and the faults of each lane of a plane.
ghost use Rattle.std.specs.Prelude.{◌≡◌, ◌+◌, ◌*◌, ◌<◌, ◌≤◌, ◌^◌, ℕ, nat_lt};
ghost use Rattle.fault_list.specs.Faults.{batches_for, is_used};
ghost use Rattle.fm_base.specs.Planes.{bit};
ghost use Rattle.classifier.specs.Simulator.{listed};
ghost use Rattle.lane_words.specs.Loads.{loaded_faults, somes};
ghost use Rattle.pair_list.specs.Chosen.{AreFaults, pair_count};
ghost use Rattle.pair_campaign.specs.Work.{faults_in_lane};

use campaign_plan::Plan;
use circuit::parts::Fault;
use classifier::LaneFaults;
use pair_list::Pairs;

/// The number of pairs in a plane.
pub(crate) const LANES: u32 = 64;

/// The number of planes of these pairs; the last may have lanes without a pair.
pub(crate) fn planes_for(pairs: &Pairs) -> u32
    ensures planes { result ≡ batches_for (pair_count pairs.now) }
    ensures few { result ≤ 2 ^ 26 }
{
    pairs.count().div_ceil(LANES)
}

// Both faults of the pair in a lane of a plane, the latent one first; none where the lane holds no pair.
fn both_in(plan: &Plan, pairs: &Pairs, plane: u32, lane: u32) -> [Option<Fault>; 2]
    requires { AreFaults plan.now pairs.now }
    ensures { somes result ≡ faults_in_lane plan.now pairs.now plane lane }
{
    let number = u64::from(LANES) * u64::from(plane) + u64::from(lane);
    if number >= u64::from(pairs.count()) {
        return [None, None];
    }
    let pair = number as u32;
    let faults = plan.faults();
    let first = faults.fault(pairs.first(pair));
    let second = faults.fault(pairs.second(pair));
    [Some(first), Some(second)]
}

// Both faults of each pair of a plane, the latent one first.
fn loads_of(plan: &Plan, pairs: &Pairs, plane: u32) -> LaneFaults
    requires { AreFaults plan.now pairs.now }
    ensures { (k : ℕ) → k < 64 → loaded_faults result k ≡ faults_in_lane plan.now pairs.now plane k }
{
    let mut loads = [[None, None]; 64];
    for lane in 0..LANES {
        loads[lane as usize] = both_in(plan, pairs, plane, lane);
    }
    loads
}

/// The faults of the pairs of four planes, in each word those of one: of the first, and of each `apart` further.
pub(crate) fn lists_of(plan: &Plan, pairs: &Pairs, first: u32, apart: u32) -> [LaneFaults; 4]
    requires pairs { AreFaults plan.now pairs.now }
    requires few { first + 4 * apart < 2 ^ 32 }
    ensures { (word k : ℕ) → word < 4 → k < 64 → listed result word k ≡ faults_in_lane plan.now pairs.now (first + word * apart) k }
{
    let mut lists = [[[None, None]; 64]; 4];
    for word in 0..4u32 {
        lists[word as usize] = loads_of(plan, pairs, first + word * apart);
    }
    lists
}

/// The lanes of a plane that hold pairs.
pub(crate) fn used_lanes(pairs: &Pairs, plane: u32) -> u64
    ensures { (k : ℕ) → k < 64 → bit result k ≡ is_used (pair_count pairs.now) plane k }
{
    first_lanes(u64::from(pairs.count()).saturating_sub(u64::from(LANES) * u64::from(plane)))
}

// The first lanes, so many of them.
fn first_lanes(count: u64) -> u64
    ensures { (k : ℕ) → k < 64 → bit result k ≡ nat_lt k count }
{
    if count < u64::from(LANES) {
        (1 << count) - 1
    } else {
        u64::MAX
    }
}
