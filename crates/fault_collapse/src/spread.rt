// What each fault is shown to be, read off the lane of its representative.
ghost use Rattle.std.specs.Prelude.{◌≡◌, ◌+◌, ◌*◌, ◌<◌, ◌≤◌, ◌^◌, ◌&&◌, ◌==◌, ℕ, Bool, false, length, map, if◌then◌else◌};
ghost use Rattle.fault_list.specs.Faults.{fault_number, is_used};
ghost use Rattle.fm_base.specs.Lists.{below};
ghost use Rattle.fm_base.specs.Planes.{bit};
ghost use Rattle.fault_collapse.specs.Chosen.{HaveLanes, danger_shown, notice_shown, planes_shown};

use campaign_plan::{Outcome, has_bit};
use collapse_map::Collapse;
use lane_words::Word;

const LANES: u32 = 64;

/// What one fault is found to be.
#[derive(Clone, Copy)]
struct Shown {
    dangerous: bool,
    noticed: bool,
}

// The plane with one bit set to a value.
fn with_bit(plane: u64, lane: u32, value: bool) -> u64
    requires { lane < 64 }
    ensures { (k : ℕ) → k < 64 → bit result k ≡ (if k == lane then value else bit plane k) }
{
    plane.put(lane, value)
}

// What the fault in a lane of a batch is shown to be; nothing, where the lane holds none.
fn shown_in(
    collapse: &Collapse,
    places: &[u32],
    found: &[Outcome],
    count: u32,
    number: u64,
) -> Shown
    requires count { count ≡ length collapse.now.faults }
    requires places { length places.now ≡ length collapse.now.faults }
    requires lanes { HaveLanes collapse.now places.now found.now }
    ensures danger { number < count → result.dangerous ≡ danger_shown collapse.now places.now found.now number }
    ensures noticed { number < count → result.noticed ≡ notice_shown collapse.now places.now found.now number }
    ensures unused { count ≤ number → (result.dangerous ≡ false) × (result.noticed ≡ false) }
{
    if number >= u64::from(count) {
        return Shown {
            dangerous: false,
            noticed: false,
        };
    }
    let place = places[collapse.rep(number as u32) as usize];
    let group = found[(place / LANES) as usize];
    Shown {
        dangerous: has_bit(group.danger, place % LANES),
        noticed: has_bit(group.noticed, place % LANES),
    }
}

// The planes of a batch.
fn planes_of(
    collapse: &Collapse,
    places: &[u32],
    found: &[Outcome],
    count: u32,
    batch: u32,
) -> Outcome
    requires count { count ≡ length collapse.now.faults }
    requires places { length places.now ≡ length collapse.now.faults }
    requires lanes { HaveLanes collapse.now places.now found.now }
    ensures { result ≡ planes_shown collapse.now places.now found.now batch }
{
    let mut danger = 0;
    let mut noticed = 0;
    for lane in 0..LANES {
        let number = u64::from(LANES) * u64::from(batch) + u64::from(lane);
        let shown = shown_in(collapse, places, found, count, number);
        danger = with_bit(danger, lane, shown.dangerous);
        noticed = with_bit(noticed, lane, shown.noticed);
    }
    Outcome { danger, noticed }
}

/// The planes of all batches of so many faults, in rising order.
pub(crate) fn spread(
    collapse: &Collapse,
    places: &[u32],
    found: &[Outcome],
    count: u32,
    list: &mut [Outcome],
)
    requires count { count ≡ length collapse.now.faults }
    requires places { length places.now ≡ length collapse.now.faults }
    requires lanes { HaveLanes collapse.now places.now found.now }
    requires few { length list.old < 2 ^ 32 }
    ensures { list.new ≡ map (planes_shown collapse.now places.now found.now) (below (length list.old)) }
{
    for batch in 0..list.len() {
        list[batch] = planes_of(collapse, places, found, count, batch as u32);
    }
}
