// The bits of pairs.
ghost use Rattle.std.specs.Prelude.{◌≡◌, ◌≤◌, count_by};
ghost use Rattle.fm_base.specs.Lists.{below};
ghost use Rattle.pair_campaign.specs.PairPlanes.{pair_bit};

use crate::load::LANES;
use campaign_plan::has_bit;

/// Whether the bit of a pair is 1. Behind the last plane all bits are 0.
pub(crate) fn has_pair_bit(planes: &[u64], pair: u32) -> bool
    ensures { result ≡ pair_bit planes.now pair }
{
    match planes.get((pair / LANES) as usize) {
        Some(plane) => has_bit(*plane, pair % LANES),
        None => false,
    }
}

/// How many of the first pairs have a bit that is 1.
pub(crate) fn count_dangerous(planes: &[u64], pairs: u32) -> u32
    ensures { result ≡ count_by (pair_bit planes.now) (below pairs) }
{
    let mut dangerous = 0;
    for pair in 0..pairs {
        if has_pair_bit(planes, pair) {
            dangerous += 1;
        }
    }
    dangerous
}
