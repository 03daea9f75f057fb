// Groups of the faults that are still followed.
ghost use Rattle.std.specs.Prelude.{◌≡◌, ◌<◌, ◌≤◌, ◌+◌, ◌-◌, ◌⊎◌, ◌^◌, ℕ, MatchOption, false, true, length};
ghost use Rattle.place_set.specs.Places.{has};
ghost use Rattle.fault_runs.specs.First.{fault_in};
ghost use Rattle.fault_runs.specs.Resting.{IsTaken, IsWithin};

use crate::resting::Stretch;
use place_set::PlaceSet;

/// The members of a group: how many there are, and the number behind the last.
#[derive(Clone, Copy)]
pub struct Members {
    pub count: usize,
    pub next: usize,
}

// The next active fault from a number on, where there is room for so many more.
fn next_member(active: &PlaceSet, from: usize, room: usize) -> Option<usize>
    ensures { MatchOption result
        ((room ≡ 0) ⊎ ((p : ℕ) → from ≤ p → has active.now p ≡ false))
        (λ q. (from ≤ q) × (q < active.now.bound) × (has active.now q ≡ true) × ((p : ℕ) → from ≤ p → p < q → has active.now p ≡ false) × (0 < room)) }
{
    if room == 0 {
        return None;
    }
    active.next_from(from)
}

/// Makes a group of the active faults from a number on, in order, but for those that are at rest in a stretch: of all of them, or of as
/// many as there is room for.
pub fn fill_group(
    active: &PlaceSet,
    stretch: &Stretch<'_, '_, '_, '_>,
    from: usize,
    group: &mut [u32],
) -> Members
    requires few { active.now.bound < 2 ^ 32 }
    requires within { IsWithin stretch.now }
    ensures count { result.count ≤ length group.new }
    ensures next { from ≤ result.next }
    ensures active { (k : ℕ) → k < result.count → has active.now (fault_in group.new k) ≡ true }
    ensures low { (k : ℕ) → k < result.count → from ≤ fault_in group.new k }
    ensures high { (k : ℕ) → k < result.count → fault_in group.new k < result.next }
    ensures all { (i : ℕ) → from ≤ i → i < result.next → has active.now i ≡ true → IsTaken stretch.now group.new result.count i }
    ensures full { (result.count ≡ length group.new) ⊎ ((p : ℕ) → result.next ≤ p → has active.now p ≡ false) }
    ensures covers { from + result.count ≤ result.next }
    ensures inside { from ≤ active.now.bound → result.next ≤ active.now.bound }
{
    let mut count = 0;
    let mut next = from;
    'members: while let Some(i) = next_member(active, next, group.len() - count) {
        if !stretch.has_at_rest(i) {
            group[count] = i as u32;
            count += 1;
        }
        next = i + 1;
    }
    Members { count, next }
}
