// What a run contradicts.
ghost use Rattle.std.specs.Prelude.{◌≡◌, ◌≤◌, ◌<◌, ◌+◌, ◌&&◌, ℕ, length, not, true};
ghost use Rattle.fm_base.specs.Planes.{bit};
ghost use Rattle.counterexamples.specs.Runs.{IsUnalarmed};

use crate::look::{Seen, either_lanes};
use claim_search::Posed;

// The lanes of one word that aren't of another.
fn only_first(a: u64, b: u64) -> u64
    ensures { (k : ℕ) → k < 64 → bit result k ≡ (bit a k && not (bit b k)) }
{
    a & !b
}

/// The lanes in which an observation net differs in a cycle from the claim's first one on, and no alarm comes in the window, where a run of
/// so many cycles goes on as long as is looked ahead.
pub(crate) fn unalarmed_lanes(posed: &Posed<'_>, seen: &[Seen], cycles: usize) -> u64
    requires { cycles ≤ length seen.now }
    ensures { (k : ℕ) → k < 64 → bit result k ≡ true → IsUnalarmed posed.now cycles seen.now k }
{
    let mut found = 0;
    let window = posed.window as usize;
    let behind = window + posed.ahead as usize;
    for t in posed.from as usize..cycles.saturating_sub(behind) {
        let own = only_first(seen[t].differs, seen[t + window].raised);
        found = either_lanes(found, own);
    }
    found
}
