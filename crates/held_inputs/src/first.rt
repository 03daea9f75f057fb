// The first cycle that is spoken of.
ghost use Rattle.std.specs.Prelude.{◌≡◌, ◌≤◌, ℕ, All};
ghost use Rattle.held_inputs.specs.First.{first_cycle as first_of};

use coverage_claim::Held;

// The greatest of the cycles from which inputs are held; 0 where none is.
fn greatest_from(held: &[Held]) -> u32
    ensures { result ≡ first_of held.now }
{
    let mut first = 0;
    for h in held {
        if first <= h.from {
            first = h.from;
        }
    }
    first
}

/// The greatest of the cycles from which inputs are held, so from then on each has its later value; 0 where none is held.
pub fn first_cycle(held: &[Held]) -> u32
    ensures value { result ≡ first_of held.now }
    ensures after { All (λ h. h.from ≤ result) held.now }
    ensures small { (most : ℕ) → All (λ h. h.from ≤ most) held.now → result ≤ most }
{
    greatest_from(held)
}
