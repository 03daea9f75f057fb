/// A value behind the turn. It has a list of numbers, which is the history whenever it is at home.
pub trait Kept {
    ghost use Rattle.std.specs.Prelude.{◌≡◌, ℕ, Bool, List, length};

    ghost list: { Self → List ℕ };

    ghost is_failed: { Self → Bool };

    /// How many numbers its list has.
    fn count(&self) -> u64
        ensures { result ≡ length (list self.now) };

    /// Whether it has failed.
    fn failed(&self) -> bool
        ensures { result ≡ is_failed self.now };
}
