// A word whose bits are many circuits.
ghost use Rattle.std.specs.Prelude.{◌≡◌, ◌≢◌, ◌<◌, ◌≤◌, ◌+◌, ◌*◌, ◌==◌, ◌&&◌, ℕ, Bool, true, false, refl, if◌then◌else◌};
ghost use Rattle.circuit.specs.Value.{bit_at};
ghost use Rattle.fm_base.specs.Planes.{bit};
ghost use Rattle.lane_words.specs.Bits.{either};
ghost use Rattle.lane_words.specs.Gates.{plane};

/// A word that has one bit for each of `lanes` circuits: one word of 64 lanes, or a few, one behind the other.
pub trait Word: Copy + Drop {
    // how many words of 64 lanes there are
    ghost words: { ℕ };

    ghost lanes: { ℕ };

    ghost lane_bit: { Self → ℕ → Bool };

    /// The number of words of 64 lanes.
    fn words() -> u32
        ensures count { result ≡ words }
        ensures some { 0 < words }
        ensures few { words ≤ 4 };

    /// The number of bits.
    fn count() -> u32
        ensures { result ≡ lanes };

    /// A word of equal bits.
    fn all(value: bool) -> Self
        ensures { (k : ℕ) → k < lanes → lane_bit result k ≡ value };

    /// Both, bit by bit.
    fn and(self, other: Self) -> Self
        ensures { (k : ℕ) → k < lanes → lane_bit result k ≡ (lane_bit self k && lane_bit other k) };

    /// Exactly one of both, bit by bit.
    fn xor(self, other: Self) -> Self
        ensures { (k : ℕ) → k < lanes → lane_bit result k ≡ either (lane_bit self k) (lane_bit other k) };

    /// One bit.
    fn get(self, lane: u32) -> bool
        requires { lane < lanes }
        ensures { result ≡ lane_bit self lane };

    /// The word with one bit set to a value.
    fn put(self, lane: u32, value: bool) -> Self
        requires { lane < lanes }
        ensures { (k : ℕ) → k < lanes → lane_bit result k ≡ (if k == lane then value else lane_bit self k) };

    /// Whether no bit is set.
    fn is_none(self) -> bool
        ensures none { result ≡ true → (k : ℕ) → k < lanes → lane_bit self k ≡ false }
        ensures some { result ≡ false → (k : ℕ) × (k < lanes) × (lane_bit self k ≡ true) };

    /// The bits of 64 lanes.
    fn part(self, word: u32) -> u64
        requires { word < words }
        ensures { (k : ℕ) → k < 64 → bit result k ≡ lane_bit self (word * 64 + k) };

    /// The word with these bits in 64 lanes, and no other.
    fn of_part(word: u32, bits: u64) -> Self
        requires { word < words }
        ensures own { (k : ℕ) → k < 64 → lane_bit result (word * 64 + k) ≡ bit bits k }
        ensures others { (other k : ℕ) → other < words → other ≢ word → k < 64 → lane_bit result (other * 64 + k) ≡ false };

    ghost whole: { lanes ≡ words * 64 };
}

impl Word for u64 {
    ghost words = { 1 };

    ghost lanes = { 64 };

    ghost lane_bit = { bit };

    ghost whole = { refl };

    fn words() -> u32 {
        1
    }

    fn count() -> u32 {
        64
    }

    fn all(value: bool) -> u64 {
        if value { u64::MAX } else { 0 }
    }

    fn and(self, other: u64) -> u64 {
        self & other
    }

    fn xor(self, other: u64) -> u64 {
        self ^ other
    }

    fn get(self, lane: u32) -> bool {
        (self >> lane) & 1 == 1
    }

    fn put(self, lane: u32, value: bool) -> u64 {
        if value {
            self | (1 << lane)
        } else {
            self & !(1 << lane)
        }
    }

    fn is_none(self) -> bool {
        self == 0
    }

    fn part(self, _word: u32) -> u64 {
        self
    }

    fn of_part(_word: u32, bits: u64) -> u64 {
        bits
    }
}

/// The word at a place; behind the end all bits are 0.
pub fn word_at<W: Word>(words: &[W], at: usize) -> W
    ensures { (k : ℕ) → k < W.lanes → W.lane_bit result k ≡ bit_at (plane W.lane_bit k words.now) at }
{
    match words.get(at) {
        Some(word) => *word,
        None => W::all(false),
    }
}
