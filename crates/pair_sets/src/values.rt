// The choices of a pair for each of two nets, as the bits of a word.
ghost use Rattle.std.specs.Prelude.{◌≡◌, ◌↔◌, ◌<◌, ℕ, Bool, IsTrue, true, if◌then◌else◌};
ghost use Rattle.fm_base.specs.Lists.{same_bit};
ghost use Rattle.fm_base.specs.Planes.{bit};
ghost use Rattle.pair_sets.specs.Pairs.{has};
ghost use Rattle.pair_sets.specs.Steps.{IsPairIn, digit_behind};

use crate::pairs::PairSet;

/// The values of a net in each choice: a bit for each.
#[derive(Clone, Copy)]
pub(crate) struct Values {
    pub(crate) golden: u64,
    pub(crate) faulty: u64,
}

/// Those of the first of two nets, and those of the second: they have each two pairs in one of the lowest sixteen choices.
pub(crate) const FIRST: Values = Values {
    golden: 0xAAAA,
    faulty: 0xCCCC,
};

pub(crate) const SECOND: Values = Values {
    golden: 0xF0F0,
    faulty: 0xFF00,
};

// The same value in all choices.
fn everywhere(value: bool) -> u64
    ensures { (k : ℕ) → k < 64 → bit result k ≡ value }
{
    if value { u64::MAX } else { 0 }
}

// In each choice the one or the other value, as a third one says.
fn pick(by: u64, zero: u64, one: u64) -> u64
    ensures { (k : ℕ) → k < 64 → bit result k ≡ (if bit by k then bit one k else bit zero k) }
{
    (zero & !by) | (one & by)
}

// The choices in which a net has a value.
fn where_it_is(values: u64, value: bool) -> u64
    ensures { (k : ℕ) → k < 64 → bit result k ≡ same_bit value (bit values k) }
{
    if value { values } else { !values }
}

/// What a truth table gives in a row.
pub(crate) fn gives(truth: u64, row: u32) -> bool
    requires { row < 64 }
    ensures { result ≡ bit truth row }
{
    (truth >> row) & 1 == 1
}

/// What a table of two nets gives in each choice, where they have these values.
pub(crate) fn table_values(truth: u64, first: u64, second: u64) -> u64
    ensures { (k : ℕ) → k < 64 → bit result k ≡ bit truth (digit_behind (bit second k) (digit_behind (bit first k) 0)) }
{
    let zero = pick(
        second,
        everywhere(gives(truth, 0)),
        everywhere(gives(truth, 1)),
    );
    let one = pick(
        second,
        everywhere(gives(truth, 2)),
        everywhere(gives(truth, 3)),
    );
    pick(first, zero, one)
}

impl Values {
    /// The choices in which the net has a pair of a set.
    pub(crate) fn choices(self, pairs: PairSet) -> u64
        ensures { (k : ℕ) → k < 64 → bit result k ≡ has pairs (bit self.golden k) (bit self.faulty k) }
    {
        let zero = pick(
            self.golden,
            everywhere(pairs.has(false, false)),
            everywhere(pairs.has(true, false)),
        );
        let one = pick(
            self.golden,
            everywhere(pairs.has(false, true)),
            everywhere(pairs.has(true, true)),
        );
        pick(self.faulty, zero, one)
    }

    // Whether the net has a pair in some of these choices.
    fn has_in(self, choices: u64, golden: bool, faulty: bool) -> bool
        ensures { IsTrue result ↔ IsPairIn choices self golden faulty }
    {
        choices & where_it_is(self.golden, golden) & where_it_is(self.faulty, faulty) != 0
    }

    /// The pairs that the net has in some of these choices.
    pub(crate) fn pairs(self, choices: u64) -> PairSet
        ensures { (g f : Bool) → (has result g f ≡ true) ↔ IsPairIn choices self g f }
    {
        PairSet::of(
            self.has_in(choices, false, false),
            self.has_in(choices, true, false),
            self.has_in(choices, false, true),
            self.has_in(choices, true, true),
        )
    }
}
