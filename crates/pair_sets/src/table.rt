// The table rule.
ghost use Rattle.std.specs.Prelude.{◌≡◌, ◌↔◌, ◌&&◌, ◌<◌, ◌≤◌, ◌+◌, ◌*◌, ◌^◌, IsTrue, List, length};
ghost use Rattle.fm_base.specs.Planes.{bit};
ghost use Rattle.pair_sets.specs.Pairs.{has};
ghost use Rattle.pair_sets.specs.Steps.{digit_behind, some_end};

use crate::pairs::PairSet;
use crate::values::{FIRST, SECOND, Values, gives, table_values};
use coverage_claim::Site;

// The row with a digit more.
fn row_with(row: u32, digit: bool) -> u32
    requires { row < 64 }
    ensures { result ≡ digit_behind digit row }
{
    if digit { 2 * row + 1 } else { 2 * row }
}

// Whether some choice of this pair, and of one out of each other set, ends so.
#[cycle(ends)]
fn ends_with(
    truth: u64,
    ends: PairSet,
    pairs: PairSet,
    pair: (bool, bool),
    rest: &[PairSet],
    golden: u32,
    faulty: u32,
) -> bool
    requires golden { (golden + 1) * 2 ^ (length rest.now + 1) ≤ 64 }
    requires faulty { (faulty + 1) * 2 ^ (length rest.now + 1) ≤ 64 }
    ensures { result ≡ (has pairs pair.0 pair.1 && some_end truth ends rest.now (digit_behind pair.0 golden) (digit_behind pair.1 faulty)) }
{
    pairs.has(pair.0, pair.1)
        && has_end(
            truth,
            ends,
            rest,
            row_with(golden, pair.0),
            row_with(faulty, pair.1),
        )
}

// Whether some choice of a pair out of each set ends, behind these rows, in rows that give one of some pairs.
#[cycle(ends)]
fn has_end(truth: u64, ends: PairSet, sets: &[PairSet], golden: u32, faulty: u32) -> bool
    requires golden { (golden + 1) * 2 ^ length sets.now ≤ 64 }
    requires faulty { (faulty + 1) * 2 ^ length sets.now ≤ 64 }
    ensures { result ≡ some_end truth ends sets.now golden faulty }
{
    let Some((first, rest)) = sets.split_first() else {
        return ends.has(gives(truth, golden), gives(truth, faulty));
    };
    if ends_with(truth, ends, *first, (false, false), rest, golden, faulty) {
        return true;
    }
    if ends_with(truth, ends, *first, (true, false), rest, golden, faulty) {
        return true;
    }
    if ends_with(truth, ends, *first, (false, true), rest, golden, faulty) {
        return true;
    }
    ends_with(truth, ends, *first, (true, true), rest, golden, faulty)
}

/// The truth table of a table that reads at most six nets, and what faults may do to its own net.
#[derive(Clone, Copy, Debug, PartialEq, Eq)]
pub struct TableRule {
    /// A bit for each row; the first net that is read is the highest digit of a row's number.
    pub truth: u64,
    pub site: Site,
}

impl TableRule {
    ghost use Rattle.pair_sets.specs.Choice.{AgreesAt, AgreesOwn, IsLeft};
    ghost use Rattle.pair_sets.specs.Pairs.{has};
    ghost use Rattle.pair_sets.specs.Steps.{IsHalfLeft};

    // Whether a choice that agrees has this pair at one of the nets that are read.
    fn agrees_at(
        self,
        reads: &mut [PairSet],
        own: PairSet,
        i: usize,
        golden: bool,
        faulty: bool,
    ) -> bool
        requires few { length reads.old ≤ 6 }
        requires inside { i < length reads.old }
        ensures same { reads.new ≡ reads.old }
        ensures value { IsTrue result ↔ AgreesAt self.truth self.site reads.old own i golden faulty }
    {
        let whole = reads[i];
        reads[i] = whole.and(PairSet::pair(golden, faulty));
        let found = has_end(self.truth, own.driving(self.site), reads, 0, 0);
        reads[i] = whole;
        found
    }

    // Leaves at one of the nets that are read the pairs of choices that agree.
    fn narrow_read(self, reads: &mut [PairSet], own: PairSet, i: usize)
        requires few { length reads.old ≤ 6 }
        requires inside { i < length reads.old }
        ensures half { (first : List PairSet) → IsHalfLeft self.truth self.site first own reads.old i → IsHalfLeft self.truth self.site first own reads.new (i + 1) }
    {
        let zeros = self.agrees_at(reads, own, i, false, false);
        let golden = self.agrees_at(reads, own, i, true, false);
        let faulty = self.agrees_at(reads, own, i, false, true);
        let ones = self.agrees_at(reads, own, i, true, true);
        reads[i] = PairSet::of(zeros, golden, faulty, ones);
    }

    // Whether a choice that agrees has this pair at the own net.
    fn agrees_own(self, reads: &[PairSet], own: PairSet, golden: bool, faulty: bool) -> bool
        requires few { length reads.now ≤ 6 }
        ensures { IsTrue result ↔ AgreesOwn self.truth self.site reads.now own golden faulty }
    {
        has_end(
            self.truth,
            own.and(PairSet::pair(golden, faulty)).driving(self.site),
            reads,
            0,
            0,
        )
    }

    // As `narrow`, of any number of nets: the choices are walked for each pair, up to the first that agrees.
    fn narrow_each(self, reads: &mut [PairSet], own: PairSet) -> PairSet
        requires few { length reads.old ≤ 6 }
        ensures left { IsLeft self.truth self.site reads.old own reads.new result }
    {
        for i in 0..reads.len() {
            self.narrow_read(reads, own, i);
        }
        PairSet::of(
            self.agrees_own(reads, own, false, false),
            self.agrees_own(reads, own, true, false),
            self.agrees_own(reads, own, false, true),
            self.agrees_own(reads, own, true, true),
        )
    }

    // As `narrow`, of two nets: all choices at once, as the bits of a word.
    fn narrow_two(self, reads: &mut [PairSet], own: PairSet) -> PairSet
        requires two { length reads.old ≡ 2 }
        ensures left { IsLeft self.truth self.site reads.old own reads.new result }
    {
        let values = Values {
            golden: table_values(self.truth, FIRST.golden, SECOND.golden),
            faulty: table_values(self.truth, FIRST.faulty, SECOND.faulty),
        };
        let choices = FIRST.choices(reads[0])
            & SECOND.choices(reads[1])
            & values.choices(own.driving(self.site));
        reads[0] = FIRST.pairs(choices);
        reads[1] = SECOND.pairs(choices);
        values.pairs(choices).shown(self.site).and(own)
    }

    /// Leaves of the pairs of the nets that the table reads those of choices that agree with it, and gives those of its own net.
    pub fn narrow(self, reads: &mut [PairSet], own: PairSet) -> PairSet
        requires few { length reads.old ≤ 6 }
        ensures left { IsLeft self.truth self.site reads.old own reads.new result }
    {
        if reads.len() == 2 {
            self.narrow_two(reads, own)
        } else {
            self.narrow_each(reads, own)
        }
    }
}
