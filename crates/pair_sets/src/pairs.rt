// Sets of pairs.
ghost use Rattle.std.specs.Prelude.{◌≡◌, ◌↔◌, ◌&&◌, ◌||◌, Bool, true, false, not, IsTrue, if◌then◌else◌};
ghost use Rattle.fm_base.specs.Planes.{bit};
ghost use Rattle.coverage_claim.specs.Region.{may_show as shows};
ghost use Rattle.pair_sets.specs.Pairs.{place_of};

use coverage_claim::Site;

/// A set of pairs of a golden value and one with faults: of the lowest four bits the one of the pair (g, f) is g + 2f.
#[derive(Clone, Copy, Debug, PartialEq, Eq)]
pub struct PairSet {
    pub bits: u8,
}

// The bit of a pair.
fn place(golden: bool, faulty: bool) -> u8
    ensures value { result ≡ place_of golden faulty }
{
    if faulty {
        if golden { 3 } else { 2 }
    } else if golden {
        1
    } else {
        0
    }
}

/// Whether a net of this site may show a value, where its driver gives its own.
pub fn may_show(site: Site, own: bool, value: bool) -> bool
    ensures { result ≡ shows site own value }
{
    match site {
        Site::Intact => own == value,
        Site::Free => true,
        Site::Only(held) => held == value,
    }
}

impl PairSet {
    ghost use Rattle.coverage_claim.specs.Rules.{this_pair};
    ghost use Rattle.pair_sets.specs.Pairs.{driving, has, loses_some, shown};

    /// No pairs.
    pub const NONE: PairSet = PairSet { bits: 0 };
    /// All four pairs.
    pub const ALL: PairSet = PairSet { bits: 15 };
    /// The two pairs of equal values.
    pub const EQUAL: PairSet = PairSet { bits: 9 };

    /// The set with each of the four pairs that passes: both 0, the golden value alone 1, the one with faults alone 1, both 1.
    pub fn of(zeros: bool, golden: bool, faulty: bool, ones: bool) -> PairSet
        ensures { (g f : Bool) → has result g f ≡ (if f then (if g then ones else faulty) else if g then golden else zeros) }
    {
        PairSet {
            bits: zeros as u8 + 2 * golden as u8 + 4 * faulty as u8 + 8 * ones as u8,
        }
    }

    /// This pair alone.
    pub fn pair(golden: bool, faulty: bool) -> PairSet
        ensures { (g f : Bool) → has result g f ≡ this_pair golden faulty g f }
    {
        PairSet::of(
            !golden && !faulty,
            golden && !faulty,
            !golden && faulty,
            golden && faulty,
        )
    }

    /// Whether a pair is in the set.
    pub fn has(self, golden: bool, faulty: bool) -> bool
        ensures { result ≡ has self golden faulty }
    {
        (self.bits >> place(golden, faulty)) & 1 == 1
    }

    // Whether some pair is in the set.
    fn has_some(self) -> bool
        ensures { result ≡ (has self false false || has self true false || has self false true || has self true true) }
    {
        self.has(false, false)
            || self.has(true, false)
            || self.has(false, true)
            || self.has(true, true)
    }

    /// Whether no pair is in the set.
    pub fn is_empty(self) -> bool
        ensures { IsTrue result ↔ ((g f : Bool) → has self g f ≡ false) }
    {
        !self.has_some()
    }

    // Whether a pair is in the set and not in another one.
    fn loses(self, other: PairSet, golden: bool, faulty: bool) -> bool
        ensures { result ≡ (has self golden faulty && not (has other golden faulty)) }
    {
        self.has(golden, faulty) && !other.has(golden, faulty)
    }

    // Whether some pair is.
    fn loses_some(self, other: PairSet) -> bool
        ensures { result ≡ loses_some self other }
    {
        self.loses(other, false, false)
            || self.loses(other, true, false)
            || self.loses(other, false, true)
            || self.loses(other, true, true)
    }

    /// Whether each pair is in another set too.
    pub fn is_inside(self, other: PairSet) -> bool
        ensures inside { IsTrue result ↔ ((g f : Bool) → has self g f ≡ true → has other g f ≡ true) }
        ensures value { result ≡ not (loses_some self other) }
    {
        !self.loses_some(other)
    }

    /// The pairs of both sets.
    pub fn and(self, other: PairSet) -> PairSet
        ensures { (g f : Bool) → has result g f ≡ (has self g f && has other g f) }
    {
        PairSet {
            bits: self.bits & other.bits,
        }
    }

    /// The pairs of either set.
    pub fn or(self, other: PairSet) -> PairSet
        ensures { (g f : Bool) → has result g f ≡ (has self g f || has other g f) }
    {
        PairSet {
            bits: self.bits | other.bits,
        }
    }

    // Whether a net of this site may show a pair, where its driver gives one of these.
    fn may_be_shown(self, site: Site, golden: bool, value: bool) -> bool
        ensures { result ≡ shown site (has self) golden value }
    {
        (self.has(golden, false) && may_show(site, false, value))
            || (self.has(golden, true) && may_show(site, true, value))
    }

    /// The pairs that a net of this site may show, where its driver gives one of these.
    pub fn shown(self, site: Site) -> PairSet
        ensures { (g f : Bool) → has result g f ≡ shown site (has self) g f }
    {
        PairSet::of(
            self.may_be_shown(site, false, false),
            self.may_be_shown(site, true, false),
            self.may_be_shown(site, false, true),
            self.may_be_shown(site, true, true),
        )
    }

    // Whether the driver of a net of this site may give a pair, where the net shows one of these.
    fn may_drive(self, site: Site, golden: bool, own: bool) -> bool
        ensures { result ≡ driving site (has self) golden own }
    {
        (self.has(golden, false) && may_show(site, own, false))
            || (self.has(golden, true) && may_show(site, own, true))
    }

    /// The pairs that the driver of a net of this site may give, where the net shows one of these.
    pub fn driving(self, site: Site) -> PairSet
        ensures { (g f : Bool) → has result g f ≡ driving site (has self) g f }
    {
        PairSet::of(
            self.may_drive(site, false, false),
            self.may_drive(site, true, false),
            self.may_drive(site, false, true),
            self.may_drive(site, true, true),
        )
    }
}
