// The cycles before a claim, one after the other.
ghost use Rattle.std.specs.Prelude.{◌≡◌, ◌≤◌, ◌<◌, ◌+◌, ◌*◌, ◌^◌, ℕ, Bool, length, All, true, false, Some, slice_index_or};
ghost use Rattle.std.specs.List.{slice_get};
ghost use Rattle.circuit.specs.Sound.{IsNet};
ghost use Rattle.circuit.specs.declared.parts.Latch.{Latch as OneLatch};
ghost use Rattle.coverage_claim.specs.Claim.{Claim, unequal};
ghost use Rattle.coverage_claim.specs.Rules.{this_pair};
ghost use Rattle.coverage_claim.specs.Stretch.{AreSo, Values};
ghost use Rattle.pair_sets.specs.Choice.{set_at};
ghost use Rattle.pair_sets.specs.Pairs.{has, shown};
ghost use Rattle.region_search.specs.Going.{IsFor, sets_of};
ghost use Rattle.claim_search.specs.LeadIn.{IsCycle, IsLedIn, lead_cycle};
ghost use Rattle.claim_search.specs.Question.{IsAsked, IsSearched, MayBeAsked};

use crate::question::{Question, Searched};
use circuit::parts::{Latch, NetId};
use coverage_claim::Site;
use pair_sets::PairSet;
use region_search::{Beginning, Search};

/// What the cycles before a claim have shown.
#[derive(Clone, Copy, Debug, PartialEq, Eq)]
pub enum LeadIn {
    /// No two runs can be so: an input is held at both values in some cycle.
    NoRuns,
    /// An observation net may differ in them.
    MayDiffer,
    /// No observation net differs in them.
    Agrees,
}

// Latches start the first cycle with their initial values.
fn first_starts(latches: &[Latch], sites: &[Site], starts: &mut [PairSet])
    requires nets { All (λ latch. latch.to.0 < length sites.now) latches.now }
    requires size { length starts.old ≡ length latches.now }
    ensures { (l : ℕ) (latch : OneLatch) → slice_get latches.now l ≡ Some latch → (a b : Bool)
        → has (set_at starts.new l) a b ≡ shown (slice_index_or sites.now latch.to.0 Site.Intact) (this_pair latch.start latch.start) a b }
{
    for (number, latch) in latches.iter().enumerate() {
        starts[number] = PairSet::pair(latch.start, latch.start).shown(sites[latch.to.0 as usize]);
    }
}

// And the next one with what the nets that they read have in this one.
fn next_starts(search: &Search, latches: &[Latch], sites: &[Site], starts: &mut [PairSet])
    requires frames { 0 < search.now.sets.frames }
    requires from { All (λ latch. latch.from.0 < search.now.sets.nets) latches.now }
    requires nets { All (λ latch. latch.to.0 < length sites.now) latches.now }
    requires size { length starts.old ≡ length latches.now }
    ensures { (l : ℕ) (latch : OneLatch) → slice_get latches.now l ≡ Some latch → (a b : Bool)
        → has (set_at starts.new l) a b ≡ shown (slice_index_or sites.now latch.to.0 Site.Intact) (sets_of search.now.sets 0 latch.from.0) a b }
{
    for (number, latch) in latches.iter().enumerate() {
        starts[number] = search
            .sets
            .get(0, latch.from)
            .shown(sites[latch.to.0 as usize]);
    }
}

// Whether some of these nets may differ.
fn may_differ(search: &Search, nets: &[NetId]) -> bool
    requires frames { 0 < search.now.sets.frames }
    requires nets { All (λ net. net.0 < search.now.sets.nets) nets.now }
    ensures same { result ≡ false → All (λ net. (a b : Bool) → unequal a b ≡ true → sets_of search.now.sets 0 net.0 a b ≡ false) nets.now }
    ensures differs { result ≡ true → (All (λ net. (a b : Bool) → unequal a b ≡ true → sets_of search.now.sets 0 net.0 a b ≡ false) nets.now) → ⊥ }
{
    for net in nets {
        if !search.sets.get(0, *net).is_inside(PairSet::EQUAL) {
            return true;
        }
    }
    false
}

// The largest sets of a cycle in which latches start so; answers whether any runs have it.
fn settle_cycle(
    search: &mut Search,
    searched: &Searched<'_>,
    question: &Question<'_>,
    cycle: u32,
    starts: &[PairSet],
) -> bool
    requires searched { IsSearched searched.now }
    requires asked { MayBeAsked searched.now.netlist.now question.now }
    requires fits { IsFor searched.now.watchers.now search.old }
    requires frames { search.old.sets.frames ≡ 1 }
    requires starts { length starts.now ≡ length searched.now.netlist.now.latches }
    ensures fits { IsFor searched.now.watchers.now search.new }
    ensures frames { search.new.sets.frames ≡ 1 }
    ensures settled { result ≡ true → (claim : Claim) → IsAsked searched.now.netlist.now question.now claim → IsCycle claim cycle starts.now (sets_of search.new.sets) }
    ensures none { result ≡ false → (claim : Claim) → IsAsked searched.now.netlist.now question.now claim
        → (golden faulty : Values) → AreSo (lead_cycle claim cycle starts.now) golden faulty → ⊥ }
{
    let beginning = Beginning {
        sites: question.sites,
        held: question.posed.held,
        first: cycle,
        silent: &[],
        until: 0,
        starts,
    };
    search.begin(searched.netlist, &beginning);
    search.settle(
        searched.watchers,
        searched.tables,
        searched.netlist.latches(),
        question.sites,
    );
    !search.empty
}

/// Goes through the cycles before a claim, and leaves the pairs that each latch may show at its first cycle: the least ones. `search` has
/// one frame. The time is that of as many searches of one frame as there are cycles before the claim, and one more.
pub fn lead_in(
    search: &mut Search,
    searched: &Searched<'_>,
    question: &Question<'_>,
    starts: &mut [PairSet],
) -> LeadIn
    requires searched { IsSearched searched.now }
    requires asked { MayBeAsked searched.now.netlist.now question.now }
    requires fits { IsFor searched.now.watchers.now search.old }
    requires frames { search.old.sets.frames ≡ 1 }
    requires starts { length starts.old ≡ length searched.now.netlist.now.latches }
    ensures fits { IsFor searched.now.watchers.now search.new }
    ensures frames { search.new.sets.frames ≡ 1 }
    ensures led { (claim : Claim) → IsAsked searched.now.netlist.now question.now claim → IsLedIn claim starts.new result }
{
    let latches = searched.netlist.latches();
    let mut differs = false;
    first_starts(latches, question.sites, starts);
    for cycle in 0..question.posed.from {
        if !settle_cycle(search, searched, question, cycle, starts) {
            return LeadIn::NoRuns;
        }
        differs = differs | may_differ(search, question.posed.observed);
        next_starts(search, latches, question.sites, starts);
    }
    if !settle_cycle(search, searched, question, question.posed.from, starts) {
        return LeadIn::NoRuns;
    }
    if differs {
        LeadIn::MayDiffer
    } else {
        LeadIn::Agrees
    }
}
