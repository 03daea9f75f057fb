// The answer to a claim.
ghost use Rattle.std.specs.Prelude.{◌≡◌, ◌≤◌, ◌+◌, ℕ, Bool, false, List, length};
ghost use Rattle.coverage_claim.specs.Claim.{Claim};
ghost use Rattle.pair_sets.specs.Choice.{set_at};
ghost use Rattle.pair_sets.specs.Pairs.{has};
ghost use Rattle.region_search.specs.Going.{IsFor};
ghost use Rattle.pair_sets.specs.declared.pairs.PairSet.{PairSet as OneSet};
ghost use Rattle.claim_search.specs.Answer.{IsAnswer, IsProvedWithSome};
ghost use Rattle.claim_search.specs.LeadIn.{IsLedIn};
ghost use Rattle.claim_search.specs.Forced.{AreForced, AreJoined, Forces};
ghost use Rattle.claim_search.specs.Question.{IsAsked, IsSearched, MayBeAsked};
ghost use Rattle.claim_search.specs.Sites.{site_at};
ghost use Rattle.claim_search.specs.Window.{IsOver};

use crate::lead::{LeadIn, lead_in};
use crate::question::{Question, Searched};
use crate::window::WindowSearch;
use coverage_claim::Site;
use pair_sets::PairSet;
use region_search::Search;

/// What is answered to a claim.
#[derive(Clone, Copy, Debug, PartialEq, Eq)]
pub enum Answer {
    /// An alarm comes in time, and before the claim's first cycle no observation net differs.
    Alarmed,
    /// An alarm comes in time, but an observation net may differ before the claim's first cycle.
    Early,
    /// The claim isn't proved simply.
    Open,
    /// No two runs can be so before its first cycle: an input is held at both values in some cycle.
    NoRuns,
}

impl Answer {
    ghost use Rattle.claim_search.specs.Answer.{is_early, is_of_parts};

    // Whether it is the answer to each part of the region too.
    pub(crate) fn is_of_parts(self) -> bool
        ensures { result ≡ is_of_parts self }
    {
        matches!(self, Answer::Alarmed | Answer::NoRuns)
    }

    // Whether the claim is proved, and an observation net may differ before its first cycle.
    pub(crate) fn is_early(self) -> bool
        ensures { result ≡ is_early self }
    {
        matches!(self, Answer::Early)
    }
}

// The answer to a claim that is proved, by what the cycles before it have shown.
pub(crate) fn answer_if_proved(led: LeadIn) -> Answer
    ensures { (claim : Claim) (starts : List OneSet) → IsLedIn claim starts led → IsProvedWithSome claim → IsAnswer claim result }
{
    match led {
        LeadIn::NoRuns => Answer::NoRuns,
        LeadIn::MayDiffer => Answer::Early,
        LeadIn::Agrees => Answer::Alarmed,
    }
}

// The first latches have the pairs of another list too.
fn join(starts: &mut [PairSet], others: &[PairSet])
    requires { length others.now ≤ length starts.old }
    ensures { AreJoined starts.old others.now starts.new }
{
    for i in 0..others.len() {
        starts[i] = starts[i].or(others[i]);
    }
}

// No pairs at all.
fn clear(pairs: &mut [PairSet])
    ensures { (l : ℕ) (a b : Bool) → has (set_at pairs.new l) a b ≡ false }
{
    pairs.fill(PairSet::NONE);
}

/// The pairs with which latches have to start wherever nets may stay as they are: those with which windows go on where nothing is done
/// anywhere, as `question` says. `forced` are overwritten, one for each latch.
pub(crate) fn forced_pairs(
    lead: &mut Search,
    window: &mut WindowSearch,
    searched: &Searched<'_>,
    question: &Question<'_>,
    forced: &mut [PairSet],
)
    requires searched { IsSearched searched.now }
    requires asked { MayBeAsked searched.now.netlist.now question.now }
    requires bare { (n : ℕ) → site_at question.now.sites.now n ≡ Site.Intact }
    requires lead { IsFor searched.now.watchers.now lead.old }
    requires frame { lead.old.sets.frames ≡ 1 }
    requires over { IsOver searched.now.watchers.now (question.now.posed.window + question.now.posed.ahead + 1) window.old }
    requires size { length forced.old ≡ length searched.now.netlist.now.latches }
    ensures lead { IsFor searched.now.watchers.now lead.new }
    ensures frame { lead.new.sets.frames ≡ 1 }
    ensures over { IsOver searched.now.watchers.now (question.now.posed.window + question.now.posed.ahead + 1) window.new }
    ensures forced { AreForced searched.now.netlist.now question.now.posed forced.new }
{
    match lead_in(lead, searched, question, forced) {
        LeadIn::NoRuns => clear(forced),
        LeadIn::MayDiffer | LeadIn::Agrees => {
            let _closed = window.close(searched, question, forced);
        }
    }
}

/// The answer to a claim. `forced` are pairs with which its latches have to start, whatever proves it: where they are known the search begins
/// with them. `lead` searches one frame, and `starts` are overwritten, one for each latch: by the pairs with which the claim is proved,
/// where it is.
pub fn answer_claim(
    lead: &mut Search,
    window: &mut WindowSearch,
    searched: &Searched<'_>,
    question: &Question<'_>,
    forced: &[PairSet],
    starts: &mut [PairSet],
) -> Answer
    requires searched { IsSearched searched.now }
    requires asked { MayBeAsked searched.now.netlist.now question.now }
    requires lead { IsFor searched.now.watchers.now lead.old }
    requires frame { lead.old.sets.frames ≡ 1 }
    requires over { IsOver searched.now.watchers.now (question.now.posed.window + question.now.posed.ahead + 1) window.old }
    requires few { length forced.now ≤ length searched.now.netlist.now.latches }
    requires starts { length starts.old ≡ length searched.now.netlist.now.latches }
    ensures lead { IsFor searched.now.watchers.now lead.new }
    ensures frame { lead.new.sets.frames ≡ 1 }
    ensures over { IsOver searched.now.watchers.now (question.now.posed.window + question.now.posed.ahead + 1) window.new }
    ensures answer { (claim : Claim) → IsAsked searched.now.netlist.now question.now claim → Forces claim forced.now → IsAnswer claim result }
{
    let whole = match lead_in(lead, searched, question, starts) {
        LeadIn::NoRuns => return Answer::NoRuns,
        LeadIn::MayDiffer => Answer::Early,
        LeadIn::Agrees => Answer::Alarmed,
    };
    join(starts, forced);
    if window.close(searched, question, starts) {
        whole
    } else {
        Answer::Open
    }
}

/// The answer to a claim, which begins with forced pairs as `answer_claim` does. Where cases are asked for, and it is open without them, it is looked for once more: a pair that isn't refuted alone is
/// then tried by cases too, which may take fifty times as long.
pub fn answer_by_cases(
    lead: &mut Search,
    window: &mut WindowSearch,
    searched: &Searched<'_>,
    question: &Question<'_>,
    forced: &[PairSet],
    starts: &mut [PairSet],
    by_cases: bool,
) -> Answer
    requires searched { IsSearched searched.now }
    requires asked { MayBeAsked searched.now.netlist.now question.now }
    requires lead { IsFor searched.now.watchers.now lead.old }
    requires frame { lead.old.sets.frames ≡ 1 }
    requires over { IsOver searched.now.watchers.now (question.now.posed.window + question.now.posed.ahead + 1) window.old }
    requires few { length forced.now ≤ length searched.now.netlist.now.latches }
    requires starts { length starts.old ≡ length searched.now.netlist.now.latches }
    ensures lead { IsFor searched.now.watchers.now lead.new }
    ensures frame { lead.new.sets.frames ≡ 1 }
    ensures over { IsOver searched.now.watchers.now (question.now.posed.window + question.now.posed.ahead + 1) window.new }
    ensures answer { (claim : Claim) → IsAsked searched.now.netlist.now question.now claim → Forces claim forced.now → IsAnswer claim result }
{
    let answer = answer_claim(lead, window, searched, question, forced, starts);
    if !by_cases || !matches!(answer, Answer::Open) {
        return answer;
    }
    window.trial.by_cases = true;
    let answer = answer_claim(lead, window, searched, question, forced, starts);
    window.trial.by_cases = false;
    answer
}
