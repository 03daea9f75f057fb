// The windows of a claim: with which pairs its latches start them.
ghost use Rattle.std.specs.Prelude.{◌≡◌, ◌≤◌, ◌<◌, ◌+◌, ◌*◌, ◌^◌, length, true, false, IfOk};
ghost use Rattle.coverage_claim.specs.Claim.{Claim, window_of};
ghost use Rattle.coverage_claim.specs.Largest.{IsProvedSimply};
ghost use Rattle.coverage_claim.specs.Rules.{everything};
ghost use Rattle.region_search.specs.Going.{GoesOn, sets_of};
ghost use Rattle.region_search.specs.Search.{places_of};
ghost use Rattle.region_search.specs.Settled.{NothingWaits};
ghost use Rattle.region_search.specs.Work.{pairs_left};
ghost use Rattle.claim_search.specs.Question.{IsAsked, IsSearched, MayBeAsked, with_pairs};
ghost use Rattle.claim_search.specs.Window.{Allows, AreKept, HasShown, IsOver, WindowsGoOn, starts_of};

use crate::question::{Question, Searched};
use pair_sets::PairSet;
use region_search::{Beginning, Search, Trial};
use room::NoRoom;
use std::alloc::Global;

/// The search of a window, and what pairs are tried in.
#[derive(Drop)]
pub struct WindowSearch {
    pub search: Search,
    pub trial: Trial,
}

// What one look at a window has shown.
#[derive(Clone, Copy, Debug, PartialEq, Eq)]
enum Seen {
    // An observation net may differ in its first frame, whatever more pairs it starts with.
    Open,
    // It goes on as it began.
    Closed,
    // It has to start with more pairs.
    Grown,
}

impl WindowSearch {
    /// Searches of windows with so many frames. It takes the memory of all that `close` does: three bytes for each net and frame.
    pub fn new(
        alloc: Global,
        searched: &Searched<'_>,
        frames: usize,
    ) -> Result<WindowSearch, NoRoom>
        requires searched { IsSearched searched.now }
        requires frames { frames ≤ 2 ^ 16 }
        requires few { frames * places_of searched.now.watchers.now < 2 ^ 32 }
        ensures { IfOk result (IsOver searched.now.watchers.now frames) }
    {
        let search = Search::new(alloc, searched.netlist, searched.watchers, frames)?;
        let trial = Trial::new(alloc, searched.netlist, searched.watchers, frames)?;
        Ok(WindowSearch { search, trial })
    }

    // The largest sets of the windows that start so.
    pub(crate) fn begin(
        &mut self,
        searched: &Searched<'_>,
        question: &Question<'_>,
        starts: &[PairSet],
    )
        requires searched { IsSearched searched.now }
        requires asked { MayBeAsked searched.now.netlist.now question.now }
        requires over { IsOver searched.now.watchers.now (question.now.posed.window + question.now.posed.ahead + 1) self.old }
        requires starts { length starts.now ≡ length searched.now.netlist.now.latches }
        ensures over { IsOver searched.now.watchers.now (question.now.posed.window + question.now.posed.ahead + 1) self.new }
        ensures goes_on { (claim : Claim) → IsAsked searched.now.netlist.now question.now claim
            → GoesOn searched.now.watchers.now (window_of (with_pairs claim (starts_of searched.now.netlist.now starts.now))) everything (sets_of self.new.search.sets) self.new.search }
        ensures settled { self.new.search.empty ≡ false → (claim : Claim) → IsAsked searched.now.netlist.now question.now claim
            → NothingWaits (window_of (with_pairs claim (starts_of searched.now.netlist.now starts.now))) (sets_of self.new.search.sets) }
    {
        let beginning = Beginning {
            sites: question.sites,
            held: question.posed.held,
            first: question.posed.from,
            silent: question.posed.alarms,
            until: question.posed.window,
            starts,
        };
        self.search.begin(searched.netlist, &beginning);
        self.search.settle(
            searched.watchers,
            searched.tables,
            searched.netlist.latches(),
            question.sites,
        );
    }

    // Looks once at the windows that start so.
    fn look(
        &mut self,
        searched: &Searched<'_>,
        question: &Question<'_>,
        starts: &mut [PairSet],
    ) -> Seen
        requires searched { IsSearched searched.now }
        requires asked { MayBeAsked searched.now.netlist.now question.now }
        requires over { IsOver searched.now.watchers.now (question.now.posed.window + question.now.posed.ahead + 1) self.old }
        requires starts { length starts.old ≡ length searched.now.netlist.now.latches }
        ensures over { IsOver searched.now.watchers.now (question.now.posed.window + question.now.posed.ahead + 1) self.new }
        ensures kept { AreKept starts.old starts.new }
        ensures opened { result ≡ Seen.Open → starts.new ≡ starts.old }
        ensures closed { result ≡ Seen.Closed → starts.new ≡ starts.old }
        ensures grown { result ≡ Seen.Grown → pairs_left starts.old + 1 ≤ pairs_left starts.new }
        ensures shown { (claim : Claim) → IsAsked searched.now.netlist.now question.now claim → HasShown searched.now.netlist.now claim starts.old starts.new result }
    {
        self.begin(searched, question, starts);
        let latches = searched.netlist.latches();
        let agrees = self.search.agrees(
            &mut self.trial,
            searched.watchers,
            searched.tables,
            latches,
            question.sites,
            question.posed.observed,
        );
        if !agrees {
            return Seen::Open;
        }
        let grows = self.search.grow(
            &mut self.trial,
            searched.watchers,
            searched.tables,
            latches,
            question.sites,
            starts,
        );
        if grows {
            return Seen::Grown;
        }
        Seen::Closed
    }

    /// Lets the starts of latches grow by the pairs that they have to have, until each window that starts so goes on as it began, with
    /// no difference at an observation net in its first frame: then the answer is `true`. With `false` the claim isn't proved simply,
    /// whatever more pairs its latches may show. Each look is a search from the beginning; there are at most as many as latches may grow by pairs.
    pub fn close(
        &mut self,
        searched: &Searched<'_>,
        question: &Question<'_>,
        starts: &mut [PairSet],
    ) -> bool
        requires searched { IsSearched searched.now }
        requires asked { MayBeAsked searched.now.netlist.now question.now }
        requires over { IsOver searched.now.watchers.now (question.now.posed.window + question.now.posed.ahead + 1) self.old }
        requires starts { length starts.old ≡ length searched.now.netlist.now.latches }
        ensures over { IsOver searched.now.watchers.now (question.now.posed.window + question.now.posed.ahead + 1) self.new }
        ensures kept { AreKept starts.old starts.new }
        ensures proved { result ≡ true → (claim : Claim) → IsAsked searched.now.netlist.now question.now claim
            → WindowsGoOn (with_pairs claim (starts_of searched.now.netlist.now starts.new)) }
        ensures open { result ≡ false → (claim : Claim) → IsAsked searched.now.netlist.now question.now claim → Allows claim starts.old → ¬ (IsProvedSimply claim) }
        ensures least { (claim : Claim) → IsAsked searched.now.netlist.now question.now claim → Allows claim starts.old → IsProvedSimply claim → Allows claim starts.new }
    {
        'looks: loop {
            match self.look(searched, question, starts) {
                Seen::Open => return false,
                Seen::Closed => return true,
                Seen::Grown => {}
            }
        }
    }
}
