// Whether what is supposed of runs contradicts itself.
ghost use Rattle.std.specs.Prelude.{MatchOption};
ghost use Rattle.claim_search.specs.Hypotheses.{Contradict, ContradictSimply};
ghost use Rattle.claim_search.specs.Question.{IsPosed, IsSearched, MayBePosed};
ghost use Rattle.claim_search.specs.Sites.{IsReady};
ghost use Rattle.coverage_claim.specs.Claim.{Claim};

use crate::lead::{LeadIn, lead_in};
use crate::question::{Posed, Question, Searched};
use crate::sites::AnswerSearch;

/// Why no run is as it is supposed.
#[derive(Clone, Copy, Debug, PartialEq, Eq)]
pub enum Contradiction {
    /// An input is held at both values in some cycle.
    Held,
    /// In each run whose inputs are held so an alarm is raised without a fault.
    Alarms,
}

impl AnswerSearch {
    /// Whether held inputs and silent alarms contradict each other, so that each claim would be proved and say nothing: the sets of the
    /// first window behind a lead-in, where nothing is done to any net, are looked at once.
    pub fn contradiction(
        &mut self,
        searched: &Searched<'_>,
        posed: &Posed<'_>,
    ) -> Option<Contradiction>
        requires searched { IsSearched searched.now }
        requires posed { MayBePosed searched.now.netlist.now posed.now }
        requires ready { IsReady searched.now posed.now self.old }
        ensures ready { IsReady searched.now posed.now self.new }
        ensures answer { (claim : Claim) → IsPosed searched.now.netlist.now posed.now claim → MatchOption result (¬ (ContradictSimply claim)) (Contradict claim) }
    {
        let question = Question {
            posed: *posed,
            sites: &self.sites,
        };
        match lead_in(&mut self.lead, searched, &question, &mut self.starts) {
            LeadIn::NoRuns => return Some(Contradiction::Held),
            LeadIn::MayDiffer | LeadIn::Agrees => {}
        }
        self.window.begin(searched, &question, &self.starts);
        if self.window.search.empty {
            return Some(Contradiction::Alarms);
        }
        None
    }
}
