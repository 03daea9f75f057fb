// The answers to faults.
ghost use Rattle.std.specs.Prelude.{◌≡◌};
ghost use Rattle.alarm_points.specs.PointsFile.{observed};
ghost use Rattle.circuit.specs.Sound.{IsNet};
ghost use Rattle.circuit.specs.declared.parts.NetId.{NetId as OneNet};
ghost use Rattle.coverage_claim.specs.Claim.{Claim};
ghost use Rattle.reach.specs.Paths.{ActsOn, LeadsToSome};
ghost use Rattle.claim_search.specs.Faults.{IsFaultAnswer};
ghost use Rattle.claim_search.specs.Question.{IsPosed, IsSearched, MayBePosed};
ghost use Rattle.claim_search.specs.Sites.{IsAnswerAt, IsReady};

use crate::answer::Answer;
use crate::question::{Posed, Searched};
use crate::sites::AnswerSearch;
use circuit::parts::{Fault, NetId};
use coverage_claim::Site;
use reach::{Reach, Sort};

/// What is answered to a fault.
#[derive(Clone, Copy, Debug, PartialEq, Eq)]
pub enum FaultAnswer {
    /// No path leads from its net to an observation net, so none differs in any run.
    NoPath,
    /// The answer to the claim with the fault's region: a net that is stuck is held at its value, and one with a flip or a pulse is free.
    OfClaim(Answer),
}

impl AnswerSearch {
    // The answer to a net that is held at a value, where `free` is that to the net whatever goes wrong there.
    fn answer_stuck(
        &mut self,
        searched: &Searched<'_>,
        posed: &Posed<'_>,
        net: NetId,
        value: bool,
        free: Answer,
    ) -> Answer
        requires searched { IsSearched searched.now }
        requires posed { MayBePosed searched.now.netlist.now posed.now }
        requires ready { IsReady searched.now posed.now self.old }
        requires net { IsNet searched.now.netlist.now net }
        requires free { (claim : Claim) → IsPosed searched.now.netlist.now posed.now claim → IsAnswerAt claim net Site.Free free }
        ensures ready { IsReady searched.now posed.now self.new }
        ensures answer { (claim : Claim) → IsPosed searched.now.netlist.now posed.now claim → IsAnswerAt claim net (Site.Only value) result }
    {
        if free.is_of_parts() {
            return free;
        }
        self.answer(searched, posed, &[net], Site::Only(value), true)
    }

    /// The answer to a fault, where `free` is that to its net, whatever goes wrong there: of `answer_free`, or anything where no path leads
    /// from it to an observation net. A net that isn't proved so is asked of once more for each value that it is stuck at.
    pub fn answer_fault(
        &mut self,
        searched: &Searched<'_>,
        posed: &Posed<'_>,
        reach: &Reach,
        fault: Fault,
        free: Answer,
    ) -> FaultAnswer
        requires searched { IsSearched searched.now }
        requires posed { MayBePosed searched.now.netlist.now posed.now }
        requires ready { IsReady searched.now posed.now self.old }
        requires circuit { reach.now.circuit ≡ searched.now.netlist.now }
        requires points { observed reach.now.points ≡ posed.now.observed.now }
        requires net { (net : OneNet) → ActsOn searched.now.netlist.now net fault → IsNet searched.now.netlist.now net }
        requires free { (claim : Claim) → IsPosed searched.now.netlist.now posed.now claim → (net : OneNet) → ActsOn searched.now.netlist.now net fault
            → LeadsToSome searched.now.netlist.now net posed.now.observed.now → IsAnswerAt claim net Site.Free free }
        ensures ready { IsReady searched.now posed.now self.new }
        ensures answer { (claim : Claim) → IsPosed searched.now.netlist.now posed.now claim → IsFaultAnswer searched.now.netlist.now claim fault result }
    {
        if !reach.can_change(searched.netlist.latches(), fault, Sort::Observation) {
            return FaultAnswer::NoPath;
        }
        match fault {
            Fault::Stuck(net, value) => {
                FaultAnswer::OfClaim(self.answer_stuck(searched, posed, net, value, free))
            }
            Fault::Flip(_, _) => FaultAnswer::OfClaim(free),
            Fault::Pulse(_, _) => FaultAnswer::OfClaim(free),
        }
    }
}
