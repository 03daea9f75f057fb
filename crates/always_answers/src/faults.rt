// The answers to all faults of a list.
ghost use Rattle.std.specs.Prelude.{◌≡◌, ◌≤◌, ◌<◌, ℕ, All, IfOk, length, true};
ghost use Rattle.alarm_points.specs.PointsFile.{observed};
ghost use Rattle.circuit.specs.Order.{IsOrder};
ghost use Rattle.claim_search.specs.Answer.{IsNeverProvedSimply};
ghost use Rattle.claim_search.specs.Faults.{IsFaultAnswer};
ghost use Rattle.claim_search.specs.Question.{IsPosed, IsSearched, MayBePosed, with_region};
ghost use Rattle.claim_search.specs.Sites.{IsReady};
ghost use Rattle.coverage_claim.specs.Claim.{Claim};
ghost use Rattle.coverage_claim.specs.Region.{region_of};
ghost use Rattle.fault_list.specs.Faults.{fault_at};
ghost use Rattle.always_answers.specs.Answers.{AreOn};
ghost use Rattle.always_answers.specs.Steps.{AnswersFaults, AreFree, AreSeen, is_runless};

use crate::answers::NoAnswers;
use circuit::meaning::bit;
use circuit::parts::Fault;
use claim_search::{Answer, AnswerSearch, Contradiction, FaultAnswer, Posed, Searched};
use counterexamples::contradicted;
use fault_list::{FaultList, net_of};
use netlist_levels::Order;
use reach::{Reach, Sort};
use room::{NoRoom, push, with_room};
use std::alloc::Global;

// Whether an answer is that there are no runs.
fn is_runless(answer: FaultAnswer) -> bool
    ensures { result ≡ is_runless answer }
{
    matches!(answer, FaultAnswer::OfClaim(Answer::NoRuns))
}

// The numbers of the stuck-at faults at nets that are open alone.
fn stuck_at_open(alloc: Global, faults: &FaultList, open: &[bool]) -> Result<Vec<u32>, NoRoom>
    ensures { IfOk result (λ numbers. All (λ i. i < length faults.now) numbers.items) }
{
    let mut numbers = Vec::new(alloc);
    for i in 0..faults.len() {
        if let Fault::Stuck(net, _) = faults.fault(i) {
            if bit(open, net.0) {
                push(&mut numbers, i)?;
            }
        }
    }
    Ok(numbers)
}

// The answer to one fault of a list: where a run contradicts that an alarm comes it is open, without a search.
fn answer_at(
    search: &mut AnswerSearch,
    searched: &Searched<'_>,
    posed: &Posed<'_>,
    reach: &Reach,
    faults: &FaultList,
    i: u32,
    is_contradicted: bool,
    free: &[Answer],
    seen: &[bool],
) -> FaultAnswer
    requires searched { IsSearched searched.now }
    requires posed { MayBePosed searched.now.netlist.now posed.now }
    requires ready { IsReady searched.now posed.now search.old }
    requires circuit { reach.now.circuit ≡ searched.now.netlist.now }
    requires points { observed reach.now.points ≡ posed.now.observed.now }
    requires faults { AreOn searched.now.netlist.now faults.now }
    requires number { i < length faults.now }
    requires contradicted { is_contradicted ≡ true → (claim : Claim) → IsPosed searched.now.netlist.now posed.now claim
        → IsNeverProvedSimply (with_region claim (region_of searched.now.netlist.now (fault_at faults.now i))) }
    requires seen { AreSeen searched.now.netlist.now posed.now.observed.now seen.now }
    requires size { length free.now ≡ length searched.now.netlist.now.drivers }
    requires free { AreFree searched.now.netlist.now posed.now seen.now free.now }
    ensures ready { IsReady searched.now posed.now search.new }
    ensures answer { (claim : Claim) → IsPosed searched.now.netlist.now posed.now claim → IsFaultAnswer searched.now.netlist.now claim (fault_at faults.now i) result }
{
    let fault = faults.fault(i);
    if is_contradicted && reach.can_change(searched.netlist.latches(), fault, Sort::Observation) {
        return FaultAnswer::OfClaim(Answer::Open);
    }
    let net = net_of(searched.netlist, fault);
    search.answer_fault(searched, posed, reach, fault, free[net.0 as usize])
}

/// The answers to all faults of a list, where `free` has those to all nets that lead to an observation net, and `open` marks the nets that
/// are open alone. Stuck-at faults at these are simulated first.
pub(crate) fn fault_answers(
    alloc: Global,
    search: &mut AnswerSearch,
    searched: &Searched<'_>,
    order: &Order,
    posed: &Posed<'_>,
    reach: &Reach,
    faults: &FaultList,
    seen: &[bool],
    free: &[Answer],
    open: &[bool],
) -> Result<Vec<FaultAnswer>, NoAnswers>
    requires searched { IsSearched searched.now }
    requires order { IsOrder searched.now.netlist.now order.now }
    requires posed { MayBePosed searched.now.netlist.now posed.now }
    requires ready { IsReady searched.now posed.now search.old }
    requires circuit { reach.now.circuit ≡ searched.now.netlist.now }
    requires points { observed reach.now.points ≡ posed.now.observed.now }
    requires faults { AreOn searched.now.netlist.now faults.now }
    requires seen { AreSeen searched.now.netlist.now posed.now.observed.now seen.now }
    requires size { length free.now ≡ length searched.now.netlist.now.drivers }
    requires free { AreFree searched.now.netlist.now posed.now seen.now free.now }
    ensures ready { IsReady searched.now posed.now search.new }
    ensures answers { AnswersFaults searched.now.netlist.now posed.now faults.now result }
{
    let tried = stuck_at_open(alloc, faults, open)?;
    let marks = contradicted(alloc, searched.netlist, order, posed, faults, &tried)?;
    let mut answers = with_room(alloc, faults.len() as usize)?;
    for i in 0..faults.len() {
        let is_contradicted = bit(&marks, i);
        let answer = answer_at(
            search,
            searched,
            posed,
            reach,
            faults,
            i,
            is_contradicted,
            free,
            seen,
        );
        if is_runless(answer) {
            return Err(NoAnswers::Contradiction(Contradiction::Held));
        }
        push(&mut answers, answer)?;
    }
    Ok(answers)
}
