// All answers to an inquiry.
ghost use Rattle.std.specs.Prelude.{◌≡◌, ◌+◌, ◌≤◌, ◌<◌, length, All, Contains, IfOk};
ghost use Rattle.alarm_points.specs.PointsFile.{observed};
ghost use Rattle.alarm_points.specs.PointsKept.{ArePointsFor};
ghost use Rattle.circuit.specs.Order.{IsOrder};
ghost use Rattle.claim_search.specs.Question.{IsPosed, IsSearched, MayBePosed};
ghost use Rattle.always_answers.specs.Answers.{AreAnswersTo, AreOn, claim_of};

use crate::alone::{free_answers, open_nets};
use crate::answers::{Answers, NoAnswers};
use crate::faults::fault_answers;
use crate::inquiry::Inquiry;
use crate::nets::seen_nets;
use crate::parts::{Parts, part_answers};
use alarm_points::Points;
use circuit::parts::NetId;
use claim_search::{AnswerSearch, Posed, Searched};
use reach::Reach;
use region_search::{Watchers, placed_tables};
use room::{NoRoom, extend};
use std::alloc::Global;

// The observation nets of all goals.
fn observed_nets(alloc: Global, points: &Points) -> Result<Vec<NetId>, NoRoom>
    ensures { IfOk result (λ nets. nets.items ≡ observed points.now) }
{
    let mut nets = Vec::new(alloc);
    for goal in points.goals.as_slice() {
        extend(&mut nets, goal.observe.as_slice())?;
    }
    Ok(nets)
}

// The answers, where the netlist is ready to be searched.
fn answers_with(
    alloc: Global,
    asked: &Inquiry<'_>,
    searched: &Searched<'_>,
    posed: &Posed<'_>,
    reach: &Reach,
) -> Result<Answers, NoAnswers>
    requires searched { IsSearched searched.now }
    requires posed { MayBePosed searched.now.netlist.now posed.now }
    requires netlist { searched.now.netlist.now ≡ asked.now.netlist.now }
    requires order { IsOrder searched.now.netlist.now asked.now.order.now }
    requires of_claim { IsPosed searched.now.netlist.now posed.now (claim_of asked.now) }
    requires frames { posed.now.window + posed.now.ahead + 1 ≤ 17 }
    requires circuit { reach.now.circuit ≡ searched.now.netlist.now }
    requires points { observed reach.now.points ≡ posed.now.observed.now }
    requires faults { AreOn searched.now.netlist.now asked.now.faults.now }
    requires parts { length asked.now.parts.now ≡ length searched.now.netlist.now.drivers }
    requires within { All (λ part. part < asked.now.part_count) asked.now.parts.now }
    ensures { AreAnswersTo asked.now result }
{
    let mut search = AnswerSearch::new(alloc, searched, posed)?;
    if let Some(why) = search.contradiction(searched, posed) {
        return Err(NoAnswers::Contradiction(why));
    }
    search.find_forced(searched, posed);
    let seen = seen_nets(alloc, searched.netlist, reach)?;
    let free = free_answers(
        alloc,
        &mut search,
        searched,
        posed,
        asked.parts,
        asked.part_count,
        &seen,
    )?;
    let open = open_nets(alloc, &free, &seen)?;
    let faults = fault_answers(
        alloc,
        &mut search,
        searched,
        asked.order,
        posed,
        reach,
        asked.faults,
        &seen,
        &free,
        &open,
    )?;
    let marks = Parts {
        of_nets: asked.parts,
        seen: &seen,
        open: &open,
    };
    let parts = part_answers(
        alloc,
        &mut search,
        searched,
        posed,
        &marks,
        asked.part_count,
    )?;
    Ok(Answers {
        faults,
        open,
        parts,
    })
}

/// The answers to an inquiry: to each fault of its list and to each part, or a contradiction of what is supposed of runs. All memory is
/// taken by doors. The time is mostly that of the searches: of each part at once, of few more where nets of it are open alone, and of a
/// part with each window up to its least one.
pub fn answers_to(alloc: Global, asked: &Inquiry<'_>) -> Result<Answers, NoAnswers>
    requires order { IsOrder asked.now.netlist.now asked.now.order.now }
    requires points { ArePointsFor asked.now.netlist.now asked.now.points.now }
    requires held { All (λ h. Contains asked.now.netlist.now.inputs h.net) asked.now.held.now }
    requires window { asked.now.window ≤ 8 }
    requires ahead { asked.now.ahead ≤ 8 }
    requires faults { AreOn asked.now.netlist.now asked.now.faults.now }
    requires parts { length asked.now.parts.now ≡ length asked.now.netlist.now.drivers }
    requires within { All (λ part. part < asked.now.part_count) asked.now.parts.now }
    ensures { AreAnswersTo asked.now result }
{
    let watchers = Watchers::new(alloc, asked.netlist, asked.order)?;
    let tables = placed_tables(alloc, asked.netlist, asked.order)?;
    let reach = Reach::new(alloc, asked.netlist, asked.points)?;
    let observed = observed_nets(alloc, asked.points)?;
    let searched = Searched {
        netlist: asked.netlist,
        watchers: &watchers,
        tables: &tables,
    };
    let posed = Posed {
        observed: &observed,
        alarms: asked.points.alarm.as_slice(),
        held: asked.held,
        from: asked.from,
        window: asked.window,
        ahead: asked.ahead,
    };
    answers_with(alloc, asked, &searched, &posed, &reach)
}
