// Of each fault whether a path leads from it to an observation point, and whether some run excites it.
ghost use Rattle.std.specs.Prelude.{◌≡◌, ◌<◌, ◌∷◌, [], ℕ, IfOk, List, length};
ghost use Rattle.circuit.specs.Order.{IsOrder};
ghost use Rattle.circuit.specs.Value.{bit_at};
ghost use Rattle.circuit.specs.declared.parts.NetId.{NetId as NetValue};
ghost use Rattle.alarm_points.specs.PointsKept.{ArePointsFor};
ghost use Rattle.campaign_plan.specs.Analysis.{fault_count, fault_numbered};
ghost use Rattle.readings.specs.Breakdown.{with_goals};
ghost use Rattle.readings.specs.Latencies.{is_excited};
ghost use Rattle.golden_values.specs.Golden.{HasSeenGolden};
ghost use Rattle.coverage.specs.Evidence.{may_reach};
ghost use Rattle.metric_coverage.specs.Paths.{observing, with_points};

use alarm_points::{Goal, Points};
use campaign_plan::Plan;
use coverage::no_path_is_safe;
use fm_base::Seq;
use golden_values::GoldenValues;
use reach::{Reach, Sort};
use room::{NoRoom, from_array, from_slice, push};
use std::alloc::Global;

// Whether a path leads from fault `i` to an observation point of these.
fn has_path(plan: &Plan, reach: &Reach, i: u32) -> bool
    requires made { reach.now.circuit ≡ plan.now.circuit }
    requires points { ArePointsFor plan.now.circuit reach.now.points }
    requires fault { i < fault_count plan.now }
    ensures { result ≡ may_reach (with_points plan.now reach.now.points) (fault_numbered plan.now i) }
{
    no_path_is_safe();
    let fault = plan.faults().fault(i);
    reach.can_change(plan.net().latches(), fault, Sort::Observation)
}

/// The same of each fault of a plan.
pub(crate) fn path_list(alloc: Global, plan: &Plan, reach: &Reach) -> Result<Vec<bool>, NoRoom>
    requires made { reach.now.circuit ≡ plan.now.circuit }
    requires points { ArePointsFor plan.now.circuit reach.now.points }
    ensures count { IfOk result (λ list. length list.items ≡ fault_count plan.now) }
    ensures each { IfOk result (λ list. (i : ℕ) → i < fault_count plan.now
        → bit_at list.items i ≡ may_reach (with_points plan.now reach.now.points) (fault_numbered plan.now i)) }
{
    let mut list = Vec::new(alloc);
    for i in 0..plan.faults().len() {
        push(&mut list, has_path(plan, reach, i))?;
    }
    Ok(list)
}

// The observation points of a goal, as points of their own.
fn observation_points(alloc: Global, goal: &Goal) -> Result<Points, NoRoom>
    ensures { IfOk result (λ points. points ≡ observing goal.now.observe) }
{
    let observe = from_slice(alloc, goal.observe.as_slice())?;
    let alone = Goal {
        name: Seq::new(alloc),
        ftti: None,
        observe: Seq::from_vec(observe),
    };
    Ok(Points {
        goals: Seq::from_vec(from_array(alloc, [alone])?),
        alarm: Seq::new(alloc),
    })
}

/// Of each fault of a plan whether a path leads from it to an observation point of a goal.
pub(crate) fn goal_path_list(alloc: Global, plan: &Plan, goal: &Goal) -> Result<Vec<bool>, NoRoom>
    requires { ArePointsFor plan.now.circuit (observing goal.now.observe) }
    ensures count { IfOk result (λ list. length list.items ≡ fault_count plan.now) }
    ensures each { IfOk result (λ list. (i : ℕ) → i < fault_count plan.now
        → bit_at list.items i ≡ may_reach (with_goals plan.now (goal.now ∷ [])) (fault_numbered plan.now i)) }
{
    let points = observation_points(alloc, goal)?;
    let reach = Reach::new(alloc, plan.net(), &points)?;
    path_list(alloc, plan, &reach)
}

/// Of each fault of a plan whether some run excites it.
pub(crate) fn excited_list(
    alloc: Global,
    plan: &Plan,
    golden: &GoldenValues,
) -> Result<Vec<bool>, NoRoom>
    requires order { (nets : List NetValue) × IsOrder plan.now.circuit nets }
    requires golden { HasSeenGolden plan.now.circuit plan.now.runs golden.now }
    ensures count { IfOk result (λ list. length list.items ≡ fault_count plan.now) }
    ensures each { IfOk result (λ list. (i : ℕ) → i < fault_count plan.now → bit_at list.items i ≡ is_excited plan.now (fault_numbered plan.now i)) }
{
    let mut list = Vec::new(alloc);
    for i in 0..plan.faults().len() {
        push(&mut list, golden.excites_fault(plan, i))?;
    }
    Ok(list)
}
