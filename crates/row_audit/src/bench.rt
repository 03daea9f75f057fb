// What is simulated, as one argument.
ghost use Rattle.std.specs.Prelude.{◌≡◌};
ghost use Rattle.alarm_points.specs.PointsKept.{ArePointsFor};
ghost use Rattle.row_audit.specs.Audited.{IsOfPlan};

use alarm_points::Points;
use campaign_plan::Plan;
use circuit::netlist::Netlist;
use fault_list::FaultList;
use netlist_levels::Order;
use workload::run::Workload;

/// A netlist with an order of its tables, the runs of a workload, the points that tell danger and notice, the interval in cycles of goals
/// without one of their own, and the faults.
#[derive(Drop)]
pub struct Bench<'a> {
    pub net: &'a Netlist,
    pub order: &'a Order,
    pub work: &'a Workload,
    pub points: &'a Points,
    pub ftti: u32,
    pub faults: &'a FaultList,
}

impl<'a> Bench<'a> {
    /// Those of a plan, with an order of its netlist's tables.
    pub fn of_plan(plan: &'a Plan, order: &'a Order) -> Self
        ensures of { IsOfPlan plan.now result.net.now result.work.now result.points.now result.ftti result.faults.now }
        ensures order { result.order.now ≡ order.now }
        ensures fit { ArePointsFor result.net.now result.points.now }
    {
        Bench {
            net: plan.net(),
            order,
            work: plan.work(),
            points: plan.points(),
            ftti: plan.settings().ftti,
            faults: plan.faults(),
        }
    }
}
