// The classes of a batch's faults, and the sums over them.
ghost use Rattle.std.specs.Prelude.{◌≡◌, ◌<◌};
ghost use Rattle.circuit.specs.Effects.{is_permanent};
ghost use Rattle.fm_base.specs.Planes.{bit};
ghost use Rattle.metric_sums.specs.Totals.{share_of};
ghost use Rattle.campaign_plan.specs.Analysis.{batch_count, fault_count, fault_numbered};
ghost use Rattle.campaign_plan.specs.Batches.{class_with, own_sums};
ghost use Rattle.campaign_plan.specs.Weights.{weight};

use crate::{Outcome, Plan};
use metric_sums::{Class, Sums, class_of};

const LANES: u32 = 64;

/// Whether a plane's bit of a lane is 1.
pub fn has_bit(plane: u64, lane: u32) -> bool
    requires { lane < 64 }
    ensures { result ≡ bit plane lane }
{
    (plane >> lane) % 2 == 1
}

/// The class of fault `i`, where its danger and its notice are these.
pub fn class_with(plan: &Plan, i: u32, dangerous: bool, noticed: bool) -> Class
    requires { i < fault_count plan.now }
    ensures { result ≡ class_with plan.now i dangerous noticed }
{
    let part = plan.part(plan.part_of_fault(i));
    let permanent = plan.faults().fault(i).permanent();
    class_of(dangerous, noticed, part.role, part.covered, permanent)
}

// What fault `i` adds to the sums, where its danger and its notice are these.
fn fault_sums(plan: &Plan, i: u32, dangerous: bool, noticed: bool) -> Sums
    requires { i < fault_count plan.now }
    ensures { result ≡ share_of (class_with plan.now i dangerous noticed) (is_permanent (fault_numbered plan.now i)) (weight plan.now i) }
{
    let class = class_with(plan, i, dangerous, noticed);
    Sums::of_fault(class, plan.faults().fault(i).permanent(), plan.weight(i))
}

/// The five sums over the faults of one batch, where its planes are these, in units of 10^-6 FIT. Bits of lanes that hold no
/// fault are not looked at.
pub fn own_sums(plan: &Plan, batch: u32, outcome: Outcome) -> Sums
    requires { batch < batch_count plan.now }
    ensures { result ≡ own_sums plan.now batch outcome }
{
    let faults = plan.faults().len();
    let mut sums = Sums::none();
    for lane in 0..LANES {
        let i = LANES * batch + lane;
        if i < faults {
            let dangerous = has_bit(outcome.danger, lane);
            let noticed = has_bit(outcome.noticed, lane);
            sums = sums.plus(&fault_sums(plan, i, dangerous, noticed));
        }
    }
    sums
}
