// The planes of missing batches.
ghost use Rattle.std.specs.Prelude.{◌≡◌, ◌<◌, ◌&&◌, not};
ghost use Rattle.fm_base.specs.Planes.{plane_of};
ghost use Rattle.fault_list.specs.Faults.{fault_number, is_used};
ghost use Rattle.campaign_plan.specs.Analysis.{batch_count, fault_count};
ghost use Rattle.metric_bounds.specs.Missing.{planes_when_missing};
ghost use Rattle.metric_bounds.specs.Steps.{is_on_mechanism as is_of_mechanism};

use crate::End;
use campaign_plan::{Outcome, Plan};
use metric_sums::Role;

const LANES: u32 = 64;

// Whether a fault is on a net of a safety mechanism.
fn is_on_mechanism(plan: &Plan, i: u32) -> bool
    requires { i < fault_count plan.now }
    ensures { result ≡ is_of_mechanism plan.now i }
{
    plan.part(plan.part_of_fault(i)).role == Role::Mechanism
}

// Whether a lane holds a fault of anything but a safety mechanism.
fn is_other_lane(plan: &Plan, batch: u32, lane: u32) -> bool
    requires batch { batch < batch_count plan.now }
    requires lane { lane < 64 }
    ensures { result ≡ (is_used (fault_count plan.now) batch lane && not (is_of_mechanism plan.now (fault_number batch lane))) }
{
    let faults = plan.faults().len();
    let i = LANES * batch + lane;
    i < faults && !is_on_mechanism(plan, i)
}

// The plane of the lanes that hold a fault of anything but a safety mechanism.
fn other_lanes(plan: &Plan, batch: u32) -> u64
    requires { batch < batch_count plan.now }
    ensures { result ≡ plane_of (λ lane. is_used (fault_count plan.now) batch lane && not (is_of_mechanism plan.now (fault_number batch lane))) }
{
    let mut plane = 0;
    for lane in 0..LANES {
        if is_other_lane(plan, batch, lane) {
            plane |= 1 << lane;
        }
    }
    plane
}

/// The planes that a missing batch is taken to have at an end.
pub(crate) fn missing_planes(plan: &Plan, end: End, batch: u32) -> Outcome
    requires { batch < batch_count plan.now }
    ensures { result ≡ planes_when_missing plan.now end batch }
{
    match end {
        End::Best => Outcome {
            danger: 0,
            noticed: plan.faults().used(batch),
        },
        End::Worst => Outcome {
            danger: plan.faults().used(batch),
            noticed: 0,
        },
        End::MostLatent => Outcome {
            danger: other_lanes(plan, batch),
            noticed: 0,
        },
    }
}
