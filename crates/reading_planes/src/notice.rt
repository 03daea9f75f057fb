// Whether a fault is noticed by a reading.
ghost use Rattle.std.specs.Prelude.{◌≡◌, ◌<◌, ◌||◌, ◌&&◌, ℕ, Bool, Some, false, length, slice_index_or};
ghost use Rattle.std.specs.List.{list_any};
ghost use Rattle.circuit.specs.declared.parts.NetId.{NetId as NetValue};
ghost use Rattle.first_cycles.specs.Shown.{Shown};
ghost use Rattle.reading_planes.specs.Folded.{AreCyclesFor, AreCyclesOf, noticed_by};
ghost use Rattle.reading_planes.specs.Readings.{IsReadingOf, is_other as is_other_of, others};
ghost use Rattle.testbench.specs.Points.{alarm_at};

use crate::cycles::FaultCycles;
use crate::reading::{Reading, is_other};
use alarm_points::Points;
use circuit::parts::NetId;

// Whether another alarm point than one gives notice, where this one is told of.
fn is_other_notice(net: NetId, out: Option<NetId>, notice: bool) -> bool
    ensures { result ≡ (is_other_of net out && notice) }
{
    is_other(net, out) && notice
}

/// Whether some alarm point but one gives notice. `notices` tells it of each, in order.
pub(crate) fn some_other(nets: &[NetId], notices: &[bool], out: Option<NetId>) -> bool
    requires { length notices.now ≡ length nets.now }
    ensures { (gives : NetValue → Bool) → ((a : ℕ) → a < length nets.now → slice_index_or notices.now a false ≡ gives (alarm_at nets.now a))
        → result ≡ list_any gives (others out nets.now) }
{
    for (a, net) in nets.iter().enumerate() {
        if is_other_notice(*net, out, notices[a]) {
            return true;
        }
    }
    false
}

// Whether some alarm point but this one gives notice: the others are looked at only where it gives notice itself.
fn noticed_without(nets: &[NetId], cycles: &FaultCycles, a: u32) -> bool
    requires alarm { a < length nets.now }
    requires count { length cycles.now.notices ≡ length nets.now }
    ensures { (gives : NetValue → Bool) → ((b : ℕ) → b < length nets.now → slice_index_or cycles.now.notices b false ≡ gives (alarm_at nets.now b))
        → cycles.now.noticed ≡ list_any gives nets.now → result ≡ list_any gives (others (Some (alarm_at nets.now a)) nets.now) }
{
    let notices = cycles.notices.as_slice();
    let own = notices[a as usize];
    if own {
        some_other(nets, notices, Some(nets[a as usize]))
    } else {
        cycles.noticed
    }
}

/// Whether some alarm point of a reading gives notice.
pub(crate) fn is_noticed(points: &Points, reading: Reading, cycles: &FaultCycles) -> bool
    requires reading { IsReadingOf points.now reading }
    requires made { AreCyclesFor points.now cycles.now }
    ensures { (s : Shown) → AreCyclesOf points.now s cycles.now → result ≡ noticed_by points.now reading s }
{
    match reading {
        Reading::Only(a) => cycles.notices.as_slice()[a as usize],
        Reading::Without(a) => noticed_without(points.alarm.as_slice(), cycles, a),
        Reading::Bare | Reading::BareGoal(_) => false,
        _ => cycles.noticed,
    }
}
