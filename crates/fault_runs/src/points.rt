// What the points of one cycle show in all lanes.
ghost use Rattle.std.specs.Prelude.{◌≡◌, ◌<◌, ◌+◌, ◌||◌, ℕ, All, not, take};
ghost use Rattle.std.specs.List.{list_any};
ghost use Rattle.circuit.specs.Sound.{IsNet};
ghost use Rattle.workload.specs.declared.run.Run.{Run};
ghost use Rattle.workload.specs.Runs.{cycles_of};
ghost use Rattle.campaign_plan.specs.Danger.{golden as golden_value, with_faults};
ghost use Rattle.fm_base.specs.Lists.{same_bit};
ghost use Rattle.golden_difference.specs.Beside.{AreBeside};
ghost use Rattle.lane_words.specs.Bits.{either};
ghost use Rattle.lane_words.specs.Loads.{loaded_faults};

use circuit::parts::NetId;
use differential_kernel::DifferentialLanes;
use lane_words::Word;

// The lanes of either word.
fn either_word<W: Word>(a: W, b: W) -> W
    ensures { (k : ℕ) → k < W.lanes → W.lane_bit result k ≡ (W.lane_bit a k || W.lane_bit b k) }
{
    a.xor(b).xor(a.and(b))
}

/// The lanes in which a net differs from the golden run, in the last cycle of a run so far.
pub fn difference_at<W: Word>(lanes: &DifferentialLanes<W>, net: NetId) -> W
    ensures { (run : Run) (t k : ℕ) → t < cycles_of run → AreBeside W.lanes W.lane_bit (take (t + 1) run.vectors) lanes.now → k < W.lanes → IsNet lanes.now.circuit net
        → W.lane_bit result k ≡ either (with_faults lanes.now.circuit (loaded_faults lanes.now.in_force k) run t net) (golden_value lanes.now.circuit run t net) }
{
    lanes.difference(net)
}

/// The lanes in which some of these nets differs from the golden run in the last cycle.
pub fn differ_in<W: Word>(lanes: &DifferentialLanes<W>, nets: &[NetId]) -> W
    requires { All (IsNet lanes.now.circuit) nets.now }
    ensures { (run : Run) (t k : ℕ) → t < cycles_of run → AreBeside W.lanes W.lane_bit (take (t + 1) run.vectors) lanes.now → k < W.lanes
        → W.lane_bit result k ≡ list_any (λ net. not (same_bit (with_faults lanes.now.circuit (loaded_faults lanes.now.in_force k) run t net)
        (golden_value lanes.now.circuit run t net))) nets.now }
{
    let mut differ = W::all(false);
    for net in nets {
        differ = either_word(differ, difference_at(lanes, *net));
    }
    differ
}
