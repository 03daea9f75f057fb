// What the points of one cycle show in all lanes.
ghost use Rattle.std.specs.Prelude.{◌≡◌, ◌<◌, ◌+◌, ◌*◌, ◌&&◌, ◌||◌, ℕ, All, not, slice_index_or, take};
ghost use Rattle.std.specs.List.{list_any};
ghost use Rattle.circuit.specs.Sound.{IsNet};
ghost use Rattle.workload.specs.declared.run.Run.{Run};
ghost use Rattle.workload.specs.Runs.{cycles_of};
ghost use Rattle.campaign_plan.specs.Danger.{golden as golden_value, with_faults};
ghost use Rattle.fm_base.specs.Lists.{same_bit};
ghost use Rattle.fm_base.specs.Planes.{bit};
ghost use Rattle.golden_difference.specs.Beside.{IsGoldenRow, AreBeside};
ghost use Rattle.lane_words.specs.Bits.{either};
ghost use Rattle.lane_words.specs.Loads.{loaded_faults};
ghost use Rattle.testbench.specs.Load.{in_lane};
ghost use Rattle.classifier.specs.Noise.{noise_at};

use crate::noise::{Heard, Noise, SILENT};
use circuit::parts::NetId;
use differential_kernel::DifferentialLanes;
use lane_words::Word;
use place_set::value_in_words;

/// The lanes of either plane.
pub fn either_lanes(a: u64, b: u64) -> u64
    ensures { (k : ℕ) → bit result k ≡ (bit a k || bit b k) }
{
    a | b
}

/// The lanes of one plane that another lacks.
pub fn lanes_without(plane: u64, other: u64) -> u64
    ensures { (k : ℕ) → k < 64 → bit result k ≡ (bit plane k && not (bit other k)) }
{
    plane & !other
}

// The lanes of either word.
fn either_word<W: Word>(a: W, b: W) -> W
    ensures { (k : ℕ) → k < W.lanes → W.lane_bit result k ≡ (W.lane_bit a k || W.lane_bit b k) }
{
    a.xor(b).xor(a.and(b))
}

/// The planes of the words of lanes; behind the last they are 0.
pub(crate) fn parts_of<W: Word>(lanes: W) -> [u64; 4]
    ensures { (word k : ℕ) → word < W.words → k < 64 → bit (slice_index_or result word 0) k ≡ W.lane_bit lanes (word * 64 + k) }
{
    let mut planes = [0; 4];
    for word in 0..W::words() {
        planes[word as usize] = lanes.part(word);
    }
    planes
}

// The lanes, in all words, in which a net differs from the golden run, in the last cycle of a run so far.
fn difference_at<W: Word>(lanes: &DifferentialLanes<W>, net: NetId) -> W
    ensures { (run : Run) (t k : ℕ) → t < cycles_of run → AreBeside W.lanes W.lane_bit (take (t + 1) run.vectors) lanes.now → k < W.lanes → IsNet lanes.now.circuit net
        → W.lane_bit result k ≡ either (with_faults lanes.now.circuit (loaded_faults lanes.now.in_force k) run t net) (golden_value lanes.now.circuit run t net) }
{
    lanes.difference(net)
}

/// The lanes of a word in which a net differs from the golden run, in the last cycle of a run so far.
pub fn differs_at<W: Word>(lanes: &DifferentialLanes<W>, word: u32, net: NetId) -> u64
    requires { word < W.words }
    ensures { (run : Run) (t k : ℕ) → t < cycles_of run → AreBeside W.lanes W.lane_bit (take (t + 1) run.vectors) lanes.now → k < 64 → IsNet lanes.now.circuit net
        → bit result k ≡ either (with_faults lanes.now.circuit (in_lane lanes.now.in_force word k) run t net) (golden_value lanes.now.circuit run t net) }
{
    difference_at(lanes, net).part(word)
}

/// The lanes, in all words, in which some of these nets differs from the golden run in the last cycle.
pub(crate) fn differ_in<W: Word>(lanes: &DifferentialLanes<W>, nets: &[NetId]) -> W
    requires { All (IsNet lanes.now.circuit) nets.now }
    ensures { (run : Run) (t k : ℕ) → t < cycles_of run → AreBeside W.lanes W.lane_bit (take (t + 1) run.vectors) lanes.now → k < W.lanes
        → W.lane_bit result k ≡ list_any (λ net. not (same_bit (with_faults lanes.now.circuit (loaded_faults lanes.now.in_force k) run t net)
        (golden_value lanes.now.circuit run t net))) nets.now }
{
    let mut differ = W::all(false);
    for net in nets {
        differ = either_word(differ, difference_at(lanes, *net));
    }
    differ
}

/// Those of a word.
pub fn differing<W: Word>(lanes: &DifferentialLanes<W>, word: u32, nets: &[NetId]) -> u64
    requires word { word < W.words }
    requires nets { All (IsNet lanes.now.circuit) nets.now }
    ensures { (run : Run) (t k : ℕ) → t < cycles_of run → AreBeside W.lanes W.lane_bit (take (t + 1) run.vectors) lanes.now → k < 64
        → bit result k ≡ list_any (λ net. not (same_bit (with_faults lanes.now.circuit (in_lane lanes.now.in_force word k) run t net)
        (golden_value lanes.now.circuit run t net))) nets.now }
{
    differ_in(lanes, nets).part(word)
}

// The alarms so far, and those of one more net.
fn louder<W: Word>(before: Heard<W>, differs: W, golden: bool) -> Heard<W>
    ensures raised { (k : ℕ) → k < W.lanes → W.lane_bit result.raised k ≡ (W.lane_bit before.raised k || (W.lane_bit differs k && not golden)) }
    ensures silenced { (k : ℕ) → k < W.lanes → W.lane_bit result.silenced k ≡ (W.lane_bit before.silenced k || (W.lane_bit differs k && golden)) }
{
    Heard {
        raised: either_word(before.raised, differs.and(W::all(!golden))),
        silenced: either_word(before.silenced, differs.and(W::all(golden))),
    }
}

/// The lanes, in all words, in which some of these alarms is 1 in the last cycle, and 0 in the golden run; and those in which some is
/// 0, and 1 in the golden run. `row` has the golden values of this cycle.
pub(crate) fn hear<W: Word>(lanes: &DifferentialLanes<W>, row: &[u64], nets: &[NetId]) -> Heard<W>
    requires { All (IsNet lanes.now.circuit) nets.now }
    ensures raised { (run : Run) (t k : ℕ) → t < cycles_of run → AreBeside W.lanes W.lane_bit (take (t + 1) run.vectors) lanes.now
        → IsGoldenRow lanes.now.circuit run.vectors t row.now → k < W.lanes → W.lane_bit result.raised k
        ≡ list_any (λ net. with_faults lanes.now.circuit (loaded_faults lanes.now.in_force k) run t net && not (golden_value lanes.now.circuit run t net)) nets.now }
    ensures silenced { (run : Run) (t k : ℕ) → t < cycles_of run → AreBeside W.lanes W.lane_bit (take (t + 1) run.vectors) lanes.now
        → IsGoldenRow lanes.now.circuit run.vectors t row.now → k < W.lanes → W.lane_bit result.silenced k
        ≡ list_any (λ net. not (with_faults lanes.now.circuit (loaded_faults lanes.now.in_force k) run t net) && golden_value lanes.now.circuit run t net) nets.now }
{
    let mut found = Heard {
        raised: W::all(false),
        silenced: W::all(false),
    };
    for net in nets {
        let golden = value_in_words(row, net.0 as usize);
        found = louder(found, difference_at(lanes, *net), golden);
    }
    found
}

/// The alarms of each word; behind the last there are none.
pub(crate) fn noise_of<W: Word>(heard: &Heard<W>) -> [Noise; 4]
    ensures raised { (word k : ℕ) → word < W.words → k < 64 → bit (noise_at result word).raised k ≡ W.lane_bit heard.now.raised (word * 64 + k) }
    ensures silenced { (word k : ℕ) → word < W.words → k < 64 → bit (noise_at result word).silenced k ≡ W.lane_bit heard.now.silenced (word * 64 + k) }
{
    let mut noise = [SILENT; 4];
    for word in 0..W::words() {
        noise[word as usize] = Noise {
            raised: heard.raised.part(word),
            silenced: heard.silenced.part(word),
        };
    }
    noise
}
