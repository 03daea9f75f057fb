// One run, in all lanes.
ghost use Rattle.std.specs.Prelude.{◌≡◌, ◌≤◌, ◌<◌, ◌+◌, ◌++◌, ◌∷◌, ◌^◌, [], ℕ, Bool, List, All, length};
ghost use Rattle.circuit.specs.Sound.{IsNet};
ghost use Rattle.claim_search.specs.Question.{MayBePosed};
ghost use Rattle.fm_base.specs.Planes.{bit};
ghost use Rattle.lane_words.specs.Bank.{AreAfter, IsBankFor, KeepsBankLoads};
ghost use Rattle.lane_words.specs.Loads.{loaded_faults};
ghost use Rattle.counterexamples.specs.Runs.{HasFollowed};

use crate::chance::draw;
use crate::look::{Seen, are_held, look};
use circuit::netlist::Netlist;
use claim_search::Posed;
use fm_base::Steps;
use lane_kernel::Lanes;
use lane_words::Word;
use netlist_levels::Order;
use std::marker::Brand;
use std::sync::ledger::{Blank, Ledger};

// Simulates the next cycle, with a counter of steps that nobody reads.
fn run_next<L: Ledger>(
    netlist: &Netlist,
    order: &Order,
    inputs: &[bool],
    lanes: &mut Lanes,
    blank: Blank,
)
    requires made { IsBankFor netlist.now order.now lanes.old }
    requires few { lanes.old.cycle < 65536 }
    requires blank { (blank.name ≡ L.name) × (blank.parts ≡ L.parts) × (0 < blank.parts) }
    ensures keeps { KeepsBankLoads lanes.old lanes.new }
    ensures cycle { lanes.new.cycle ≡ lanes.old.cycle + 1 }
    ensures step { (vectors : List (List Bool)) → AreAfter 64 bit vectors lanes.old → AreAfter 64 bit (vectors ++ inputs.now ∷ []) lanes.new }
{
    let mut steps: Steps<L> = Steps::fresh(blank);
    lanes.cycle(netlist, order, inputs, &mut steps);
}

// The same with a ledger of its own.
fn advance(netlist: &Netlist, order: &Order, inputs: &[bool], lanes: &mut Lanes)
    requires made { IsBankFor netlist.now order.now lanes.old }
    requires few { lanes.old.cycle < 65536 }
    ensures keeps { KeepsBankLoads lanes.old lanes.new }
    ensures cycle { lanes.new.cycle ≡ lanes.old.cycle + 1 }
    ensures step { (vectors : List (List Bool)) → AreAfter 64 bit vectors lanes.old → AreAfter 64 bit (vectors ++ inputs.now ∷ []) lanes.new }
{
    run_next::<Brand>(netlist, order, inputs, lanes, Blank::new(1));
}

/// Follows a run that is told by numbers, from the first cycle on, and answers how many cycles it has: as many as there are numbers, but it
/// ends before one in which lane 0 raises an alarm, or an input isn't as it is held.
pub(crate) fn follow(
    netlist: &Netlist,
    order: &Order,
    posed: &Posed<'_>,
    numbers: &[u32],
    inputs: &mut [bool],
    lanes: &mut Lanes,
    seen: &mut [Seen],
) -> usize
    requires posed { MayBePosed netlist.now posed.now }
    requires nets { All (λ h. IsNet netlist.now h.net) posed.now.held.now }
    requires made { IsBankFor netlist.now order.now lanes.old }
    requires golden { loaded_faults lanes.old.loads 0 ≡ [] }
    requires few { length seen.old ≤ 65536 }
    requires numbers { length seen.old ≡ length numbers.now }
    ensures keeps { KeepsBankLoads lanes.old lanes.new }
    ensures size { length seen.new ≡ length seen.old }
    ensures within { result ≤ length seen.new }
    ensures run { HasFollowed netlist.now posed.now (loaded_faults lanes.old.loads) result seen.new }
{
    lanes.start();
    let mut raised = 0;
    for t in 0..seen.len() {
        let cycle = t as u32;
        draw(numbers[t], netlist, posed.held, cycle, inputs);
        advance(netlist, order, inputs, lanes);
        if !are_held(lanes, posed.held, cycle) {
            return t;
        }
        let now = look(lanes, posed, cycle, raised);
        if now.raised.get(0) {
            return t;
        }
        seen[t] = now;
        raised = now.raised;
    }
    seen.len()
}
