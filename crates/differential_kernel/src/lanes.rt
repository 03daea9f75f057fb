// As many faulty circuits as a word has bits, beside the golden run, cycle by cycle.
ghost use Rattle.std.specs.Prelude.{◌≡◌, ◌≢◌, ◌<◌, ◌≤◌, ◌+◌, ◌*◌, ◌⊎◌, ◌++◌, ◌∷◌, [], ℕ, Bool, true, false, List, IfOk, IfSome, None, length};
ghost use Rattle.circuit.specs.Order.{IsOrder};
ghost use Rattle.circuit.specs.Trace.{trace};
ghost use Rattle.fm_base.specs.Planes.{bit};
ghost use Rattle.golden_difference.specs.Beside.{AreBeside, AreBetween, DoNothing, IsGoldenRow, IsOver, IsStateOf, trace_differs};
ghost use Rattle.golden_difference.specs.Lanes.{AreBare, IsMadeFor, KeepsLoads};
ghost use Rattle.lane_words.specs.Loads.{loaded_faults, somes};
ghost use Rattle.place_set.specs.Places.{has};
ghost use Rattle.differential_kernel.specs.Picked.{AreBelow, ArePicks, lane_at, place_in};

use crate::cone::Cone;
use crate::cycle::advance;
use crate::difference::golden_word;
use crate::drop::{keep_lanes, keep_nets, unload};
use crate::flip::flip;
use crate::force::Forces;
use crate::golden_cycle::GoldenCycle;
use crate::group::{keep_state, put_state};
use crate::latches::LatchDifferences;
use crate::note::{has_some_stuck, prepare};
use crate::pace::Pace;
use crate::picks::Picks;
use crate::program::Program;
use crate::shown::ShownNets;
use crate::sources::clear;
use crate::take::{take_faults, take_nets, take_words};
use circuit::netlist::Netlist;
use circuit::parts::{Fault, NetId};
use fanout::Fanout;
use fm_base::Steps;
use lane_words::arm::{no_faults, place};
use lane_words::{Quad, Word};
use netlist_levels::Order;
use place_set::PlaceSet;
use room::NoRoom;
use std::alloc::Global;
use std::marker::Model;
use std::snapshot::Snapshot;
use std::sync::ledger::Ledger;

// The number of cycles that there may be since the start.
const MOST_CYCLES: u32 = 65536;

/// Simulations of one netlist, one in each lane, which stand between two cycles and hold what differs from the golden run: 64 in one
/// word, or with `Quad` 256 in four, where lane k of a word is the lane of number 64 * word + k. No call but `new` takes memory.
#[derive(Drop)]
pub struct DifferentialLanes<W: Word = u64> {
    circuit: Snapshot<Netlist>,
    order: Snapshot<Order>,
    program: Program<W>,
    loads: Vec<[Option<Fault>; 2]>,
    // The faults that are in force: none in lanes that were dropped.
    in_force: Vec<[Option<Fault>; 2]>,
    // Whether all that was loaded is in force.
    whole: bool,
    // Whether the nets of the faults are named, and the cycles in which flips and pulses act are in `acts`.
    noted: bool,
    acts: PlaceSet,
    // Whether one of them is stuck-at, where they are noted.
    stuck: bool,
    forces: Forces<W>,
    stale: bool,
    cycle: u32,
    // What the faults of a run can reach, and how long cycles are run by all tables of it.
    pace: Pace,
    latches: LatchDifferences<W>,
    nets: ShownNets<W>,
}

/// 256 simulations in four words.
pub type DifferentialLanes4 = DifferentialLanes<Quad>;

impl<W: Word> Model for DifferentialLanes<W> {
    ghost use Rattle.golden_difference.specs.Lanes.{Lanes};

    ghost Value = { Lanes W };

    ghost use Rattle.differential_kernel.specs.Kernel.{IsDifferenceKernel, lanes_of};

    ghost view = { lanes_of W.lanes W.lane_bit };

    ghost invariant = { IsDifferenceKernel W.lanes W.lane_bit };
}

// Whether a set has no place from a place on.
fn is_empty_from(set: &PlaceSet, from: usize) -> bool
    ensures { result ≡ true → (p : ℕ) → from ≤ p → has set.now p ≡ false }
{
    match set.next_from(from) {
        Some(_) => false,
        None => true,
    }
}

impl<W: Word> DifferentialLanes<W> {
    /// Lanes for a netlist and an order of its tables, without faults and not yet started.
    pub fn new(alloc: Global, netlist: &Netlist, order: &Order) -> Result<Self, NoRoom>
        requires { IsOrder netlist.now order.now }
        ensures made { IfOk result (λ lanes. IsMadeFor netlist.now order.now lanes) }
        ensures bare { IfOk result (λ lanes. AreBare lanes) }
    {
        let net_count = netlist.nets();
        let latch_count = netlist.latches().len();
        let table_count = order.nets().len();
        let program = Program::new(alloc, netlist, order.nets())?;
        let loads = no_faults(alloc, W::count())?;
        let in_force = no_faults(alloc, W::count())?;
        let acts = PlaceSet::new(alloc, MOST_CYCLES)?;
        let forces = Forces::new(alloc, net_count)?;
        let latches = LatchDifferences::new(alloc, latch_count)?;
        let nets = ShownNets::new(alloc, net_count, table_count + latch_count)?;
        let cone = Cone::new(alloc, net_count, table_count, latch_count)?;
        Ok(DifferentialLanes {
            circuit: Snapshot::of(netlist),
            order: Snapshot::of(order),
            program,
            loads,
            in_force,
            whole: false,
            noted: false,
            acts,
            stuck: false,
            forces,
            stale: true,
            cycle: 0,
            pace: Pace::new(cone),
            latches,
            nets,
        })
    }

    /// Gives each lane of a word up to two faults, and leaves the other words as they are loaded. The lanes have to be started anew.
    pub fn load(&mut self, word: u32, faults: &[[Option<Fault>; 2]; 64])
        requires { word < W.words }
        ensures made { IsMadeFor self.old.circuit self.old.order self.new }
        ensures loads { (k : ℕ) → k < 64 → loaded_faults self.new.loads (word * 64 + k) ≡ loaded_faults faults.now k }
        ensures others { (j : ℕ) → (j < word * 64) ⊎ (word * 64 + 64 ≤ j) → loaded_faults self.new.loads j ≡ loaded_faults self.old.loads j }
    {
        place(&mut self.loads, word as usize * 64, faults);
        self.whole = false;
    }

    // Puts all that was loaded in force.
    fn take_loads(&mut self)
        ensures keeps { KeepsLoads self.old self.new }
        ensures in_force { self.new.in_force ≡ self.new.loads }
    {
        if !self.whole {
            self.in_force.copy_from_slice(&self.loads);
            self.noted = false;
            self.whole = true;
        }
    }

    /// Goes to the initial state in all lanes, before the cycle of number 0.
    pub fn start(&mut self)
        ensures keeps { KeepsLoads self.old self.new }
        // All that was loaded is in force.
        ensures in_force { self.new.in_force ≡ self.new.loads }
        ensures cycle { self.new.cycle ≡ 0 }
        // No cycle was simulated yet.
        ensures start { AreBeside W.lanes W.lane_bit [] self.new }
    {
        self.take_loads();
        clear(&mut self.latches.live, &mut self.latches.raw);
        self.cycle = 0;
        self.pace.begin();
    }

    // Drops the lanes whose bit is set, in all words.
    fn take_out(&mut self, out: W)
        ensures keeps { KeepsLoads self.old self.new }
        ensures cycle { self.new.cycle ≡ self.old.cycle }
        ensures dropped { (k : ℕ) → k < W.lanes → W.lane_bit out k ≡ true → loaded_faults self.new.in_force k ≡ [] }
        ensures others { (k : ℕ) → k < W.lanes → W.lane_bit out k ≡ false → loaded_faults self.new.in_force k ≡ loaded_faults self.old.in_force k }
        ensures beside { (vectors : List (List Bool)) → AreBeside W.lanes W.lane_bit vectors self.old → AreBeside W.lanes W.lane_bit vectors self.new }
    {
        unload(out, &mut self.in_force);
        keep_lanes(out, &self.latches.live, &mut self.latches.raw);
        keep_nets(out, &mut self.nets);
        self.noted = false;
        self.whole = false;
    }

    /// Drops the lanes of a word whose bit is set: until the next start none of their faults is in force, and nothing differs in
    /// them.
    pub fn drop_lanes(&mut self, word: u32, out: u64)
        requires { word < W.words }
        ensures keeps { KeepsLoads self.old self.new }
        ensures cycle { self.new.cycle ≡ self.old.cycle }
        ensures dropped { (k : ℕ) → k < 64 → bit out k ≡ true → loaded_faults self.new.in_force (word * 64 + k) ≡ [] }
        ensures others { (other k : ℕ) → other < W.words → k < 64 → (other ≢ word) ⊎ (bit out k ≡ false)
            → loaded_faults self.new.in_force (other * 64 + k) ≡ loaded_faults self.old.in_force (other * 64 + k) }
        ensures beside { (vectors : List (List Bool)) → AreBeside W.lanes W.lane_bit vectors self.old → AreBeside W.lanes W.lane_bit vectors self.new }
    {
        self.take_out(W::of_part(word, out));
    }

    /// Empties all lanes before a cycle: none has a fault in force, so each stands there as the golden run does.
    pub fn empty(&mut self, cycle: u32)
        ensures keeps { KeepsLoads self.old self.new }
        ensures cycle { self.new.cycle ≡ cycle }
        ensures none { (k : ℕ) → k < W.lanes → loaded_faults self.new.in_force k ≡ [] }
        ensures between { (vectors : List (List Bool)) → length vectors ≡ cycle → AreBetween W.lanes W.lane_bit vectors self.new }
    {
        unload(W::all(true), &mut self.in_force);
        clear(&mut self.latches.live, &mut self.latches.raw);
        self.noted = false;
        self.whole = false;
        self.cycle = cycle;
        self.pace.begin();
    }

    /// Puts up to two faults in force in a lane that has none, which goes on from a state: the latches that differ are those of the set.
    pub fn put(&mut self, lane: u32, faults: [Option<Fault>; 2], state: &PlaceSet)
        requires lane { lane < W.lanes }
        requires bound { state.now.bound ≡ length self.old.circuit.latches }
        requires empty { loaded_faults self.old.in_force lane ≡ [] }
        ensures keeps { KeepsLoads self.old self.new }
        ensures cycle { self.new.cycle ≡ self.old.cycle }
        ensures own { loaded_faults self.new.in_force lane ≡ somes faults }
        ensures others { (k : ℕ) → k ≢ lane → loaded_faults self.new.in_force k ≡ loaded_faults self.old.in_force k }
        ensures between { (vectors : List (List Bool)) → AreBetween W.lanes W.lane_bit vectors self.old
            → IsStateOf self.old.circuit (somes faults) vectors state.now → AreBetween W.lanes W.lane_bit vectors self.new }
    {
        self.in_force[lane as usize] = faults;
        put_state(lane, state, &mut self.latches);
        self.noted = false;
        self.whole = false;
    }

    /// Keeps the state of a lane: the latches that differ.
    pub fn keep(&self, lane: u32, state: &mut PlaceSet)
        requires lane { lane < W.lanes }
        requires bound { state.old.bound ≡ length self.now.circuit.latches }
        ensures bound { state.new.bound ≡ state.old.bound }
        ensures state { (vectors : List (List Bool)) → AreBetween W.lanes W.lane_bit vectors self.now
            → IsStateOf self.now.circuit (loaded_faults self.now.in_force lane) vectors state.new }
    {
        keep_state(lane, &self.latches, state);
    }

    /// The lanes in which faults are in force, where there are at most 64.
    pub fn few(&self) -> Option<Picks>
        ensures sound { IfSome result ArePicks }
        ensures below { IfSome result (AreBelow W.lanes) }
        ensures rest { IfSome result (λ picks. (lane : ℕ) → lane < W.lanes → place_in picks lane ≡ None → loaded_faults self.now.in_force lane ≡ []) }
    {
        let _few = W::words();
        Picks::of(&self.in_force)
    }

    /// Goes on with these lanes of another simulation as they stand, one behind the other; until the next start no fault is in
    /// force in those behind them.
    pub fn take<V: Word>(&mut self, other: &DifferentialLanes<V>, picks: &Picks)
        requires made { IsMadeFor other.now.circuit other.now.order self.old }
        requires few { picks.now.count ≤ W.lanes }
        requires below { AreBelow V.lanes picks.now }
        ensures keeps { KeepsLoads self.old self.new }
        ensures cycle { self.new.cycle ≡ other.now.cycle }
        ensures taken { (place : ℕ) → place < picks.now.count → loaded_faults self.new.in_force place ≡ loaded_faults other.now.in_force (lane_at picks.now place) }
        ensures rest { (place : ℕ) → picks.now.count ≤ place → loaded_faults self.new.in_force place ≡ [] }
        ensures beside { (vectors : List (List Bool)) → AreBeside V.lanes V.lane_bit vectors other.now → AreBeside W.lanes W.lane_bit vectors self.new }
    {
        let _some = V::words();
        let _few = W::words();
        take_faults(picks, &other.in_force, &mut self.in_force);
        take_words(
            picks,
            &other.latches.live,
            &other.latches.raw,
            &mut self.latches.live,
            &mut self.latches.raw,
        );
        take_nets(
            picks,
            &other.nets,
            &mut self.nets.own.touched,
            &mut self.nets.own.words,
        );
        self.nets.swept = false;
        self.noted = false;
        self.whole = false;
        self.cycle = other.cycle;
        self.pace.begin();
    }

    /// Simulates the next cycle in all lanes, where `row` has the golden value of each net in this cycle. There can be 65,536
    /// cycles since the start.
    pub fn cycle<L: Ledger>(
        &mut self,
        netlist: &Netlist,
        order: &Order,
        fanout: &Fanout,
        row: &[u64],
        steps: &mut Steps<L>,
    )
        requires made { IsMadeFor netlist.now order.now self.old }
        requires fanout { fanout.now ≡ record { circuit = netlist.now; order = order.now } }
        requires few { self.old.cycle < 65536 }
        ensures keeps { KeepsLoads self.old self.new }
        ensures in_force { self.new.in_force ≡ self.old.in_force }
        ensures cycle { self.new.cycle ≡ self.old.cycle + 1 }
        // After cycles with some vectors, each lane is after those and this one, with its own faults in force alone.
        ensures step { (vectors : List (List Bool)) (inputs : List Bool) → AreBetween W.lanes W.lane_bit vectors self.old
            → IsGoldenRow netlist.now (vectors ++ inputs ∷ []) (length vectors) row.now → AreBeside W.lanes W.lane_bit (vectors ++ inputs ∷ []) self.new }
        // At most one step for each table, for all words together.
        ensures cost { steps.new ≤ steps.old + length netlist.now.tables }
    {
        self.stuck = has_some_stuck(&self.in_force, self.noted, self.stuck);
        self.stale = prepare(
            &self.in_force,
            self.noted,
            self.stale,
            self.cycle,
            &mut self.acts,
            &mut self.forces,
        );
        self.noted = true;
        let acting = self.acts.has(self.cycle as usize);
        flip(&self.in_force, acting, self.cycle, &mut self.latches);
        advance(
            &GoldenCycle {
                netlist,
                order: order.nets(),
                fanout,
                row,
            },
            &self.program,
            &self.in_force,
            &self.forces,
            &mut self.pace,
            &mut self.latches,
            &mut self.nets,
            steps,
        );
        self.cycle += 1;
    }

    // Whether no fault in force acts in this cycle or in a later one.
    fn is_calm(&self) -> bool
        ensures { (k t : ℕ) → result ≡ true → self.now.cycle ≤ t → t < 65536 → DoNothing (loaded_faults self.now.in_force k) t }
    {
        self.noted && !self.stuck && is_empty_from(&self.acts, self.cycle as usize)
    }

    /// Whether the run is over: no latch differs, and no fault in force changes anything any more. It may be so where the answer is
    /// no.
    pub fn is_over(&self) -> bool
        // After cycles with these vectors: in no later cycle does a net differ, in any lane.
        ensures { (vectors : List (List Bool)) (k : ℕ) → result ≡ true → AreBeside W.lanes W.lane_bit vectors self.now → k < W.lanes
            → IsOver self.now.circuit (loaded_faults self.now.in_force k) vectors 65536 }
    {
        self.is_calm() && is_empty_from(&self.latches.live, 0)
    }

    /// The value of a net in the cycle that was simulated last, in each lane of a word, where `row` has the golden values of that
    /// cycle.
    pub fn net(&self, net: NetId, word: u32, row: &[u64]) -> u64
        requires { word < W.words }
        // After cycles with these vectors, t being the last: bit k is the net's trace under the faults in force in lane k of the word alone.
        ensures { (vectors : List (List Bool)) (t k : ℕ) → AreBeside W.lanes W.lane_bit vectors self.now → IsGoldenRow self.now.circuit vectors t row.now
            → t + 1 ≡ length vectors → k < 64 → net.0 < length self.now.circuit.drivers
            → bit result k ≡ trace self.now.circuit (loaded_faults self.now.in_force (word * 64 + k)) vectors t net.0 }
    {
        let golden: W = golden_word(row, net.0);
        golden.xor(self.nets.difference(net.0 as usize)).part(word)
    }

    /// The lanes, in all words, in which a net has another value than in the golden run, in the cycle that was simulated last.
    pub fn difference(&self, net: NetId) -> W
        ensures { (vectors : List (List Bool)) (t k : ℕ) → AreBeside W.lanes W.lane_bit vectors self.now → t + 1 ≡ length vectors → k < W.lanes
            → net.0 < length self.now.circuit.drivers
            → W.lane_bit result k ≡ trace_differs self.now.circuit (loaded_faults self.now.in_force k) vectors t net.0 }
    {
        self.nets.difference(net.0 as usize)
    }

    /// The lanes of a word in which a net has another value than in the golden run, in the cycle that was simulated last.
    pub fn differs(&self, net: NetId, word: u32) -> u64
        requires { word < W.words }
        ensures { (vectors : List (List Bool)) (t k : ℕ) → AreBeside W.lanes W.lane_bit vectors self.now → t + 1 ≡ length vectors → k < 64
            → net.0 < length self.now.circuit.drivers
            → bit result k ≡ trace_differs self.now.circuit (loaded_faults self.now.in_force (word * 64 + k)) vectors t net.0 }
    {
        self.difference(net).part(word)
    }
}
