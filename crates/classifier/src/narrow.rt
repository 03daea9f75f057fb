// The last lanes of four words, simulated in one.
ghost use Rattle.std.specs.Prelude.{◌≡◌, ◌<◌, ◌+◌, ◌*◌, ℕ, IfOk, slice_index_or, true};
ghost use Rattle.circuit.specs.Order.{IsOrder};
ghost use Rattle.fm_base.specs.Planes.{bit};
ghost use Rattle.differential_kernel.specs.Picked.{ArePicks, bit_at_place, place_in};
ghost use Rattle.golden_difference.specs.Lanes.{IsMadeFor};
ghost use Rattle.classifier.specs.InRun.{in_run};
ghost use Rattle.classifier.specs.Narrowed.{GoOnIn, narrow_in_run};
ghost use Rattle.classifier.specs.Noise.{noise_at};

use crate::followed::Followed;
use crate::noise::{Heard, Noise, SILENT};
use crate::points::{differ_in, hear};
use circuit::netlist::Netlist;
use circuit::parts::NetId;
use differential_kernel::{DifferentialLanes, Picks};
use fm_base::Steps;
use lane_words::Word;
use netlist_levels::Order;
use room::NoRoom;
use std::alloc::Global;
use std::sync::ledger::Ledger;
use testbench::Testbench;

// The planes of four words of lanes, of which the bits stand at their places.
fn spread_bits(picks: &Picks, bits: u64) -> [u64; 4]
    ensures bits { (word k : ℕ) → word < 4 → k < 64 → bit (slice_index_or result word 0) k ≡ bit_at_place bits (place_in picks.now (word * 64 + k)) }
    ensures sound { ArePicks picks.now }
{
    let _few = picks.count();
    let mut planes = [0; 4];
    for word in 0..4 {
        planes[word as usize] = picks.spread(word, bits);
    }
    planes
}

// The alarms of four words of lanes, of which the bits stand at their places.
fn spread_noise(picks: &Picks, heard: &Heard<u64>) -> [Noise; 4]
    ensures raised { (word k : ℕ) → word < 4 → k < 64 → bit (noise_at result word).raised k ≡ bit_at_place heard.now.raised (place_in picks.now (word * 64 + k)) }
    ensures silenced { (word k : ℕ) → word < 4 → k < 64 → bit (noise_at result word).silenced k ≡ bit_at_place heard.now.silenced (place_in picks.now (word * 64 + k)) }
    ensures sound { ArePicks picks.now }
{
    let _few = picks.count();
    let mut noise = [SILENT; 4];
    for word in 0..4 {
        noise[word as usize] = Noise {
            raised: picks.spread(word, heard.raised),
            silenced: picks.spread(word, heard.silenced),
        };
    }
    noise
}

/// What goes on with the last lanes of four words in one word, where each has its place. No call but `new` takes memory.
#[derive(Drop)]
pub struct Narrow {
    pub lanes: DifferentialLanes,
    pub picks: Picks,
}

impl Narrow {
    /// One word for a netlist and an order of its tables, which goes on with no lane yet.
    pub fn new(alloc: Global, netlist: &Netlist, order: &Order) -> Result<Self, NoRoom>
        requires { IsOrder netlist.now order.now }
        ensures { IfOk result (λ s. IsMadeFor netlist.now order.now s.lanes) }
    {
        Ok(Narrow {
            lanes: DifferentialLanes::new(alloc, netlist, order)?,
            picks: Picks::none(),
        })
    }

    /// Goes on with the lanes of four words that have faults in force, where there are at most 64, and tells whether it does so.
    pub fn take<W: Word>(&mut self, others: &DifferentialLanes<W>) -> bool
        requires four { W.words ≡ 4 }
        requires made { IsMadeFor others.now.circuit others.now.order self.old.lanes }
        ensures made { IsMadeFor self.old.lanes.circuit self.old.lanes.order self.new.lanes }
        ensures goes_on { result ≡ true → GoOnIn (in_run W.lanes W.lane_bit others.now) (narrow_in_run self.new) }
    {
        let Some(picks) = others.few() else {
            return false;
        };
        self.picks = picks;
        self.lanes.take(others, &self.picks);
        true
    }
}

impl Followed for Narrow {
    ghost words = { 4 };

    ghost in_run = { narrow_in_run };

    fn words() -> u32 {
        4
    }

    fn differing(&self, nets: &[NetId]) -> [u64; 4] {
        spread_bits(&self.picks, differ_in(&self.lanes, nets))
    }

    fn noise_in(&self, row: &[u64], nets: &[NetId]) -> [Noise; 4] {
        spread_noise(&self.picks, &hear(&self.lanes, row, nets))
    }

    fn drop_lanes(&mut self, word: u32, out: u64) {
        let out = self.picks.places_of(word, out);
        self.lanes.drop_lanes(0, out);
    }

    fn advance<L: Ledger>(&mut self, bench: &Testbench<'_>, row: &[u64], steps: &mut Steps<L>) {
        bench.advance(row, &mut self.lanes, steps);
    }

    fn is_over(&self) -> bool {
        let _few = self.picks.count();
        self.lanes.is_over()
    }
}
