// The faults of a netlist, in order, and their batches of 64 lanes.
#![tactic(auto)]

ghost use Rattle.std.specs.Prelude.{◌≡◌, ◌<◌, ◌≤◌, ◌+◌, ◌*◌, ◌/◌, ◌%◌, ◌^◌, ◌-◌, min, length, slice_index, IfOk, OnOk, OnErr};
ghost use Rattle.fault_list.specs.declared.FaultRefusal.TheVariants.{Memory};
ghost use Rattle.fault_list.specs.Answers.{AnswersFaults};
ghost use Rattle.fault_list.specs.Faults.{AreCycles, batches_for, fault_at, fault_in_lane, fault_name, faults_for, faults_of, used_plane};
ghost use Rattle.fault_list.specs.Kept.{IsShort, count_for, most_faults, most_flips};
ghost use Rattle.fm_base.specs.Planes.{lanes};
ghost use Rattle.fm_shelf.specs.Sink.{Sends};

mod name;
mod stretch;

use circuit::netlist::Netlist;
use circuit::parts::{Fault, NetId};
use fm_base::Seq;
use fm_shelf::shelf::{Failed, Sink};
pub use name::net_of;
use room::{NoRoom, from_slice};
use std::alloc::Global;
use std::marker::Model;
pub use stretch::Stretch;

const MOST_FAULTS: u64 = 1 << 20;

const LANES: u64 = 64;

/// The numbers of cycles, of flips or of pulses.
pub type Flips = Seq<u32>;

/// The faults of a netlist, in order. They aren't stored: each is computed from its number.
#[derive(Drop)]
pub struct FaultList {
    nets: u32,
    latches: u32,
    flips: Flips,
    pulses: Flips,
}

impl Model for FaultList {
    ghost use Rattle.std.specs.Prelude.{List};
    ghost use Rattle.circuit.specs.declared.parts.Fault.{Fault};
    ghost use Rattle.fault_list.specs.Faults.{faults_for};
    ghost use Rattle.fault_list.specs.Kept.{IsShort};

    ghost Value = { List Fault };

    ghost view = { λ f. faults_for f.nets f.latches f.flips f.pulses };

    ghost invariant = { λ f. IsShort f.nets f.latches f.flips f.pulses };
}

/// Why there is no fault list.
#[derive(Clone, Copy, Debug, PartialEq, Eq)]
pub enum FaultRefusal {
    /// There would be more than 1,048,576 faults.
    TooMany,
    /// Memory ran out.
    Memory(NoRoom),
}

impl From<NoRoom> for FaultRefusal {
    ghost from_gives = { λ no_room e. e ≡ Memory no_room };

    fn from(e: NoRoom) -> Self {
        FaultRefusal::Memory(e)
    }
}

// In a table of rows that are as long as the list of cycles: the row of place i, and the cycle there.
fn row_and_cycle(cycles: &[u32], i: u32) -> (u32, u32)
    requires some { 0 < length cycles.now }
    requires few { length cycles.now ≤ most_flips }
    ensures row { result.0 ≡ i / length cycles.now }
    ensures cycle { result.1 ≡ slice_index cycles.now (i % length cycles.now) }
{
    let width = cycles.len() as u32;
    (i / width, cycles[(i % width) as usize])
}

// The number of faults.
fn count(nets: u32, latches: u32, flips: &[u32], pulses: &[u32]) -> u64
    requires nets { nets ≤ 2 ^ 18 }
    requires latches { latches ≤ 2 ^ 18 }
    requires flips { length flips.now ≤ most_flips }
    requires pulses { length pulses.now ≤ 4 }
    ensures { result ≡ count_for nets latches flips.now pulses.now }
{
    let stuck = u64::from(nets) * 2;
    let flipped = u64::from(latches) * flips.len() as u64;
    stuck + flipped + u64::from(nets) * pulses.len() as u64
}

impl FaultList {
    /// The faults of a netlist, with a flip of each latch and a pulse on each net in these cycles: at most 65,536 and
    /// 4 cycles, strictly rising, each at most 65,535.
    pub fn new(
        alloc: Global,
        net: &Netlist,
        flips: &[u32],
        pulses: &[u32],
    ) -> Result<FaultList, FaultRefusal>
        requires flips { AreCycles most_flips flips.now }
        requires pulses { AreCycles 4 pulses.now }
        ensures { AnswersFaults (faults_of net.now flips.now pulses.now) result }
    {
        let nets = net.nets() as u32;
        let latches = net.latches().len() as u32;
        if count(nets, latches, flips, pulses) > MOST_FAULTS {
            return Err(FaultRefusal::TooMany);
        }
        Ok(FaultList::of(alloc, nets, latches, flips, pulses)?)
    }

    // The list for so many nets and latches.
    fn of(
        alloc: Global,
        nets: u32,
        latches: u32,
        flips: &[u32],
        pulses: &[u32],
    ) -> Result<FaultList, NoRoom>
        requires { IsShort nets latches flips.now pulses.now }
        ensures { IfOk result (λ list. list ≡ faults_for nets latches flips.now pulses.now) }
    {
        Ok(FaultList {
            nets,
            latches,
            flips: Seq::from_vec(from_slice(alloc, flips)?),
            pulses: Seq::from_vec(from_slice(alloc, pulses)?),
        })
    }

    /// The number of faults.
    pub fn len(&self) -> u32
        ensures count { result ≡ length self.now }
        ensures few { length self.now ≤ most_faults }
    {
        count(
            self.nets,
            self.latches,
            self.flips.as_slice(),
            self.pulses.as_slice(),
        ) as u32
    }

    /// The number of batches of 64 faults; the last may have fewer.
    pub fn batches(&self) -> u32
        ensures { result ≡ batches_for (length self.now) }
    {
        self.len().div_ceil(LANES as u32)
    }

    /// The fault of a number, from 0.
    pub fn fault(&self, i: u32) -> Fault
        requires { i < length self.now }
        ensures { result ≡ fault_at self.now i }
    {
        let stuck = self.nets * 2;
        if i < stuck {
            return Fault::Stuck(NetId(i / 2), i % 2 == 1);
        }
        let flipped = self.latches * self.flips.len() as u32;
        if i - stuck < flipped {
            let (latch, cycle) = row_and_cycle(self.flips.as_slice(), i - stuck);
            return Fault::Flip(latch, cycle);
        }
        let (net, cycle) = row_and_cycle(self.pulses.as_slice(), i - stuck - flipped);
        Fault::Pulse(NetId(net), cycle)
    }

    /// The fault in a lane of a batch, where there is a batch and the lane holds a fault: lane k of batch b is fault 64b + k.
    pub fn in_lane(&self, batch: Option<u32>, lane: u32) -> Option<Fault>
        ensures { result ≡ fault_in_lane self.now batch lane }
    {
        let number = LANES * u64::from(batch?) + u64::from(lane);
        if number < u64::from(self.len()) {
            Some(self.fault(number as u32))
        } else {
            None
        }
    }

    /// Writes the name of a fault of this netlist: that of its net, then `/0` or `/1` for a stuck-at fault, `^` and the
    /// cycle for a flip, `~` and the cycle for a pulse.
    pub fn write_name<O: Sink>(&self, net: &Netlist, i: u32, out: &mut O) -> Result<(), Failed>
        requires { i < length self.now }
        ensures { Sends (O.seen out.old) (O.seen out.new) (fault_name net.now (fault_at self.now i)) result }
    {
        name::write_fault(net, self.fault(i), out)
    }

    /// The lanes of a batch that hold faults, as a plane: the bit of value 2^k is that of lane k.
    pub fn used(&self, batch: u32) -> u64
        ensures { result ≡ used_plane (length self.now) batch }
    {
        lanes_before(u64::from(self.len()).saturating_sub(LANES * u64::from(batch)))
    }
}

// The plane of the first lanes, of which there are 64.
fn lanes_before(count: u64) -> u64
    ensures { result ≡ 2 ^ min lanes count - 1 }
{
    if count < LANES {
        (1 << count) - 1
    } else {
        u64::MAX
    }
}
