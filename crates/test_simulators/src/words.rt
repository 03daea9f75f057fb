// The values of all nets by 64 lanes in a word, and by four words.
ghost use Rattle.std.specs.Prelude.{◌<◌};
ghost use Rattle.circuit.specs.Order.{IsOrder};

use crate::hand::{INPUTS, ROWS, Row};
use circuit::netlist::Netlist;
use circuit::parts::{Fault, NetId};
use fm_base::Steps;
use lane_kernel::{Lanes, Lanes4};
use netlist_levels::Order;
use room::NoRoom;
use std::alloc::Global;
use std::sync::ledger::Ledger;

/// The faults of the lanes of a word.
type Loads = [[Option<Fault>; 2]; 64];

/// The row of a lane.
pub fn row_of(rows: &[Row; ROWS], word: u32, lane: u32) -> Row
    requires word { word < 4 }
    requires lane { lane < 64 }
{
    rows[(word * 64 + lane) as usize % ROWS]
}

fn loads_of(rows: &[Row; ROWS], word: u32) -> Loads
    requires { word < 4 }
{
    let mut loads = [[None, None]; 64];
    for lane in 0..64 {
        let row = row_of(rows, word, lane);
        let faults = row.faults;
        loads[lane as usize] = faults;
    }
    loads
}

// The bits of a net, behind those of the number of each lane.
fn put_word(word: u64, bits: &mut [u32; 64]) {
    for lane in 0..64 {
        bits[lane] = bits[lane] << 1 | (word >> lane as u32 & 1) as u32;
    }
}

fn put_nets(net: &Netlist, lanes: &Lanes, bits: &mut [u32; 64]) {
    for n in 0..net.nets() as u32 {
        put_word(lanes.net(NetId(n)), bits);
    }
}

fn put_nets_of(net: &Netlist, lanes: &Lanes4, word: u32, bits: &mut [u32; 64])
    requires { word < 4 }
{
    for n in 0..net.nets() as u32 {
        put_word(lanes.net(NetId(n), word), bits);
    }
}

/// The bits of the nets in all cycles, for each lane of a word.
pub fn word_bits<L: Ledger>(
    alloc: Global,
    net: &Netlist,
    order: &Order,
    rows: &[Row; ROWS],
    steps: &mut Steps<L>,
) -> Result<[u32; 64], NoRoom>
    requires { IsOrder net.now order.now }
{
    let mut bits = [0; 64];
    let mut lanes = Lanes::new(alloc, net, order)?;
    lanes.load(&loads_of(rows, 0));
    lanes.start();
    for t in 0..4 {
        lanes.cycle(net, order, &[INPUTS[t]], steps);
        put_nets(net, &lanes, &mut bits);
    }
    Ok(bits)
}

/// The same for each lane of four words.
pub fn four_words_bits<L: Ledger>(
    alloc: Global,
    net: &Netlist,
    order: &Order,
    rows: &[Row; ROWS],
    steps: &mut Steps<L>,
) -> Result<[[u32; 64]; 4], NoRoom>
    requires { IsOrder net.now order.now }
{
    let mut bits = [[0; 64]; 4];
    let mut lanes = Lanes4::new(alloc, net, order)?;
    for word in 0..4 {
        lanes.load(word, &loads_of(rows, word));
    }
    lanes.start();
    for t in 0..4 {
        lanes.cycle(net, order, &[INPUTS[t]], steps);
        put_nets_of(net, &lanes, 0, &mut bits[0]);
        put_nets_of(net, &lanes, 1, &mut bits[1]);
        put_nets_of(net, &lanes, 2, &mut bits[2]);
        put_nets_of(net, &lanes, 3, &mut bits[3]);
    }
    Ok(bits)
}
