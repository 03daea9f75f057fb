// The values of all nets by the definition alone, cycle after cycle.
use crate::hand::{INPUTS, Y};
use circuit::evaluate::value_within;
use circuit::meaning::{bit, is_flipped, turned};
use circuit::netlist::Netlist;
use circuit::parts::{Fault, NetId};
use room::{NoRoom, push};
use std::alloc::Global;

fn values_in(
    alloc: Global,
    net: &Netlist,
    faults: &[Fault],
    cycle: u32,
    state: &[bool],
    inputs: &[bool],
) -> Result<Vec<bool>, NoRoom> {
    let depth = net.tables().saturating_add(1);
    let mut values = Vec::new(alloc);
    for n in 0..net.nets() as u32 {
        push(
            &mut values,
            value_within(alloc, net, faults, cycle, state, inputs, depth, NetId(n))?,
        )?;
    }
    Ok(values)
}

// Bits behind those of a number.
fn with_bits(number: u32, bits: &[bool]) -> u32 {
    let mut longer = number;
    for bit in bits {
        longer = longer << 1 | *bit as u32;
    }
    longer
}

/// The bits of the nets in all cycles.
pub fn plain_bits(alloc: Global, net: &Netlist, faults: &[Fault]) -> Result<u32, NoRoom> {
    let mut bits = 0;
    let mut values = Vec::new(alloc);
    for cycle in 0..4 {
        // The latch has what y was; before the first cycle there is no value, and it starts with 0.
        let raw = bit(values.as_slice(), Y.0);
        let state = [turned(is_flipped(faults, 0, cycle), raw)];
        values = values_in(alloc, net, faults, cycle, &state, &[INPUTS[cycle as usize]])?;
        bits = with_bits(bits, values.as_slice());
    }
    Ok(bits)
}
