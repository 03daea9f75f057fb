// A circuit with a latch, by hand: y is e where the latch holds 0, and the inverse of e where it holds 1; the latch q takes y, and
// starts with 0. So q is what y was in the cycle before.
use circuit::parts::{Fault, NetId};

const E: NetId = NetId(0);

/// The net that the latch takes.
pub const Y: NetId = NetId(1);

const Q: NetId = NetId(2);

/// The bit of e in each of four cycles.
pub const INPUTS: [bool; 4] = [true, true, false, true];

/// How many rows the table has.
pub const ROWS: usize = 13;

/// Up to two faults, and the bits of e, y and q under them, cycle after cycle.
#[derive(Clone, Copy)]
pub struct Row {
    pub faults: [Option<Fault>; 2],
    pub bits: u32,
}

fn one(fault: Fault, bits: u32) -> Row {
    Row {
        faults: [Some(fault), None],
        bits,
    }
}

fn two(first: Fault, second: Fault, bits: u32) -> Row {
    Row {
        faults: [Some(first), Some(second)],
        bits,
    }
}

/// The table.
pub fn rows() -> [Row; ROWS] {
    [
        // Without a fault: q is 0, 1, 0, 0.
        Row {
            faults: [None, None],
            bits: 0b110_101_000_110,
        },
        // y is the inverse of e.
        one(Fault::Stuck(Q, true), 0b101_101_011_101),
        one(Fault::Stuck(E, false), 0b000_000_000_000),
        one(Fault::Stuck(Y, true), 0b110_111_011_111),
        // q starts with 1, and in the cycles after it is what y was.
        one(Fault::Flip(0, 0), 0b101_110_011_101),
        // In cycle 2 q is 1 in place of 0, so y is 1, and q stays 1.
        one(Fault::Flip(0, 2), 0b110_101_011_101),
        // In cycle 1 y is 1 in place of 0, and the latch takes it.
        one(Fault::Pulse(Y, 1), 0b110_111_011_101),
        // In cycle 1 q is shown as 0, so y is 1, which the latch takes.
        one(Fault::Pulse(Q, 1), 0b110_110_011_101),
        one(Fault::Pulse(E, 0), 0b000_110_011_101),
        // A pulse that comes twice inverts once.
        two(Fault::Pulse(Y, 1), Fault::Pulse(Y, 1), 0b110_111_011_101),
        // The first of two stuck-at faults decides: y is e.
        two(
            Fault::Stuck(Q, false),
            Fault::Stuck(Q, true),
            0b110_110_000_110,
        ),
        // A stuck-at fault hides a pulse and a flip of its net.
        two(
            Fault::Pulse(Q, 1),
            Fault::Stuck(Q, false),
            0b110_110_000_110,
        ),
        two(Fault::Flip(0, 2), Fault::Stuck(Q, true), 0b101_101_011_101),
    ]
}
