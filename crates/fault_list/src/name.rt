// The names of faults.
ghost use Rattle.std.specs.Prelude.{◌≡◌, ◌≤◌, ◌++◌, OnOk, OnErr, decimal};
ghost use Rattle.fault_list.specs.Faults.{fault_name, net_of_fault};
ghost use Rattle.fm_shelf.specs.Sink.{Sends};

use circuit::netlist::Netlist;
use circuit::parts::{Fault, NetId};
use fm_shelf::shelf::{Failed, Sink};
use fm_shelf::whole::write_pieces;
use itoa::Buffer;

/// The net that a fault is on; for a flip the latch's output net.
pub fn net_of(net: &Netlist, fault: Fault) -> NetId
    ensures { result.0 ≡ net_of_fault net.now fault }
{
    match fault {
        Fault::Stuck(n, _) => n,
        Fault::Pulse(n, _) => n,
        Fault::Flip(latch, _) => match net.latches().get(latch as usize) {
            Some(latch) => latch.to,
            None => NetId(0),
        },
    }
}

// Writes a name, a sign, and a cycle.
fn write_cycle<O: Sink>(name: &[u8], sign: &[u8], cycle: u32, out: &mut O) -> Result<(), Failed>
    ensures { Sends (O.seen out.old) (O.seen out.new) (name.now ++ (sign.now ++ decimal cycle)) result }
{
    let mut buffer = Buffer::new();
    write_pieces(out, &[name, sign, buffer.format(cycle).as_bytes()])
}

/// Writes the name of a fault of a netlist.
pub(crate) fn write_fault<O: Sink>(net: &Netlist, fault: Fault, out: &mut O) -> Result<(), Failed>
    ensures { Sends (O.seen out.old) (O.seen out.new) (fault_name net.now fault) result }
{
    let name = net.name(net_of(net, fault));
    match fault {
        Fault::Stuck(_, false) => write_pieces(out, &[name, b"/0"]),
        Fault::Stuck(_, true) => write_pieces(out, &[name, b"/1"]),
        Fault::Flip(_, cycle) => write_cycle(name, b"^", cycle, out),
        Fault::Pulse(_, cycle) => write_cycle(name, b"~", cycle, out),
    }
}
