// The netlist of a command, with an order of its tables.
ghost use Rattle.std.specs.Prelude.{◌≡◌, ◌≤◌, ◌^◌, IfOk, length};
ghost use Rattle.bench_reader.specs.Bench.{bench_of};
ghost use Rattle.blif_model.specs.Net.{netlist_of};
ghost use Rattle.circuit.specs.Loop.{HasNoLoop};
ghost use Rattle.circuit.specs.Order.{IsOrder};
ghost use Rattle.refusals.specs.NetlistFile.{is_bench, netlist_in, or_refuse};
ghost use Rattle.refusals.specs.declared.status.Status.TheVariants.{Bench as BenchStatus, Netlist as NetlistStatus};
ghost use Rattle.command_reads.specs.Answers.{AnswersAs, NetTakenAs, OrdersAs};
ghost use Rattle.command_reads.specs.Files.{AreShort, reads_by};

use crate::files::Reads;
use bench_reader::read_bench;
use blif_reader::read_blif;
use circuit::netlist::Netlist;
use commands::Which;
use fm_base::Refusal;
use netlist_levels::{LoopFound, Order, levels};
use refusals::refused::Refused;
use refusals::status::Status;
use std::alloc::Global;

/// A netlist with an order of its tables.
#[derive(Drop)]
pub struct Ordered {
    pub net: Netlist,
    pub order: Order,
}

// The name ends in `.bench`.
fn is_bench_name(name: &str) -> bool
    ensures { result ≡ is_bench name.now }
{
    name.as_bytes().ends_with(b".bench")
}

// The netlist of the bytes of a `.bench` file.
fn bench_from(alloc: Global, bytes: &[u8]) -> Result<Netlist, Status>
    requires { length bytes.now ≤ 2 ^ 26 }
    ensures { AnswersAs (or_refuse BenchStatus (bench_of bytes.now)) result }
{
    match read_bench(alloc, bytes) {
        Ok(net) => Ok(net),
        Err(Refusal::Fault(fault)) => Err(Status::Bench(fault)),
        Err(Refusal::Memory(no_room)) => Err(Status::Memory(no_room)),
    }
}

// The netlist of the bytes of a BLIF file.
fn blif_from(alloc: Global, bytes: &[u8]) -> Result<Netlist, Status>
    requires { length bytes.now ≤ 2 ^ 26 }
    ensures { AnswersAs (or_refuse NetlistStatus (netlist_of bytes.now)) result }
{
    match read_blif(alloc, bytes) {
        Ok(net) => Ok(net),
        Err(Refusal::Fault(fault)) => Err(Status::Netlist(fault)),
        Err(Refusal::Memory(no_room)) => Err(Status::Memory(no_room)),
    }
}

// The netlist of the bytes of a file of this name.
fn netlist_from(alloc: Global, name: &str, bytes: &[u8]) -> Result<Netlist, Status>
    requires { length bytes.now ≤ 2 ^ 26 }
    ensures { AnswersAs (netlist_in name.now bytes.now) result }
{
    if is_bench_name(name) {
        bench_from(alloc, bytes)
    } else {
        blif_from(alloc, bytes)
    }
}

// The netlist with an order of its tables, unless they form a loop.
fn order_of(alloc: Global, net: Netlist) -> Result<Ordered, Refused>
    ensures { OrdersAs net result }
{
    match levels(alloc, &net) {
        Ok(order) => Ok(Ordered { net, order }),
        Err(LoopFound::Loop(walk)) => Err(Refused::Looped { walk, net }),
        Err(LoopFound::Memory(no_room)) => Err(Refused::By(Status::Memory(no_room))),
    }
}

/// The netlist that was read of the file of this name.
pub(crate) fn judge_netlist(alloc: Global, name: &str, reads: &Reads) -> Result<Ordered, Refused>
    requires { AreShort (reads_by reads.now) }
    ensures taken { NetTakenAs name.now (reads_by reads.now) result }
    ensures order { IfOk result (λ made. IsOrder made.net made.order × HasNoLoop made.net) }
{
    let bytes = reads.whole(Which::Netlist)?;
    let net = netlist_from(alloc, name, bytes)?;
    order_of(alloc, net)
}
