// The netlist of what was gathered, or its fault.
ghost use Rattle.std.specs.Prelude.{◌≡◌, None, Err, IfOk, MatchResult};
ghost use Rattle.fm_base.specs.Answers.{Gives};
ghost use Rattle.bench_reader.specs.Answer.{answer_of, circuit_from, fault_in, IsSmallNetlist};

use crate::gather::Gathered;
use crate::parts::Parts;
use crate::{BenchFault, BenchKind};
use circuit::netlist::Netlist;
use circuit::parts::{Drivers, Names};
use fm_base::Refusal;
use net_names::drivers::drivers_of;
use room::NoRoom;
use std::alloc::Global;

/// The first fault of all lines together: the kinds from `TooLarge` to `Undriven`.
fn fault_of(alloc: Global, gathered: &Gathered<'_>) -> Result<Option<BenchFault>, NoRoom>
    ensures { IfOk result (λ o. o ≡ fault_in gathered.now) }
{
    if gathered.is_full() {
        return Ok(Some(BenchFault {
            line: 1,
            kind: BenchKind::TooLarge,
        }));
    }
    if let Some(line) = gathered.second {
        return Ok(Some(BenchFault {
            line,
            kind: BenchKind::TwoDrivers,
        }));
    }
    gathered.nets.undriven(alloc)
}

/// What a netlist has of its nets.
#[derive(Drop)]
struct NetParts {
    names: Names,
    drivers: Drivers,
}

/// The names and the drivers of the nets, or the first fault.
fn net_parts(alloc: Global, gathered: &Gathered<'_>) -> Result<NetParts, Refusal<BenchFault>>
    requires { fault_in gathered.now ≡ None → IsSmallNetlist gathered.now }
    ensures { MatchResult result
        (λ nets. (fault_in gathered.now ≡ None) × (nets.names ≡ gathered.now.nets.names) × (nets.drivers ≡ (circuit_from gathered.now).drivers))
        (λ refusal. Gives (answer_of gathered.now) (Err refusal)) }
{
    if let Some(fault) = fault_of(alloc, gathered)? {
        return Err(Refusal::Fault(fault));
    }
    let parts = &gathered.parts;
    let drivers = drivers_of(
        alloc,
        parts.inputs.as_slice(),
        parts.table_nets.as_slice(),
        parts.latch_nets.as_slice(),
        gathered.nets.len(),
    )?;
    Ok(NetParts {
        names: gathered.nets.names(alloc)?,
        drivers,
    })
}

/// The netlist of what was gathered, with what it has of its nets.
fn built(gathered: Gathered<'_>, nets: NetParts) -> Netlist
    requires small { IsSmallNetlist gathered }
    requires names { nets.names ≡ gathered.nets.names }
    requires drivers { nets.drivers ≡ (circuit_from gathered).drivers }
    ensures { result ≡ circuit_from gathered.entry }
{
    let Gathered { parts, .. } = gathered;
    let Parts {
        inputs,
        outputs,
        tables,
        latches,
        ..
    } = parts;
    let NetParts { names, drivers } = nets;
    Netlist {
        names,
        drivers,
        tables,
        latches,
        inputs,
        outputs,
    }
}

/// The netlist of what was gathered of lines without faults of their own.
pub fn netlist_of(alloc: Global, gathered: Gathered<'_>) -> Result<Netlist, Refusal<BenchFault>>
    requires { fault_in gathered ≡ None → IsSmallNetlist gathered }
    ensures { Gives (answer_of gathered.entry) result }
{
    match net_parts(alloc, &gathered) {
        Ok(nets) => Ok(built(gathered, nets)),
        Err(refusal) => {
            drop(gathered);
            Err(refusal)
        }
    }
}
