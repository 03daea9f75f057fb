// The netlist of a flattened model.
ghost use Rattle.std.specs.Prelude.{◌≡◌, ◌≤◌, ◌^◌, IfOk, None, length};
ghost use Rattle.circuit.specs.Sound.{IsNetlist};
ghost use Rattle.blif_model.specs.Net.{circuit_of};
ghost use Rattle.blif_model.specs.Walk.{nets_of};
ghost use Rattle.blif_model.specs.WalkFault.{walk_fault};
ghost use Rattle.blif_flatten.specs.Flattened.{flat_steps};
ghost use Rattle.blif_reader.specs.Passes.{AreClockMarks};

use crate::nets::{net_names, net_numbers};
use crate::outputs::{input_nets, output_nets};
use crate::parts::{Cells, Part, cells_of, part_nets};
use blif_flatten::flat::FlatModel;
use circuit::netlist::Netlist;
use net_names::drivers::drivers_of;
use room::NoRoom;
use std::alloc::Global;

/// The netlist of a flattened model without faults. `clocks` says which of its names are clock names.
pub fn flat_netlist(
    alloc: Global,
    flat: &FlatModel<'_, '_>,
    clocks: &[bool],
) -> Result<Netlist, NoRoom>
    requires clocks { AreClockMarks flat.now clocks.now }
    requires few { length (nets_of (flat_steps flat.now)) ≤ 2 ^ 18 }
    requires unfaulted { walk_fault (flat_steps flat.now) ≡ None }
    requires sound { IsNetlist (circuit_of (flat_steps flat.now)) }
    ensures { IfOk result (λ n. n ≡ circuit_of (flat_steps flat.now)) }
{
    let names = net_names(alloc, flat, clocks)?;
    let numbers = net_numbers(alloc, flat, clocks)?;
    let inputs = input_nets(alloc, flat, clocks, numbers.as_slice())?;
    let outputs = output_nets(alloc, flat, numbers.as_slice())?;
    let Cells { tables, latches } = cells_of(alloc, flat, numbers.as_slice())?;
    let table_nets = part_nets(alloc, flat, numbers.as_slice(), Part::TableNets)?;
    let latch_nets = part_nets(alloc, flat, numbers.as_slice(), Part::LatchNets)?;
    let drivers = drivers_of(
        alloc,
        inputs.as_slice(),
        table_nets.as_slice(),
        latch_nets.as_slice(),
        names.len(),
    )?;
    Ok(Netlist {
        names,
        drivers,
        tables,
        latches,
        inputs,
        outputs,
    })
}
