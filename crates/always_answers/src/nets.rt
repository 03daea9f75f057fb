// The nets of a part, and those that lead to an observation net.
ghost use Rattle.std.specs.Prelude.{◌≡◌, ◌≤◌, ◌<◌, ◌^◌, length, All, IfOk, count_by, slice_index, ◌&&◌};
ghost use Rattle.alarm_points.specs.PointsFile.{observed};
ghost use Rattle.circuit.specs.Value.{bit_at};
ghost use Rattle.fm_base.specs.Lists.{below};
ghost use Rattle.always_answers.specs.Steps.{ArePicked, AreSeen, is_picked};

use circuit::netlist::Netlist;
use circuit::parts::{Fault, NetId};
use reach::{Reach, Sort};
use room::{NoRoom, push, with_room};
use std::alloc::Global;

/// A mark for each net that leads to an observation net.
pub(crate) fn seen_nets(
    alloc: Global,
    netlist: &Netlist,
    reach: &Reach,
) -> Result<Vec<bool>, NoRoom>
    requires { reach.now.circuit ≡ netlist.now }
    ensures { IfOk result (λ seen. AreSeen netlist.now (observed reach.now.points) seen.items) }
{
    let mut seen = with_room(alloc, netlist.nets())?;
    for n in 0..netlist.nets() as u32 {
        let fault = Fault::Stuck(NetId(n), false);
        push(
            &mut seen,
            reach.can_change(netlist.latches(), fault, Sort::Observation),
        )?;
    }
    Ok(seen)
}

/// The nets of a part that have this mark.
pub(crate) fn nets_of_part(
    alloc: Global,
    parts: &[u32],
    part: u32,
    marks: &[bool],
    mark: bool,
) -> Result<Vec<NetId>, NoRoom>
    requires size { length marks.now ≡ length parts.now }
    requires few { length parts.now ≤ 2 ^ 18 }
    ensures { IfOk result (λ nets. ArePicked (is_picked parts.now part marks.now mark) (length parts.now) nets.items) }
{
    let mut nets = Vec::new(alloc);
    for n in 0..parts.len() {
        if parts[n] == part && marks[n] == mark {
            push(&mut nets, NetId(n as u32))?;
        }
    }
    Ok(nets)
}
