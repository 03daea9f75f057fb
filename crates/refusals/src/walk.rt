// The line of a loop.
ghost use Rattle.std.specs.Prelude.{◌≡◌, ◌≤◌, OnOk, OnErr, ◌∷◌, ◌++◌, [], map, codes, slice_index_or};
ghost use Rattle.std.specs.List.{flat_map};
ghost use Rattle.fm_shelf.specs.Sink.{Sends};
ghost use Rattle.refusals.specs.Said.{IsSaid, spaced_net};
ghost use Rattle.refusals.specs.RefusalLines.{refused};

use circuit::parts::{Name, NetId};
use fm_shelf::shelf::{Failed, Sink};
use fm_shelf::whole::{write_all, write_pieces};

fn net_name(nets: &[Name], net: NetId) -> &[u8]
    ensures { result.now ≡ slice_index_or nets.now net.0 [] }
{
    match nets.get(net.0 as usize) {
        Some(name) => name.as_slice(),
        None => b"",
    }
}

// Writes a space and its name for each net of a walk.
fn write_nets<O: Sink>(out: &mut O, nets: &[Name], walk: &[NetId]) -> Result<(), Failed>
    ensures { Sends (O.seen out.old) (O.seen out.new) (flat_map (spaced_net nets.now) walk.now) result }
{
    for net in walk {
        write_pieces(out, &[b" ", net_name(nets, *net)])?;
    }
    Ok(())
}

// Writes a line that begins so and goes on with the nets of a walk.
fn write_walk<O: Sink>(
    out: &mut O,
    head: &[u8],
    nets: &[Name],
    walk: &[NetId],
) -> Result<(), Failed>
    ensures { Sends (O.seen out.old) (O.seen out.new) (head.now ++ (flat_map (spaced_net nets.now) walk.now ++ 10 ∷ [])) result }
{
    write_all(out, head)?;
    write_nets(out, nets, walk)?;
    write_all(out, b"\n")
}

// Writes the same, and tells nobody where that fails.
fn say_walk<O: Sink>(out: &mut O, head: &[u8], nets: &[Name], walk: &[NetId])
    ensures { IsSaid (O.seen out.old) (O.seen out.new)
        (head.now ++ (flat_map (spaced_net nets.now) walk.now ++ 10 ∷ [])) }
{
    let _ = write_walk(out, head, nets, walk);
}

/// Writes the line of a loop, by the names of the netlist's nets.
pub(crate) fn refuse_loop<O: Sink>(out: &mut O, nets: &[Name], walk: &[NetId])
    ensures { IsSaid (O.seen out.old) (O.seen out.new)
        (refused (codes "loop" ∷ map (λ net. slice_index_or nets.now net.0 []) walk.now)) }
{
    say_walk(out, b"refused: loop", nets, walk);
}
