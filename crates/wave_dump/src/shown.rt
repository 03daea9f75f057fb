// The nets that are shown.
ghost use Rattle.std.specs.Prelude.{◌≡◌, ◌≤◌, ◌^◌, IfOk, false, filter, length, map, slice_index_or};
ghost use Rattle.circuit.specs.Order.{IsOrder};
ghost use Rattle.circuit.specs.Sound.{IsNetlist};
ghost use Rattle.fm_base.specs.Lists.{below};
ghost use Rattle.wave_dump.specs.Asked.{is_matched as is_matched_by, nets_shown as shown_by};
ghost use Rattle.wave_dump.specs.Steps.{MarksShown};

use crate::changed::changed_nets;
use crate::named::{is_all, is_differing, is_matched};
use crate::scene::Scene;
use circuit::netlist::Netlist;
use fm_base::Name;
use netlist_levels::Order;
use room::{NoRoom, collect, filled, push};
use std::alloc::Global;

// For each net whether the pattern that is given matches its name.
fn matching_nets(alloc: Global, net: &Netlist, word: &Option<Name>) -> Result<Vec<bool>, NoRoom>
    ensures marks { IfOk result (λ marks. marks.items ≡ map (is_matched_by word.now) net.now.names) }
    ensures sound { IsNetlist net.now }
{
    collect(
        net.names()
            .iter()
            .map(|name| is_matched(word, name.as_slice())),
        alloc,
    )
}

// For each net whether it is shown.
fn shown_marks(
    alloc: Global,
    scene: &Scene<'_>,
    order: &Order,
    word: &Option<Name>,
) -> Result<Vec<bool>, NoRoom>
    requires { IsOrder scene.now.circuit order.now }
    ensures { IfOk result (λ marks. MarksShown scene.now word.now marks.items) }
{
    if is_all(scene.fault(), word) {
        filled(alloc, true, scene.netlist().nets())
    } else if is_differing(scene.fault(), word) {
        changed_nets(alloc, scene, order)
    } else {
        matching_nets(alloc, scene.netlist(), word)
    }
}

// The numbers of the marked nets.
fn marked(alloc: Global, marks: &[bool]) -> Result<Vec<u32>, NoRoom>
    requires { length marks.now ≤ 2 ^ 18 }
    ensures { IfOk result (λ nets. nets.items ≡ filter (λ n. slice_index_or marks.now n false) (below (length marks.now))) }
{
    let mut nets = Vec::new(alloc);
    for (n, is_marked) in marks.iter().enumerate() {
        if *is_marked {
            push(&mut nets, n as u32)?;
        }
    }
    Ok(nets)
}

/// The nets that are shown of this run and with this fault.
pub(crate) fn nets_shown(
    alloc: Global,
    scene: &Scene<'_>,
    order: &Order,
    word: &Option<Name>,
) -> Result<Vec<u32>, NoRoom>
    requires { IsOrder scene.now.circuit order.now }
    ensures { IfOk result (λ nets. nets.items ≡ shown_by scene.now.circuit scene.now.run scene.now.fault word.now) }
{
    let marks = shown_marks(alloc, scene, order, word)?;
    marked(alloc, &marks)
}
