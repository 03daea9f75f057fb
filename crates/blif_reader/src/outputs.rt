// The nets of the inputs and of the outputs.
ghost use Rattle.std.specs.Prelude.{◌≡◌, ◌∷◌, [], IfOk, length, map, true, slice_index_or, slice_set};
ghost use Rattle.net_names.specs.Nets.{net_id};
ghost use Rattle.blif_model.specs.Net.{input_names_of, output_names_of};
ghost use Rattle.blif_model.specs.Walk.{nets_of};
ghost use Rattle.blif_flatten.specs.Flat.{AreBelow};
ghost use Rattle.blif_flatten.specs.Flattened.{flat_steps};
ghost use Rattle.blif_reader.specs.Numbers.{AreNetNumbers};
ghost use Rattle.blif_reader.specs.Parts.{first_ids};
ghost use Rattle.blif_reader.specs.Passes.{AreClockMarks, unmarked};

use crate::found::is_marked;
use crate::nets::nets;
use crate::parts::{Part, part_ids};
use blif_flatten::flat::{FlatModel, NameId};
use circuit::parts::{NetId, NetIds};
use room::{NoRoom, collect, filled, push};
use std::alloc::Global;

fn unmarked(alloc: Global, clocks: &[bool], names: &[NameId]) -> Result<Vec<NameId>, NoRoom>
    ensures { IfOk result (λ v. v.items ≡ unmarked clocks.now names.now) }
{
    collect(
        names
            .iter()
            .copied()
            .filter(|name| !is_marked(clocks, *name)),
        alloc,
    )
}

/// The nets of the inputs: those that are no clock names.
pub fn input_nets(
    alloc: Global,
    flat: &FlatModel<'_, '_>,
    clocks: &[bool],
    numbers: &[NetId],
) -> Result<NetIds, NoRoom>
    requires clocks { AreClockMarks flat.now clocks.now }
    requires numbers { AreNetNumbers flat.now numbers.now }
    ensures { IfOk result (λ ids. ids ≡ map (net_id (nets_of (flat_steps flat.now))) (input_names_of (flat_steps flat.now))) }
{
    let names = part_ids(alloc, flat, Part::Inputs)?;
    let own = unmarked(alloc, clocks, names.as_slice())?;
    nets(alloc, numbers, own.as_slice())
}

/// The name is marked. The answer is whether it was before.
fn mark(seen: &mut Vec<bool>, name: NameId) -> bool
    requires { AreBelow (length seen.old.items) (name ∷ []) }
    ensures before { result ≡ slice_index_or seen.old.items name.0 true }
    ensures seen { seen.new.items ≡ slice_set seen.old.items name.0 true }
{
    let before = seen[name.0];
    seen[name.0] = true;
    before
}

/// The numbers, each once.
fn first_ids(alloc: Global, seen: &mut Vec<bool>, names: &[NameId]) -> Result<Vec<NameId>, NoRoom>
    requires { AreBelow (length seen.old.items) names.now }
    ensures { IfOk result (λ v. v.items ≡ first_ids seen.old.items names.now) }
{
    let mut firsts = Vec::new(alloc);
    for name in names {
        if !mark(seen, *name) {
            push(&mut firsts, *name)?;
        }
    }
    Ok(firsts)
}

/// The nets of the outputs, each once.
pub fn output_nets(
    alloc: Global,
    flat: &FlatModel<'_, '_>,
    numbers: &[NetId],
) -> Result<NetIds, NoRoom>
    requires { AreNetNumbers flat.now numbers.now }
    ensures { IfOk result (λ ids. ids ≡ map (net_id (nets_of (flat_steps flat.now))) (output_names_of (flat_steps flat.now))) }
{
    let names = part_ids(alloc, flat, Part::Outputs)?;
    let mut seen = filled(alloc, false, flat.names.len())?;
    let firsts = first_ids(alloc, &mut seen, names.as_slice())?;
    nets(alloc, numbers, firsts.as_slice())
}
