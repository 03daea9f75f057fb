// Where names stand, and the nets that they name there.
ghost use Rattle.std.specs.Prelude.{◌≡◌, ◌++◌, map, IfOk, OnOk};
ghost use Rattle.blif_model.specs.Meant.{bindings_of};
ghost use Rattle.blif_model.specs.Tokens.{texts_of};
ghost use Rattle.blif_model.specs.Walk.{net_of};
ghost use Rattle.blif_model.specs.WalkSteps.{scope_of, path_of};
ghost use Rattle.blif_flatten.specs.Seen.{scope_at};

use crate::bound::BoundNets;
use blif_model::bindings::pair_of;
use blif_text::token::Token;
use fm_base::{Name, Seq};
use itoa::Buffer;
use net_names::copies::own_name;
use room::{NoRoom, extend};
use std::alloc::Global;

/// Where a name stands: in the main model, or in an instance with this path.
#[derive(Drop)]
pub enum Place<'a> {
    Main,
    Inner { path: Name, bound: BoundNets<'a> },
}

/// A buffer gets three texts in place of its own.
fn join(buffer: &mut Vec<u8>, path: &[u8], middle: &[u8], text: &[u8]) -> Result<(), NoRoom>
    ensures { OnOk result (buffer.new.items ≡ path.now ++ middle.now ++ text.now) }
{
    buffer.clear();
    extend(buffer, path)?;
    extend(buffer, middle)?;
    extend(buffer, text)?;
    Ok(())
}

/// The net of a name, which is put together in the buffer where none is bound to it.
#[tactic(auto, unfolding(blif_model::specs::Walk::net_of))]
pub fn net_in<'n>(
    buffer: &'n mut Vec<u8>,
    place: &'n Place<'_>,
    name: &'n [u8],
) -> Result<&'n [u8], NoRoom>
    ensures { IfOk result (λ net. net.now ≡ net_of (scope_at place.now) name.now) }
{
    match place {
        Place::Main => Ok(name),
        Place::Inner { path, bound } => match bound.find(name) {
            Some(net) => Ok(net),
            None => {
                join(buffer, path.as_slice(), b".", name)?;
                Ok(buffer.as_slice())
            }
        },
    }
}

/// The path of an instance.
fn inner_path(alloc: Global, place: &Place<'_>, instance: u64) -> Result<Name, NoRoom>
    ensures { IfOk result (λ n. n ≡ path_of instance (scope_at place.now)) }
{
    let mut buffer = Buffer::new();
    let number = buffer.format(instance).as_bytes();
    let mut path = Vec::new(alloc);
    match place {
        Place::Main => join(&mut path, b"", b"u", number)?,
        Place::Inner { path: outer, .. } => join(&mut path, outer.as_slice(), b".u", number)?,
    }
    Ok(Seq::from_vec(path))
}

/// The nets that are bound to formals.
fn bound_to<'a>(
    alloc: Global,
    place: &Place<'_>,
    bindings: &[Token<'a>],
) -> Result<BoundNets<'a>, NoRoom>
    ensures { IfOk result (λ v. v ≡ map (λ b. record { formal = b.formal; actual = net_of (scope_at place.now) b.actual }) (bindings_of (texts_of bindings.now))) }
{
    let mut bound = BoundNets::new(alloc);
    let mut buffer = Vec::new(alloc);
    for binding in bindings {
        let pair = pair_of(binding.text);
        let net = net_in(&mut buffer, place, pair.actual)?;
        bound.push(pair.formal, own_name(alloc, net)?)?;
    }
    Ok(bound)
}

/// The place of an instance.
pub fn inner_place<'a>(
    alloc: Global,
    place: &Place<'_>,
    instance: u64,
    bindings: &[Token<'a>],
) -> Result<Place<'a>, NoRoom>
    ensures { IfOk result (λ p. scope_at p ≡ scope_of (scope_at place.now) instance (bindings_of (texts_of bindings.now))) }
{
    let path = inner_path(alloc, place, instance)?;
    let bound = bound_to(alloc, place, bindings)?;
    Ok(Place::Inner { path, bound })
}
