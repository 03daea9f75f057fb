// The nets that are bound to formals, found by name.
ghost use Rattle.std.specs.Prelude.{◌≡◌, ◌∷◌, ◌++◌, [], OnOk, OnErr, bytes_eq, find};
ghost use Rattle.std.specs.Option.{option_map_or};
ghost use Rattle.fm_base.specs.Names.{Name};

use crate::places::{add_place, place_of};
use fm_base::Name;
use indexmap::IndexMap;
use room::{NoRoom, push};
use std::alloc::Global;
use std::marker::Model;

/// A formal, and the net that is bound to it.
#[derive(Drop)]
pub struct BoundNet<'a> {
    formal: &'a [u8],
    net: Name,
}

/// Nets that are bound to formals.
#[derive(Drop)]
pub struct BoundNets<'a> {
    nets: Vec<BoundNet<'a>>,
    places: IndexMap<&'a [u8], usize>,
}

impl<'a> Model for BoundNets<'a> {
    ghost use Rattle.std.specs.Prelude.{List};
    ghost use Rattle.blif_model.specs.Statement.{Binding};
    ghost use Rattle.blif_flatten.specs.Places.{AreNamePlaces, bounds_seen};

    ghost Value = { List Binding };

    ghost view = { λ s. bounds_seen s.nets.items };

    ghost invariant = { λ s. AreNamePlaces (λ b. b.formal) (bounds_seen s.nets.items) s.places.entries };
}

impl<'a> BoundNets<'a> {
    /// No formal is bound yet.
    pub fn new(alloc: Global) -> Self
        ensures { result ≡ [] }
    {
        BoundNets {
            nets: Vec::new(alloc),
            places: IndexMap::new(alloc),
        }
    }

    /// Binds a formal; of two with one name the first is found.
    pub fn push(&mut self, formal: &'a [u8], net: Name) -> Result<(), NoRoom>
        ensures ok { OnOk result (self.new ≡ self.old ++ record { formal = formal.now; actual = net } ∷ []) }
        ensures err { OnErr result (self.new ≡ self.old) }
    {
        let place = self.nets.len();
        push(&mut self.nets, BoundNet { formal, net })?;
        match add_place(&mut self.places, formal, place) {
            Ok(()) => Ok(()),
            Err(e) => {
                let _ = self.nets.pop();
                Err(e)
            }
        }
    }

    /// The net that a formal is bound to, if it is.
    pub fn find(&self, name: &[u8]) -> Option<&[u8]>
        ensures { (other : Name) → option_map_or (λ net. net.now) result other ≡ option_map_or (λ b. b.actual) (find (λ b. bytes_eq b.formal name.now) self.now) other }
    {
        match place_of(&self.places, name) {
            Some(place) => Some(self.nets[place].net.as_slice()),
            None => None,
        }
    }
}
