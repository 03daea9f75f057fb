// The models of a file, found by name.
ghost use Rattle.std.specs.Prelude.{◌≡◌, ◌<◌, length, IfOk, MatchOption, slice_get};
ghost use Rattle.std.specs.Option.{option_map};
ghost use Rattle.blif_model.specs.Models.{model_named};
ghost use Rattle.blif_model.specs.Grouped.{model_of, models_seen};
ghost use Rattle.blif_flatten.specs.Places.{AreNamePlaces};

use crate::places::{add_place, place_of};
use blif_model::models::ModelLines;
use indexmap::IndexMap;
use room::NoRoom;
use std::alloc::Global;
use std::marker::Model;

/// The models of a file.
#[derive(Drop)]
pub struct ModelTable<'m, 'a> {
    models: Vec<ModelLines<'m, 'a>>,
    places: IndexMap<&'a [u8], usize>,
}

impl<'m, 'a> Model for ModelTable<'m, 'a> {
    ghost use Rattle.std.specs.Prelude.{List};
    ghost use Rattle.blif_model.specs.Models.{Model};
    ghost use Rattle.blif_model.specs.Grouped.{models_seen};
    ghost use Rattle.blif_flatten.specs.Places.{AreNamePlaces};

    ghost Value = { List Model };

    ghost view = { λ s. models_seen s.models.items };

    ghost invariant = { λ s. AreNamePlaces (λ m. m.name) (models_seen s.models.items) s.places.entries };
}

/// The place of the first model of each name.
fn places_of<'a>(
    alloc: Global,
    models: &[ModelLines<'_, 'a>],
) -> Result<IndexMap<&'a [u8], usize>, NoRoom>
    ensures { IfOk result (λ p. AreNamePlaces (λ m. m.name) (models_seen models.now) p.entries) }
{
    let mut places = IndexMap::new(alloc);
    for (place, model) in models.iter().enumerate() {
        add_place(&mut places, model.name, place)?;
    }
    Ok(places)
}

impl<'m, 'a> ModelTable<'m, 'a> {
    /// A table of these models; of two with one name the first is found.
    pub fn new(alloc: Global, models: Vec<ModelLines<'m, 'a>>) -> Result<Self, NoRoom>
        ensures { IfOk result (λ t. t ≡ models_seen models.entry.items) }
    {
        let places = places_of(alloc, models.as_slice())?;
        Ok(ModelTable { models, places })
    }

    /// The lines of all models.
    pub fn lines(&self) -> &[ModelLines<'m, 'a>]
        ensures { models_seen result.now ≡ self.now }
    {
        self.models.as_slice()
    }

    /// The place of the first model of a name.
    pub fn place(&self, name: &[u8]) -> Option<usize>
        ensures { MatchOption result (model_named self.now name.now ≡ None) (λ k. (k < length self.now) × (model_named self.now name.now ≡ slice_get self.now k)) }
    {
        place_of(&self.places, name)
    }

    /// The first model of the file.
    pub fn main(&self) -> Option<ModelLines<'m, 'a>>
        ensures { option_map model_of result ≡ slice_get self.now 0 }
    {
        self.models.first().copied()
    }

    /// The first model of a name.
    #[tactic(auto, using(crate::proofs::FirstPlaces::finds))]
    pub fn find(&self, name: &[u8]) -> Option<ModelLines<'m, 'a>>
        ensures { option_map model_of result ≡ model_named self.now name.now }
    {
        match self.place(name) {
            Some(place) => Some(self.models[place]),
            None => None,
        }
    }
}
