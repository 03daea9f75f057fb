// Where the first of a name stands.
ghost use Rattle.std.specs.Prelude.{◌≡◌, ◌<◌, ℕ, List, IfOk, OnErr, OnOk, bytes_eq, if◌then◌else◌, Some, None};
ghost use Rattle.std.specs.Option.{option_or};
ghost use Rattle.blif_flatten.specs.Places.{place_in};

use indexmap::IndexMap;
use room::{NoRoom, index_map};

/// The place of a name.
pub fn place_of(places: &IndexMap<&[u8], usize>, name: &[u8]) -> Option<usize>
    ensures { result ≡ place_in places.now.entries name.now }
{
    places.get(name).copied()
}

/// A name has this place, unless it has one.
pub fn add_place<'a>(
    places: &mut IndexMap<&'a [u8], usize>,
    name: &'a [u8],
    place: usize,
) -> Result<(), NoRoom>
    ensures added { OnOk result ((q : List ℕ) → place_in places.new.entries q ≡ option_or (place_in places.old.entries q) (if bytes_eq name.now q then Some place else None)) }
    ensures err { OnErr result (places.new.entries ≡ places.old.entries) }
{
    if place_of(places, name).is_some() {
        return Ok(());
    }
    index_map::insert(places, name, place)?;
    Ok(())
}
