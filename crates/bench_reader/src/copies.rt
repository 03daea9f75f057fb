// Names of a file as names of their own.
ghost use Rattle.std.specs.Prelude.{◌≡◌, [], IfOk, map};
ghost use Rattle.bench_reader.specs.Marks.{name_in_place};

use fm_base::{Name, Names, Seq};
use net_names::copies::own_name;
use room::NoRoom;
use std::alloc::Global;

/// The names of a file, copied.
pub fn own_names(alloc: Global, names: &[&[u8]]) -> Result<Names, NoRoom>
    ensures { IfOk result (λ ns. ns ≡ map (λ name. name.now) names.now) }
{
    let mut owned = Seq::new(alloc);
    for name in names {
        owned.push(own_name(alloc, name)?)?;
    }
    Ok(owned)
}

/// The name at a place, copied; it is empty where there is none.
pub fn name_at(alloc: Global, names: &[&[u8]], place: usize) -> Result<Name, NoRoom>
    ensures { IfOk result (λ n. n ≡ name_in_place (map (λ name. name.now) names.now) place) }
{
    match names.get(place) {
        Some(name) => own_name(alloc, name),
        None => Ok(Seq::new(alloc)),
    }
}
