// The faults that are simulated.
ghost use Rattle.std.specs.Prelude.{◌≡◌, length, IfOk};
ghost use Rattle.fault_collapse.specs.Chosen.{AreChosen};

use collapse_map::Collapse;
use room::{NoRoom, filled, push, with_room};
use std::alloc::Global;

/// The numbers of the faults that are their own representatives, in rising order, and for each of these faults its place there.
#[derive(Drop)]
pub(crate) struct Chosen {
    pub numbers: Vec<u32>,
    pub places: Vec<u32>,
}

/// The faults that are their own representatives, of so many faults.
pub(crate) fn choose(alloc: Global, collapse: &Collapse, count: u32) -> Result<Chosen, NoRoom>
    requires { count ≡ length collapse.now.faults }
    ensures { IfOk result (λ chosen. AreChosen collapse.now chosen.numbers.items chosen.places.items) }
{
    let mut numbers = with_room(alloc, collapse.count() as usize)?;
    let mut places = filled(alloc, 0, count as usize)?;
    for i in 0..count {
        if collapse.rep(i) == i {
            places[i as usize] = numbers.len() as u32;
            push(&mut numbers, i)?;
        }
    }
    Ok(Chosen { numbers, places })
}
