// The force on each net.
ghost use Rattle.std.specs.Prelude.{◌≡◌, ◌<◌, ◌^◌, IfOk, length};
ghost use Rattle.lane_words.specs.Forces.{AreAllIdle};

use lane_words::Word;
use lane_words::force::{Force, idle_forces};
use place_set::PlaceSet;
use room::NoRoom;
use std::alloc::Global;

/// The force on each net. Those that aren't in `named` leave their nets as they are; those that aren't in `zeros` leave a 0 as it is, and
/// those that aren't in `ones` a 1.
#[derive(Drop)]
pub struct Forces<W> {
    pub named: PlaceSet,
    pub by_net: Vec<Force<W>>,
    pub zeros: PlaceSet,
    pub ones: PlaceSet,
}

impl<W: Word> Forces<W> {
    /// The forces on so many nets, which leave all of them as they are.
    pub fn new(alloc: Global, nets: usize) -> Result<Self, NoRoom>
        requires { nets < 2 ^ 32 }
        ensures named { IfOk result (λ forces. forces.named.bound ≡ nets) }
        ensures each { IfOk result (λ forces. length forces.by_net.items ≡ nets) }
        ensures idle { IfOk result (λ forces. AreAllIdle W.lanes W.lane_bit forces.by_net.items) }
        ensures zeros { IfOk result (λ forces. forces.zeros.bound ≡ nets) }
        ensures ones { IfOk result (λ forces. forces.ones.bound ≡ nets) }
    {
        let named = PlaceSet::new(alloc, nets as u32)?;
        let by_net = idle_forces(alloc, nets)?;
        let zeros = PlaceSet::new(alloc, nets as u32)?;
        let ones = PlaceSet::new(alloc, nets as u32)?;
        Ok(Forces {
            named,
            by_net,
            zeros,
            ones,
        })
    }
}
