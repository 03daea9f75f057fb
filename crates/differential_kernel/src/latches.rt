// What the latches differ in.
ghost use Rattle.std.specs.Prelude.{◌≡◌, ◌<◌, ◌^◌, IfOk, length};
ghost use Rattle.differential_kernel.specs.Differences.{DifferOnlyIn};

use crate::difference::same_words;
use lane_words::Word;
use place_set::PlaceSet;
use room::NoRoom;
use std::alloc::Global;

/// What the latches differ in from the golden run; those that differ are in `live`.
#[derive(Drop)]
pub struct LatchDifferences<W> {
    pub raw: Vec<W>,
    pub live: PlaceSet,
}

impl<W: Word> LatchDifferences<W> {
    /// So many latches that don't differ.
    pub fn new(alloc: Global, latches: usize) -> Result<Self, NoRoom>
        requires { latches < 2 ^ 32 }
        ensures raw { IfOk result (λ s. length s.raw.items ≡ latches) }
        ensures live { IfOk result (λ s. DifferOnlyIn W.lanes W.lane_bit s.live s.raw.items) }
    {
        let raw = same_words(alloc, latches)?;
        let live = PlaceSet::new(alloc, latches as u32)?;
        Ok(LatchDifferences { raw, live })
    }
}
