// What the nets differ in.
ghost use Rattle.std.specs.Prelude.{◌≡◌, ◌<◌, ◌^◌, IfOk, length};
ghost use Rattle.differential_kernel.specs.Differences.{DifferOnlyIn};

use crate::difference::same_words;
use lane_words::Word;
use place_set::PlaceSet;
use room::NoRoom;
use std::alloc::Global;

/// What the nets differ in from the golden run; those that differ are in `touched`. In `marks` are the places of the tables and
/// latches that are still to be looked at.
#[derive(Drop)]
pub struct NetDifferences<W> {
    pub words: Vec<W>,
    pub touched: PlaceSet,
    pub marks: PlaceSet,
}

impl<W: Word> NetDifferences<W> {
    /// So many nets that don't differ, read at so many places.
    pub fn new(alloc: Global, nets: usize, places: usize) -> Result<Self, NoRoom>
        requires nets { nets < 2 ^ 32 }
        requires places { places < 2 ^ 32 }
        ensures words { IfOk result (λ s. length s.words.items ≡ nets) }
        ensures touched { IfOk result (λ s. DifferOnlyIn W.lanes W.lane_bit s.touched s.words.items) }
        ensures marks { IfOk result (λ s. s.marks.bound ≡ places) }
    {
        let words = same_words(alloc, nets)?;
        let touched = PlaceSet::new(alloc, nets as u32)?;
        let marks = PlaceSet::new(alloc, places as u32)?;
        Ok(NetDifferences {
            words,
            touched,
            marks,
        })
    }
}
