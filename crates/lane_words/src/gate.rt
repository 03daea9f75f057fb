// Tables of at most two inputs, as masks.
ghost use Rattle.std.specs.Prelude.{◌≡◌, ◌<◌, ℕ};
ghost use Rattle.lane_words.specs.Bits.{normal};

use crate::word::Word;

/// The four masks of an operation on two words, each all zeros or all ones.
#[derive(Clone, Copy)]
pub struct Masks<W> {
    pub c0: W,
    pub c1: W,
    pub c2: W,
    pub c3: W,
}

/// A table of at most two inputs: its net, the nets that it reads, and the number of its operation, which is below 16.
/// A wider table is a gate with the number 16, evaluated by its rows.
#[derive(Clone, Copy)]
pub struct Gate {
    pub to: u32,
    pub a: u32,
    pub b: u32,
    pub op: u8,
}

/// The operation on two words.
pub fn apply<W: Word>(masks: &Masks<W>, a: W, b: W) -> W
    ensures { (k : ℕ) → k < W.lanes → W.lane_bit result k
        ≡ normal (W.lane_bit masks.now.c0 k) (W.lane_bit masks.now.c1 k) (W.lane_bit masks.now.c2 k) (W.lane_bit masks.now.c3 k) (W.lane_bit a k) (W.lane_bit b k) }
{
    masks
        .c0
        .xor(masks.c1.and(a))
        .xor(b.and(masks.c2.xor(masks.c3.and(a))))
}
