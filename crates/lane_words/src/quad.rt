// Four words at once.
ghost use Rattle.std.specs.Prelude.{◌≡◌, ◌<◌, length, refl};
ghost use Rattle.lane_words.specs.Bits.{quad_bit};

use crate::word::Word;
use std::simd::prelude::*;

impl Word for u64x4 {
    ghost words = { 4 };

    ghost lanes = { 256 };

    ghost lane_bit = { quad_bit };

    ghost whole = { refl };

    fn words() -> u32 {
        4
    }

    fn count() -> u32 {
        256
    }

    fn all(value: bool) -> u64x4 {
        u64x4::splat(u64::all(value))
    }

    fn and(self, other: u64x4) -> u64x4 {
        self & other
    }

    fn xor(self, other: u64x4) -> u64x4 {
        self ^ other
    }

    fn get(self, lane: u32) -> bool {
        self.to_array()[(lane / 64) as usize].get(lane % 64)
    }

    fn put(self, lane: u32, value: bool) -> u64x4 {
        let mut words = self.to_array();
        let at = (lane / 64) as usize;
        words[at] = words[at].put(lane % 64, value);
        u64x4::from_array(words)
    }

    fn is_none(self) -> bool {
        let words = self.to_array();
        ((words[0] | words[1]) | (words[2] | words[3])) == 0
    }

    fn part(self, word: u32) -> u64 {
        self.to_array()[word as usize]
    }

    fn of_part(word: u32, bits: u64) -> u64x4 {
        let mut words = [0; 4];
        words[word as usize] = bits;
        u64x4::from_array(words)
    }
}

/// Four words as a type of their own, in which lane k of a word is the lane of number 64 * word + k.
#[derive(Clone, Copy)]
pub struct Quad(u64x4);

impl Word for Quad {
    ghost words = { 4 };

    ghost lanes = { 256 };

    ghost lane_bit = { λ quad. quad_bit quad.0 };

    ghost whole = { refl };

    fn words() -> u32 {
        u64x4::words()
    }

    fn count() -> u32 {
        u64x4::count()
    }

    fn all(value: bool) -> Quad {
        Quad(u64x4::all(value))
    }

    fn and(self, other: Quad) -> Quad {
        Quad(self.0.and(other.0))
    }

    fn xor(self, other: Quad) -> Quad {
        Quad(self.0.xor(other.0))
    }

    fn get(self, lane: u32) -> bool {
        self.0.get(lane)
    }

    fn put(self, lane: u32, value: bool) -> Quad {
        Quad(self.0.put(lane, value))
    }

    fn is_none(self) -> bool {
        self.0.is_none()
    }

    fn part(self, word: u32) -> u64 {
        self.0.part(word)
    }

    fn of_part(word: u32, bits: u64) -> Quad {
        Quad(u64x4::of_part(word, bits))
    }
}
