// Windows for four words of lanes.
ghost use Rattle.std.specs.Prelude.{◌≡◌, IfOk};
ghost use Rattle.alarm_points.specs.FourWatches.{AreFourMadeFor};

use crate::Points;
use crate::windows::Windows;
use room::{NoRoom, from_array};
use std::alloc::Global;
use std::marker::Model;

/// Windows for each safety goal and each of four words of 64 lanes. No call but `new` takes memory.
#[derive(Drop)]
pub struct Windows4 {
    ftti: u32,
    words: Vec<Windows>,
}

impl Model for Windows4 {
    ghost use Rattle.alarm_points.specs.FourWatches.{FourWatches};

    ghost Value = { FourWatches };

    ghost view = { λ s. record { ftti = s.ftti; words = s.words.items } };
}

impl Windows4 {
    ghost use Rattle.std.specs.Borrow.{sem};
    ghost use Rattle.alarm_points.specs.LentWindows.{LendsWords};

    /// Windows for the goals of these points in each word. The interval, in clock cycles, is that of each goal without one of
    /// its own.
    pub fn new(alloc: Global, points: &Points, ftti: u32) -> Result<Self, NoRoom>
        ensures made { IfOk result (λ four. AreFourMadeFor points.now four) }
        ensures ftti { IfOk result (λ four. four.ftti ≡ ftti) }
    {
        let first = Windows::new(alloc, points, ftti)?;
        let second = Windows::new(alloc, points, ftti)?;
        let third = Windows::new(alloc, points, ftti)?;
        let fourth = Windows::new(alloc, points, ftti)?;
        let words = from_array(alloc, [first, second, third, fourth])?;
        Ok(Windows4 { ftti, words })
    }

    /// The windows of each word.
    pub fn words(&mut self) -> &mut [Windows]
        ensures* writes_back { sem 𝓛 (LendsWords self.entry result) }
        ensures value { result.now ≡ self.old.words }
    {
        self.words.as_mut_slice()
    }
}
