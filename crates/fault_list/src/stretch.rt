// Flips in a stretch of cycles.
ghost use Rattle.std.specs.Prelude.{◌≡◌, IfOk};
ghost use Rattle.fault_list.specs.Stretch.{IsStretch, cycles_within};

use crate::Flips;
use fm_base::Seq;
use room::NoRoom;
use std::alloc::Global;

/// Each `step`-th cycle from `first` to `last`: none is above 65,535, `first` isn't above `last`, and `step` is at least 1.
#[derive(Clone, Copy, Debug, PartialEq, Eq)]
pub struct Stretch {
    pub first: u32,
    pub last: u32,
    pub step: u32,
}

impl Stretch {
    /// Its cycles, of which there are at most 65,536.
    pub fn cycles(self, alloc: Global) -> Result<Flips, NoRoom>
        requires { IsStretch self }
        ensures { IfOk result (λ cycles. cycles ≡ cycles_within self) }
    {
        let mut cycles = Seq::new(alloc);
        for k in 0..(self.last - self.first) / self.step + 1 {
            cycles.push(self.first + self.step * k)?;
        }
        Ok(cycles)
    }
}
