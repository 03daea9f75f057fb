// Why there is no order.
ghost use Rattle.std.specs.Prelude.{◌≡◌};
ghost use Rattle.netlist_levels.specs.declared.found.LoopFound.TheVariants.{Memory};

use crate::order::Walk;
use room::NoRoom;

/// Why there is no order.
#[derive(Drop)]
pub enum LoopFound {
    /// Each net of the walk is read by the table of the next, and the last by that of the first.
    Loop(Walk),
    /// Memory ran out.
    Memory(NoRoom),
}

impl From<NoRoom> for LoopFound {
    ghost from_gives = { λ no_room e. e ≡ Memory no_room };

    fn from(e: NoRoom) -> Self {
        LoopFound::Memory(e)
    }
}
