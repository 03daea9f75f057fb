// Why a command has nothing to write.
use crate::status::Status;
use circuit::netlist::Netlist;
use netlist_levels::Walk;
use room::NoRoom;

/// Why a command has nothing to write: the status that it ends with, and what its line needs beside the status.
#[derive(Drop)]
pub enum Refused {
    By(Status),
    /// The walk is a loop of this netlist, which has the names of its nets.
    Looped { walk: Walk, net: Netlist },
}

impl From<Status> for Refused {
    ghost use Rattle.std.specs.Prelude.{◌≡◌};
    ghost use Rattle.refusals.specs.declared.refused.Refused.TheVariants.{By};

    ghost from_gives = { λ ended refused. refused ≡ By ended };

    fn from(status: Status) -> Self {
        Refused::By(status)
    }
}

impl From<NoRoom> for Refused {
    ghost use Rattle.std.specs.Prelude.{◌≡◌};
    ghost use Rattle.refusals.specs.declared.refused.Refused.TheVariants.{By};
    ghost use Rattle.refusals.specs.declared.status.Status.TheVariants.{Memory};

    ghost from_gives = { λ no_room refused. refused ≡ By (Memory no_room) };

    fn from(e: NoRoom) -> Self {
        Refused::By(Status::Memory(e))
    }
}
