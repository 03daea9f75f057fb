ghost use Rattle.std.specs.Prelude.{◌≡◌};
ghost use Rattle.campaign_shard.specs.RanPart.{HasRunPart};
ghost use Rattle.room.specs.declared.edge.NoRoom.{NoRoom};

use crate::over::run_over;
use crate::part::PartCampaign;
use campaign_run::{End, Ran};
use fm_shelf::shelf::{Shelf, Sink};
use std::alloc::Global;
use std::marker::Brand;

/// Runs one part of a campaign in this thread: begins its result file anew, appends a row for each batch of the part, and writes
/// the line that tells how many. All memory is taken before the file is first changed. The end is Done; NoMemory, with nothing
/// changed; ResultFault, where the file couldn't be cut or a line couldn't be appended to it; or OutFault, where the file is as
/// after Done and the line couldn't be written whole.
pub fn run_part<F: Shelf + Drop, O: Sink>(
    alloc: Global,
    campaign: PartCampaign<'_>,
    shelf: F,
    out: &mut O,
) -> Ran<F>
    ensures run { HasRunPart result.end campaign.entry (record { shelf = F.seen shelf; out = O.seen out.old }) (record { shelf = F.seen result.shelf; out = O.seen out.new }) }
    ensures untouched { (no_room : NoRoom) → result.end ≡ End.NoMemory no_room → (result.shelf ≡ shelf) × (out.new ≡ out.old) }
{
    run_over::<F, Brand, O>(alloc, campaign, shelf, out)
}
