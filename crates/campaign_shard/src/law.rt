// What a seat that posts a part of what it drew leaves, and what is merged of parts.
ghost use Rattle.campaign_shard.specs.PartSeats.{UnpostedDrawsLeaveNoRow};
ghost use Rattle.campaign_shard.specs.MergedParts.{StoppedPartsMerge};

use campaign_run::law::stopped_are_taken_up;
use result_merge::merges_are_lawful;

/// The law that a draw which is never posted leaves no row: the board that is closed has the rows of the part, each once. It
/// stands over the rule of the shared table as it is.
pub fn unposted_draws_leave_no_row()
    ensures { UnpostedDrawsLeaveNoRow }
{}

/// The law that a campaign goes on from the merged files of its parts, whole or stopped, as if it had been stopped itself. It
/// computes nothing.
pub fn stopped_parts_merge()
    ensures { StoppedPartsMerge }
{
    stopped_are_taken_up();
    merges_are_lawful();
}
