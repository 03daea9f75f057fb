// A result file that was cut at any byte.

ghost use Rattle.campaign_run.specs.Prefixes.{PrefixesKeepWholeRows};
ghost use Rattle.campaign_run.specs.Stopped.{StoppedAreTakenUp};

use result_file::written_reads_back;

/// The law that reading any first bytes of a result file keeps exactly the rows that stand whole in them. It computes
/// nothing.
pub fn prefixes_keep_whole_rows()
    ensures { PrefixesKeepWholeRows }
{
    written_reads_back();
}

/// The law that a campaign which was stopped at any byte of its file goes on as if it hadn't been: the file is accepted, and
/// what is kept and what is added give the report of one thread. It computes nothing.
pub fn stopped_are_taken_up()
    ensures { StoppedAreTakenUp }
{
    prefixes_keep_whole_rows();
}
