// Laws of the promises, for those who read them.
ghost use Rattle.fmeda_top.specs.Laws.{AlwaysHolds, AreOfTheCommand, HaveNoLoop, HeldIsRead, MemoryWasRefused, MergedAreStopped, OthersHaveCauses, PairsAreTrue, ReadFaultsRose, ReportsAreOfThePlan, ReweighedAreOfTheRun, UsageIsOfTheWords};

use always::{printed_spfm_holds, text_is_of_no_runs};
use pair_campaign::pairs_are_told;
use result_merge::merges_are_lawful;
use result_reweigh::reweighs_are_lawful;

/// What is promised of a call is promised of the command that its words are, and Usage is the answer exactly where they are none;
/// but where memory has run out. That is the answer only where the allocator has refused a request; where it has refused none, each other answer has
/// its cause in the words, in the files, or in a write that has failed. Where a shelf is known to hold bytes of all inputs, these are what was read. A file can't be read only
/// where a read of it has failed, what wasn't refused has no loop, pairs by true rows are true, and true rows that are merged are those of a
/// stopped campaign, as are true rows by other rates, of the campaign with these. It computes nothing.
pub fn promises_are_of_the_command()
    ensures command { AreOfTheCommand }
    ensures usage { UsageIsOfTheWords }
    ensures memory { MemoryWasRefused }
    ensures causes { OthersHaveCauses }
    ensures read { HeldIsRead }
    ensures faults { ReadFaultsRose }
    ensures loops { HaveNoLoop }
    ensures pairs { PairsAreTrue }
    ensures merged { MergedAreStopped }
    ensures reweighed { ReweighedAreOfTheRun }
{
    pairs_are_told();
    merges_are_lawful();
    reweighs_are_lawful();
}

/// Whoever holds the text of an `always` that is done, and a plan of the same files with runs that are as supposed, has at least the single-point
/// fault metrics that are printed. The plan of each report of these files is such a plan. It computes nothing.
pub fn always_holds()
    ensures holds { AlwaysHolds }
    ensures reports { ReportsAreOfThePlan }
{
    printed_spfm_holds();
    text_is_of_no_runs();
}
