// What `parts` reads.
ghost use Rattle.std.specs.Prelude.{◌≡◌};
ghost use Rattle.campaign_plan.specs.declared.Settings.{Settings};
ghost use Rattle.command_reads.specs.Answers.{RatesAs};
ghost use Rattle.command_reads.specs.Files.{AreShort, reads_by};

use crate::files::Reads;
use crate::netlist::{Ordered, judge_netlist};
use crate::tables::rates_of;
use rate_table::Rates;
use refusals::refused::Refused;
use std::alloc::Global;

/// A netlist, and the rates of its parts.
#[derive(Drop)]
pub struct Rated {
    pub ordered: Ordered,
    pub rates: Rates,
}

/// The netlist and the rates of `parts`, as they were read. Nets without a part are no refusal.
pub(crate) fn judge_rated(alloc: Global, netlist: &str, reads: &Reads) -> Result<Rated, Refused>
    requires { AreShort (reads_by reads.now) }
    ensures { (set : Settings) → RatesAs netlist.now set (reads_by reads.now) result }
{
    let ordered = judge_netlist(alloc, netlist, reads)?;
    let rates = rates_of(alloc, reads)?;
    Ok(Rated { ordered, rates })
}
