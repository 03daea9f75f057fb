// The tables that a plan has at hand: its faults, and the part and the weight of each.
ghost use Rattle.circuit.specs.Sound.{IsNetlist};
ghost use Rattle.rate_table.specs.Table.{IsRateTable};
ghost use Rattle.campaign_plan.specs.Kept.{AreSettings};
ghost use Rattle.campaign_plan.specs.Making.{analysis, TablesGive};

use crate::PlanRefusal;
use crate::numbers::{Inputs, list_faults, parts_of_faults, parts_of_nets};
use crate::shares::weigh;
use fault_list::FaultList;
use std::alloc::Global;

/// The faults of a plan, and the number of the part and the weight of each.
#[derive(Drop)]
pub(crate) struct FaultTables {
    pub(crate) faults: FaultList,
    pub(crate) part_numbers: Vec<u32>,
    pub(crate) weights: Vec<u64>,
}

// The tables of a plan, or the first of what refuses it: too many faults, a net without a rate, an idle rate.
pub(crate) fn fault_tables(alloc: Global, p: &Inputs) -> Result<FaultTables, PlanRefusal>
    requires netlist { IsNetlist p.now.net }
    requires rates { IsRateTable p.now.rates }
    requires settings { AreSettings p.now.set }
    ensures { TablesGive (analysis p.now) result }
{
    let faults = list_faults(alloc, p)?;
    let parts = parts_of_nets(alloc, p)?;
    let part_numbers = parts_of_faults(alloc, p, &faults, parts.as_slice())?;
    let weights = weigh(alloc, p, &faults, &part_numbers)?;
    Ok(FaultTables {
        faults,
        part_numbers,
        weights,
    })
}
