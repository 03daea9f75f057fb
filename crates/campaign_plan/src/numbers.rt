// What a plan is made of, and the part of each net and of each fault.
ghost use Rattle.std.specs.Prelude.{◌≡◌, ◌<◌, All, IfOk, length, map};
ghost use Rattle.circuit.specs.Sound.{IsNetlist};
ghost use Rattle.rate_table.specs.Table.{IsRateTable};
ghost use Rattle.workload.specs.RunsKept.{AreRuns};
ghost use Rattle.campaign_plan.specs.Kept.{AreSettings};
ghost use Rattle.campaign_plan.specs.Analysis.{all_faults, part_count, part_of};
ghost use Rattle.campaign_plan.specs.Making.{analysis, FaultsGive, NetsGive, AreNetParts};

use crate::{PlanRefusal, Settings};
use alarm_points::Points;
use circuit::netlist::Netlist;
use circuit::parts::NetId;
use fault_list::{FaultList, FaultRefusal, net_of};
use fm_base::{Name, Seq};
use rate_table::Rates;
use room::{NoRoom, from_slice, push};
use std::alloc::Global;
use workload::run::Workload;

/// What a plan is made of.
#[derive(Drop)]
pub(crate) struct Inputs {
    pub(crate) net: Netlist,
    pub(crate) work: Workload,
    pub(crate) rates: Rates,
    pub(crate) points: Points,
    pub(crate) set: Settings,
}

// A copy of a name.
pub(crate) fn name_of(alloc: Global, text: &[u8]) -> Result<Name, NoRoom>
    ensures { IfOk result (λ name. name ≡ text.now) }
{
    Ok(Seq::from_vec(from_slice(alloc, text)?))
}

// The number of each net's part, or the first net without one.
pub(crate) fn parts_of_nets(alloc: Global, p: &Inputs) -> Result<Seq<u32>, PlanRefusal>
    ensures { NetsGive (analysis p.now) result }
{
    let mut parts = Seq::new(alloc);
    for n in 0..p.net.nets() as u32 {
        let name = p.net.name(NetId(n));
        match p.rates.part_of(name) {
            Some(part) => parts.push(part)?,
            None => return Err(PlanRefusal::MissingRate(NetId(n), name_of(alloc, name)?)),
        }
    }
    Ok(parts)
}

// The number of each fault's part.
pub(crate) fn parts_of_faults(
    alloc: Global,
    p: &Inputs,
    faults: &FaultList,
    parts: &[u32],
) -> Result<Vec<u32>, NoRoom>
    requires sound { IsNetlist p.now.net }
    requires listed { faults.now ≡ all_faults (analysis p.now) }
    requires parts { AreNetParts (analysis p.now) parts.now }
    ensures { IfOk result (λ numbers. (numbers.items ≡ map (part_of (analysis p.now)) (all_faults (analysis p.now)))
        × All (λ number. number < part_count (analysis p.now)) numbers.items) }
{
    let mut numbers = Vec::new(alloc);
    for i in 0..faults.len() {
        let net = net_of(&p.net, faults.fault(i));
        push(&mut numbers, parts[net.0 as usize])?;
    }
    Ok(numbers)
}

// The faults, or there are too many of them.
pub(crate) fn list_faults(alloc: Global, p: &Inputs) -> Result<FaultList, PlanRefusal>
    requires { AreSettings p.now.set }
    ensures { FaultsGive (analysis p.now) result }
{
    let flips = p.set.flips.as_slice();
    match FaultList::new(alloc, &p.net, flips, p.set.pulses.as_slice()) {
        Ok(faults) => Ok(faults),
        Err(FaultRefusal::TooMany) => Err(PlanRefusal::TooManyFaults),
        Err(FaultRefusal::Memory(e)) => Err(PlanRefusal::Memory(e)),
    }
}

// What the types of the netlist, the workload and the rates keep.
pub(crate) fn kept(p: &Inputs)
    ensures netlist { IsNetlist p.now.net }
    ensures runs { AreRuns p.now.work }
    ensures rates { IsRateTable p.now.rates }
{
    p.net.nets();
    p.work.runs();
    p.rates.parts();
}
