// The shares of a part's rate that its faults get.
ghost use Rattle.std.specs.Prelude.{◌≡◌, ◌<◌, ◌≤◌, ◌^◌, true, false, IfOk, length, map, set};
ghost use Rattle.fm_base.specs.Lists.{below};
ghost use Rattle.rate_table.specs.Table.{IsRateTable};
ghost use Rattle.campaign_plan.specs.Analysis.{all_faults, fault_count, part_count};
ghost use Rattle.campaign_plan.specs.Making.{analysis};
ghost use Rattle.campaign_plan.specs.Shares.{HavePartNumbers, ArePartCounts, AreShares, next_weight, idle_of, less, share_at, share_of_rate, IdleGives, WeightsGive};
ghost use Rattle.campaign_plan.specs.Weights.{rate_of_kind, weight};

use crate::PlanRefusal;
use crate::numbers::{Inputs, name_of};
use fault_list::FaultList;
use rate_table::Part;
use room::{NoRoom, filled, push};
use std::alloc::Global;

// What each further fault of a part and kind gets of its rate, and how many of them get one unit more.
#[derive(Clone, Copy, Debug, PartialEq, Eq)]
struct Share {
    whole: u64,
    left: u64,
}

impl Share {
    // A rate in equal shares for so many faults. Without a fault nothing is shared.
    fn of_rate(rate: u64, count: u32) -> Share
        ensures { result ≡ share_of_rate rate count }
    {
        if count == 0 {
            return Share { whole: 0, left: 0 };
        }
        let count = u64::from(count);
        Share {
            whole: rate / count,
            left: rate % count,
        }
    }
}

// How many faults of a kind each part has.
fn counts(
    alloc: Global,
    p: &Inputs,
    faults: &FaultList,
    numbers: &[u32],
    permanent: bool,
) -> Result<Vec<u32>, NoRoom>
    requires { HavePartNumbers (analysis p.now) faults.now numbers.now }
    ensures { IfOk result (λ counts. ArePartCounts (analysis p.now) permanent (all_faults (analysis p.now)) counts.items) }
{
    let mut counts = filled(alloc, 0, p.rates.parts().len())?;
    for i in 0..faults.len() {
        if faults.fault(i).permanent() == permanent {
            counts[numbers[i as usize] as usize] += 1;
        }
    }
    Ok(counts)
}

// A part's rate of a kind, in units of 10^-6 FIT.
fn rate_of(part: &Part, permanent: bool) -> u64
    ensures { result ≡ rate_of_kind permanent part.now }
{
    if permanent {
        part.permanent
    } else {
        part.transient
    }
}

// Each part's share for its faults of a kind.
fn shares(alloc: Global, p: &Inputs, counts: &[u32], permanent: bool) -> Result<Vec<Share>, NoRoom>
    requires { ArePartCounts (analysis p.now) permanent (all_faults (analysis p.now)) counts.now }
    ensures { IfOk result (λ shares. AreShares (analysis p.now) permanent 0 shares.items) }
{
    let mut shares = Vec::new(alloc);
    for (k, part) in p.rates.parts().iter().enumerate() {
        push(
            &mut shares,
            Share::of_rate(rate_of(part, permanent), counts[k]),
        )?;
    }
    Ok(shares)
}

// The weight of the next fault of a part.
fn take_share(shares: &mut [Share], part: u32) -> u64
    requires part { part < length shares.old }
    requires small { (share_at shares.old part).whole < 2 ^ 63 }
    ensures weight { result ≡ next_weight (share_at shares.old part) }
    ensures rest { shares.new ≡ set shares.old part (less 1 (share_at shares.old part)) }
{
    let share = shares[part as usize];
    shares[part as usize] = Share {
        whole: share.whole,
        left: share.left.saturating_sub(1),
    };
    if share.left > 0 {
        share.whole + 1
    } else {
        share.whole
    }
}

// The weight of each fault, in units of 10^-6 FIT.
fn weights(
    alloc: Global,
    p: &Inputs,
    faults: &FaultList,
    numbers: &[u32],
    permanent: &mut [Share],
    transient: &mut [Share],
) -> Result<Vec<u64>, NoRoom>
    requires numbers { HavePartNumbers (analysis p.now) faults.now numbers.now }
    requires table { IsRateTable p.now.rates }
    requires permanent { AreShares (analysis p.now) true 0 permanent.old }
    requires transient { AreShares (analysis p.now) false 0 transient.old }
    ensures { IfOk result (λ weights. weights.items ≡ map (weight (analysis p.now)) (below (fault_count (analysis p.now)))) }
{
    let mut weights = Vec::new(alloc);
    for i in 0..faults.len() {
        let part = numbers[i as usize];
        let weight = if faults.fault(i).permanent() {
            take_share(permanent, part)
        } else {
            take_share(transient, part)
        };
        push(&mut weights, weight)?;
    }
    Ok(weights)
}

// The kind of a part's idle rate, permanent before transient: a rate above 0 for no fault.
fn idle_kind(part: &Part, of_permanent: u32, of_transient: u32) -> Option<bool>
    ensures { result ≡ idle_of part.now of_permanent of_transient }
{
    if part.permanent > 0 && of_permanent == 0 {
        Some(true)
    } else if part.transient > 0 && of_transient == 0 {
        Some(false)
    } else {
        None
    }
}

// Refuses the first idle rate.
fn refuse_idle(
    alloc: Global,
    p: &Inputs,
    of_permanent: &[u32],
    of_transient: &[u32],
) -> Result<(), PlanRefusal>
    requires permanent { ArePartCounts (analysis p.now) true (all_faults (analysis p.now)) of_permanent.now }
    requires transient { ArePartCounts (analysis p.now) false (all_faults (analysis p.now)) of_transient.now }
    ensures { IdleGives (analysis p.now) result }
{
    for (k, part) in p.rates.parts().iter().enumerate() {
        if let Some(permanent) = idle_kind(part, of_permanent[k], of_transient[k]) {
            let part = name_of(alloc, part.name.as_slice())?;
            return Err(PlanRefusal::IdleRate { part, permanent });
        }
    }
    Ok(())
}

// The weight of each fault, in units of 10^-6 FIT, or the first idle rate.
pub(crate) fn weigh(
    alloc: Global,
    p: &Inputs,
    faults: &FaultList,
    numbers: &[u32],
) -> Result<Vec<u64>, PlanRefusal>
    requires table { IsRateTable p.now.rates }
    requires numbers { HavePartNumbers (analysis p.now) faults.now numbers.now }
    ensures { WeightsGive (analysis p.now) result }
{
    let of_permanent = counts(alloc, p, faults, numbers, true)?;
    let of_transient = counts(alloc, p, faults, numbers, false)?;
    refuse_idle(alloc, p, &of_permanent, &of_transient)?;
    let mut permanent = shares(alloc, p, &of_permanent, true)?;
    let mut transient = shares(alloc, p, &of_transient, false)?;
    let all = weights(alloc, p, faults, numbers, &mut permanent, &mut transient)?;
    Ok(all)
}
