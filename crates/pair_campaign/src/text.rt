// The text of pairs.
ghost use Rattle.std.specs.Prelude.{◌<◌, ◌++◌, count_by, flat_map};
ghost use Rattle.fault_list.specs.Faults.{fault_name};
ghost use Rattle.fm_base.specs.Lists.{below};
ghost use Rattle.campaign_plan.specs.Analysis.{fault_count, fault_numbered};
ghost use Rattle.pair_list.specs.Chosen.{AreFaults, pair_count, pair_numbered};
ghost use Rattle.fm_shelf.specs.Sink.{Sends};
ghost use Rattle.pair_campaign.specs.PairPlanes.{pair_bit};
ghost use Rattle.pair_campaign.specs.PairText.{line_by_bit, pair_line, pairs_line, text_by_planes};

use crate::crew::PairPlanes;
use crate::dangerous::{count_dangerous, has_pair_bit};
use campaign_plan::Plan;
use fm_shelf::lines::{number_word, write_line};
use fm_shelf::shelf::{Failed, Sink};
use fm_shelf::whole::write_all;
use pair_list::Pairs;

// Writes a text and the name of a fault behind it.
fn write_before_name<O: Sink>(
    plan: &Plan,
    before: &[u8],
    fault: u32,
    out: &mut O,
) -> Result<(), Failed>
    requires { fault < fault_count plan.now }
    ensures { Sends (O.seen out.old) (O.seen out.new)
        (before.now ++ fault_name plan.now.circuit (fault_numbered plan.now fault)) result }
{
    write_all(out, before)?;
    plan.faults().write_name(plan.net(), fault, out)
}

// Writes the line of a pair.
fn write_pair<O: Sink>(plan: &Plan, pairs: &Pairs, pair: u32, out: &mut O) -> Result<(), Failed>
    requires pairs { AreFaults plan.now pairs.now }
    requires pair { pair < pair_count pairs.now }
    ensures { Sends (O.seen out.old) (O.seen out.new)
        (pair_line plan.now (pair_numbered pairs.now pair)) result }
{
    let first = pairs.first(pair);
    let second = pairs.second(pair);
    write_before_name(plan, b"pair ", first, out)?;
    write_before_name(plan, b" ", second, out)?;
    write_all(out, b"\n")
}

// Writes the line of a pair, where its bit is 1.
fn write_by_bit<O: Sink>(
    plan: &Plan,
    pairs: &Pairs,
    planes: &[u64],
    pair: u32,
    out: &mut O,
) -> Result<(), Failed>
    requires pairs { AreFaults plan.now pairs.now }
    requires pair { pair < pair_count pairs.now }
    ensures { Sends (O.seen out.old) (O.seen out.new)
        (line_by_bit plan.now pairs.now planes.now pair) result }
{
    if has_pair_bit(planes, pair) {
        write_pair(plan, pairs, pair, out)
    } else {
        Ok(())
    }
}

// Writes the line of each pair whose bit is 1.
fn write_dangerous<O: Sink>(
    plan: &Plan,
    pairs: &Pairs,
    planes: &[u64],
    out: &mut O,
) -> Result<(), Failed>
    requires { AreFaults plan.now pairs.now }
    ensures { Sends (O.seen out.old) (O.seen out.new)
        (flat_map (line_by_bit plan.now pairs.now planes.now) (below (pair_count pairs.now))) result }
{
    for pair in 0..pairs.count() {
        write_by_bit(plan, pairs, planes, pair, out)?;
    }
    Ok(())
}

// Writes how many pairs there are, and how many of their bits are 1.
fn write_numbers<O: Sink>(pairs: &Pairs, planes: &[u64], out: &mut O) -> Result<(), Failed>
    ensures { Sends (O.seen out.old) (O.seen out.new)
        (pairs_line (pair_count pairs.now) (count_by (pair_bit planes.now) (below (pair_count pairs.now)))) result }
{
    let count = pairs.count();
    let dangerous = count_dangerous(planes, count);
    write_line(
        out,
        &[
            b"pairs",
            number_word(u64::from(count)).bytes(),
            b"dangerous",
            number_word(u64::from(dangerous)).bytes(),
        ],
    )
}

/// Writes the line of each pair whose bit is 1, in order, and then how many pairs there are and how many of these bits are 1.
pub fn write_pairs<O: Sink>(
    plan: &Plan,
    pairs: &Pairs,
    planes: &PairPlanes,
    out: &mut O,
) -> Result<(), Failed>
    requires pairs { AreFaults plan.now pairs.now }
    ensures { Sends (O.seen out.old) (O.seen out.new)
        (text_by_planes plan.now pairs.now planes.now) result }
{
    write_dangerous(plan, pairs, planes.as_slice(), out)?;
    write_numbers(pairs, planes.as_slice(), out)
}
