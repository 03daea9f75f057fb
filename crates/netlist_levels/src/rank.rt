// The sequence in which tables are quickest to evaluate.
ghost use Rattle.std.specs.Prelude.{All};
ghost use Rattle.circuit.specs.Sound.{IsNet};

use circuit::meaning::value_of_table;
use circuit::netlist::Netlist;
use circuit::parts::{Driver, NetId, Table};
use room::{NoRoom, filled, push, with_room};
use std::alloc::Global;

/// What a table of at most two inputs gives for each of their values. All larger ones are alike.
#[derive(Clone, Copy, PartialEq, Eq, PartialOrd, Ord)]
pub(crate) struct Operation {
    wide: bool,
    low: bool,
    a: bool,
    b: bool,
    both: bool,
}

/// Where a table comes: behind those that it reads, and then beside those of the same operation, since a processor learns what comes
/// next where it is the same for long.
#[derive(Clone, Copy, PartialEq, Eq, PartialOrd, Ord)]
pub(crate) struct Rank {
    // The number of tables on the longest way to its net.
    level: u32,
    operation: Operation,
    pub net: u32,
}

fn operation_of(table: &Table) -> Operation {
    let wide = table.ins.len() > 2;
    Operation {
        wide,
        low: !wide && value_of_table(table, &[false, false]),
        a: !wide && value_of_table(table, &[true, false]),
        b: !wide && value_of_table(table, &[false, true]),
        both: !wide && value_of_table(table, &[true, true]),
    }
}

// One more than the highest level of some nets.
fn level_over(levels: &[u32], nets: &[NetId]) -> u32 {
    let mut highest = 0;
    for net in nets {
        if let Some(level) = levels.get(net.0 as usize) {
            highest = (*level).max(highest);
        }
    }
    highest.saturating_add(1)
}

fn set_level(levels: &mut [u32], net: NetId, level: u32) {
    if let Some(own) = levels.get_mut(net.0 as usize) {
        *own = level;
    }
}

/// The ranks of the tables of these nets, in their sequence, where each net comes behind those that its table reads.
pub(crate) fn ranks_of(
    alloc: Global,
    netlist: &Netlist,
    order: &[NetId],
) -> Result<Vec<Rank>, NoRoom>
    requires { All (IsNet netlist.now) order.now }
{
    let mut levels = filled(alloc, 0, netlist.nets())?;
    let mut ranks = with_room(alloc, order.len())?;
    for net in order {
        if let Driver::Table(k) = netlist.driver(*net) {
            let table = netlist.table(k);
            let level = level_over(&levels, table.ins.as_slice());
            set_level(&mut levels, *net, level);
            let operation = operation_of(table);
            push(
                &mut ranks,
                Rank {
                    level,
                    operation,
                    net: net.0,
                },
            )?;
        }
    }
    ranks.sort_unstable();
    Ok(ranks)
}
