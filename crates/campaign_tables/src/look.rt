// The rows that take the nets and the latches of a netlist.
ghost use Rattle.std.specs.Prelude.{◌≡◌, IfOk, position};
ghost use Rattle.circuit.specs.Sound.{IsNetlist};
ghost use Rattle.rate_table.specs.Table.{matches};
ghost use Rattle.campaign_tables.specs.Counted.{latch_rows, net_rows};

use circuit::netlist::Netlist;
use circuit::parts::NetId;
use rate_table::{Pattern, Rates};
use room::{NoRoom, push};
use std::alloc::Global;

// The number of the first pattern that matches a name.
fn row_of(patterns: &[Pattern], name: &[u8]) -> Option<usize>
    ensures { result ≡ position (λ pattern. matches pattern name.now) patterns.now }
{
    patterns.iter().position(|pattern| pattern.matches(name))
}

/// The number of the row that takes each net, if one does.
pub(crate) fn rows_of_nets(
    alloc: Global,
    net: &Netlist,
    rates: &Rates,
) -> Result<Vec<Option<usize>>, NoRoom>
    ensures rows { IfOk result (λ rows. rows.items ≡ net_rows net.now rates.now) }
    ensures netlist { IsNetlist net.now }
{
    let mut rows = Vec::new(alloc);
    for n in 0..net.nets() as u32 {
        push(&mut rows, row_of(rates.patterns(), net.name(NetId(n))))?;
    }
    Ok(rows)
}

/// The number of the row that takes the output net of each latch, if one does.
pub(crate) fn rows_of_latches(
    alloc: Global,
    net: &Netlist,
    rates: &Rates,
    rows: &[Option<usize>],
) -> Result<Vec<Option<usize>>, NoRoom>
    requires { rows.now ≡ net_rows net.now rates.now }
    ensures { IfOk result (λ latches. latches.items ≡ latch_rows net.now rates.now) }
{
    let mut latches = Vec::new(alloc);
    for latch in net.latches() {
        push(&mut latches, rows[latch.to.0 as usize])?;
    }
    Ok(latches)
}
