// The text of the rows of a rates file.
ghost use Rattle.std.specs.Prelude.{◌≡◌, ◌<◌, IfOk, Option, flat_map, length};
ghost use Rattle.circuit.specs.Sound.{IsNetlist};
ghost use Rattle.fm_base.specs.Lists.{below};
ghost use Rattle.fm_shelf.specs.Sink.{Sends};
ghost use Rattle.metric_sums.specs.Words.{role_word as word_of_role};
ghost use Rattle.campaign_tables.specs.PartTable.{part_table, row_line};
ghost use Rattle.campaign_tables.specs.PartSteps.{name_or_dash as name_by, unmatched_line, star_word as word_of_star};

use crate::counts::{count_none, counts_of, first_none, firsts_of};
use crate::look::{rows_of_latches, rows_of_nets};
use crate::words::covered_word;
use circuit::netlist::Netlist;
use circuit::parts::NetId;
use fm_shelf::lines::{number_word, write_line};
use fm_shelf::shelf::{Failed, Sink};
use fm_shelf::whole::write_pieces;
use metric_sums::words::role_word;
use rate_table::{Part, Pattern, Rates};
use room::NoRoom;
use std::alloc::Global;
use std::marker::Model;

/// A netlist and rates, with the row that takes each net and what each row takes. All memory is taken when it is made.
#[derive(Drop)]
pub struct PartTable<'a> {
    net: &'a Netlist,
    rates: &'a Rates,
    rows: Vec<Option<usize>>,
    net_counts: Vec<u32>,
    latch_counts: Vec<u32>,
    firsts: Vec<Option<u32>>,
}

impl<'a> Model for PartTable<'a> {
    ghost use Rattle.campaign_tables.specs.Counted.{Looked, IsCounted};

    ghost Value = { Looked };

    ghost view = { λ t. record { circuit = t.net.now; rates = t.rates.now } };

    ghost invariant = { λ t. IsCounted t.net.now t.rates.now t.rows.items t.net_counts.items t.latch_counts.items t.firsts.items };
}

// A star behind a pattern that has one.
fn star_word(pattern: &Pattern) -> &[u8]
    ensures { result.now ≡ word_of_star pattern.now.star }
{
    if pattern.star { b"*" } else { b"" }
}

// The word of a part's role.
fn role_of(part: &Part) -> &[u8]
    ensures { result.now ≡ word_of_role part.now.role }
{
    role_word(part.role)
}

// The name of a net, or `-` where there is none.
fn name_or_dash(net: &Netlist, place: Option<u32>) -> &[u8]
    ensures { result.now ≡ name_by net.now place }
{
    match place {
        Some(n) => net.name(NetId(n)),
        None => b"-",
    }
}

impl<'a> PartTable<'a> {
    /// Looks up each net, in the time of the nets and the rows; what each row takes is then counted in one pass over the nets
    /// and one over the latches.
    pub fn new(alloc: Global, net: &'a Netlist, rates: &'a Rates) -> Result<PartTable<'a>, NoRoom>
        ensures { IfOk result (λ table. table ≡ record { circuit = net.now; rates = rates.now }) }
    {
        let n = rates.patterns().len();
        let rows = rows_of_nets(alloc, net, rates)?;
        let latches = rows_of_latches(alloc, net, rates, &rows)?;
        let net_counts = counts_of(alloc, &rows, n)?;
        let latch_counts = counts_of(alloc, &latches, n)?;
        let firsts = firsts_of(alloc, &rows, n)?;
        Ok(PartTable {
            net,
            rates,
            rows,
            net_counts,
            latch_counts,
            firsts,
        })
    }

    // Writes the line of a row.
    fn write_row<O: Sink>(&self, k: usize, out: &mut O) -> Result<(), Failed>
        requires { k < length self.now.rates.patterns }
        ensures { Sends (O.seen out.old) (O.seen out.new)
            (row_line self.now.circuit self.now.rates k) result }
    {
        let pattern = &self.rates.patterns()[k];
        let part = &self.rates.parts()[pattern.part as usize];
        write_pieces(
            out,
            &[
                b"pattern ",
                pattern.name.as_slice(),
                star_word(pattern),
                b" ",
            ],
        )?;
        write_line(
            out,
            &[
                b"part",
                part.name.as_slice(),
                b"role",
                role_of(part),
                b"covered",
                covered_word(part),
                b"nets",
                number_word(u64::from(self.net_counts[k])).bytes(),
                b"latches",
                number_word(u64::from(self.latch_counts[k])).bytes(),
                b"first",
                name_or_dash(self.net, self.firsts[k]),
            ],
        )
    }

    // Writes how many nets no row takes, and the first of them.
    fn write_unmatched<O: Sink>(&self, out: &mut O) -> Result<(), Failed>
        ensures { Sends (O.seen out.old) (O.seen out.new)
            (unmatched_line self.now.circuit self.now.rates) result }
    {
        write_line(
            out,
            &[
                b"unmatched",
                number_word(count_none(&self.rows) as u64).bytes(),
                b"first",
                name_or_dash(self.net, first_none(&self.rows)),
            ],
        )
    }

    // Writes the line of each row.
    fn write_rows<O: Sink>(&self, out: &mut O) -> Result<(), Failed>
        ensures { Sends (O.seen out.old) (O.seen out.new)
            (flat_map (row_line self.now.circuit self.now.rates) (below (length self.now.rates.patterns))) result }
    {
        for k in 0..self.rates.patterns().len() {
            self.write_row(k, out)?;
        }
        Ok(())
    }

    /// Writes for each row of the rates file, in order, what it takes; and then how many nets no row takes. It takes no memory.
    pub fn write<O: Sink>(&self, out: &mut O) -> Result<(), Failed>
        ensures { Sends (O.seen out.old) (O.seen out.new)
            (part_table self.now.circuit self.now.rates) result }
    {
        self.write_rows(out)?;
        self.write_unmatched(out)
    }
}
