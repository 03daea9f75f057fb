// What is gathered of the lines of a file, one after the other.
ghost use Rattle.std.specs.Prelude.{◌≡◌, ◌+◌, ◌-◌, ◌<◌, ◌≤◌, ◌^◌, Bool, true, length, is_none, IfOk, OnOk};
ghost use Rattle.bench_reader.specs.Gates.{gate_rule, takes_inputs};
ghost use Rattle.bench_reader.specs.Gather.{add_input, add_latch, add_output, add_said, add_table, driven_at, gate_table, is_full, no_lines, StatementFits};
ghost use Rattle.bench_reader.specs.Marks.{ids_from, mention_all};
ghost use Rattle.bench_reader.specs.Meant.{listed, meant};
ghost use Rattle.bench_reader.specs.Tokens.{tokens_of};

use crate::cells::rows_of;
use crate::gate::Gate;
use crate::names::{first_name, name_behind_comma};
use crate::nets::Nets;
use crate::parts::Parts;
use crate::says::Says;
use circuit::parts::{Latch, NetId, NetIds, Table};
use fm_base::Seq;
use room::NoRoom;
use std::alloc::Global;

/// More nets than this are too many.
const MOST_NETS: usize = 1 << 18;

/// More cells than this are too many.
const MOST_CELLS: u64 = 1 << 24;

/// What the lines bring: nets, parts, the number of cells of all tables, and the line of the first net that is driven a second
/// time. Parts are taken up to that line, and nothing is taken once there are too many nets or cells.
#[derive(Drop)]
pub struct Gathered<'a> {
    pub nets: Nets<'a>,
    pub parts: Parts,
    pub cells: u64,
    pub second: Option<u32>,
}

/// The nets of names, which a line names from left to right.
fn mention_names<'a>(
    alloc: Global,
    nets: &mut Nets<'a>,
    line: u32,
    ins: &'a [u8],
) -> Result<NetIds, NoRoom>
    requires { length nets.old.names + length (listed (tokens_of ins.now)) < 2 ^ 32 - 1 }
    ensures nets { OnOk result (nets.new ≡ mention_all line nets.old (listed (tokens_of ins.now))) }
    ensures ids { IfOk result (λ ids. ids ≡ ids_from line nets.old (listed (tokens_of ins.now))) }
{
    let mut ids = Seq::new(alloc);
    let mut ahead = first_name(ins);
    'names: while let Some(next) = ahead {
        ids.push(nets.mention(line, next.name)?)?;
        ahead = name_behind_comma(next.rest);
    }
    Ok(ids)
}

/// A net is driven at a line. The answer is whether no net is driven a second time, up to here.
fn drive(gathered: &mut Gathered<'_>, line: u32, net: NetId) -> bool
    ensures gathered { gathered.new ≡ driven_at gathered.old line net }
    ensures once { result ≡ is_none (driven_at gathered.old line net).second }
{
    if gathered.nets.drive(net) && gathered.second.is_none() {
        gathered.second = Some(line);
    }
    gathered.second.is_none()
}

fn put_input<'a>(gathered: &mut Gathered<'a>, line: u32, net: &'a [u8]) -> Result<(), NoRoom>
    requires { length gathered.old.nets.names ≤ 2 ^ 18 }
    ensures { OnOk result (gathered.new ≡ add_input gathered.old line net.now) }
{
    let net = gathered.nets.mention(line, net)?;
    if drive(gathered, line, net) {
        gathered.parts.inputs.push(net)?;
    }
    Ok(())
}

fn put_output<'a>(gathered: &mut Gathered<'a>, line: u32, net: &'a [u8]) -> Result<(), NoRoom>
    requires { length gathered.old.nets.names ≤ 2 ^ 18 }
    ensures { OnOk result (gathered.new ≡ add_output gathered.old line net.now) }
{
    let net = gathered.nets.mention(line, net)?;
    if !gathered.nets.give(net) {
        gathered.parts.outputs.push(net)?;
    }
    Ok(())
}

fn put_latch<'a>(
    gathered: &mut Gathered<'a>,
    line: u32,
    out: &'a [u8],
    from: &'a [u8],
) -> Result<(), NoRoom>
    requires { length gathered.old.nets.names ≤ 2 ^ 18 }
    ensures { OnOk result (gathered.new ≡ add_latch gathered.old line out.now from.now) }
{
    let to = gathered.nets.mention(line, out)?;
    let from = gathered.nets.mention(line, from)?;
    if drive(gathered, line, to) {
        gathered.parts.latches.push(Latch {
            from,
            to,
            start: false,
        })?;
        gathered.parts.latch_nets.push(to)?;
    }
    Ok(())
}

/// The table of a gate.
fn table_of(alloc: Global, gate: Gate, ins: NetIds) -> Result<Table, NoRoom>
    requires { takes_inputs gate (length ins) ≡ true }
    ensures table { IfOk result (λ t. t ≡ gate_table (gate_rule gate) ins) }
    ensures rows { IfOk result (λ t. length t.rows ≤ 256) }
    ensures ins { IfOk result (λ t. length t.ins ≤ 1024) }
{
    let rows = rows_of(alloc, gate, ins.len())?;
    Ok(Table {
        ins,
        rows,
        on: gate.plane(),
    })
}

fn put_table<'a>(
    alloc: Global,
    gathered: &mut Gathered<'a>,
    line: u32,
    out: &'a [u8],
    gate: Gate,
    ins: &'a [u8],
) -> Result<(), NoRoom>
    requires few { length gathered.old.nets.names ≤ 2 ^ 18 }
    requires small { gathered.old.cells ≤ 2 ^ 24 }
    requires fits { takes_inputs gate (length (listed (tokens_of ins.now))) ≡ true }
    ensures { OnOk result (gathered.new ≡ add_table gathered.old line out.now (gate_rule gate) (listed (tokens_of ins.now))) }
{
    let out = gathered.nets.mention(line, out)?;
    let ins = mention_names(alloc, &mut gathered.nets, line, ins)?;
    let table = table_of(alloc, gate, ins)?;
    gathered.cells += (table.rows.len() * table.ins.len()) as u64;
    if drive(gathered, line, out) {
        gathered.parts.tables.push(table)?;
        gathered.parts.table_nets.push(out)?;
    }
    Ok(())
}

impl<'a> Gathered<'a> {
    /// No lines yet.
    pub fn new(alloc: Global) -> Self
        ensures { result ≡ no_lines }
    {
        Gathered {
            nets: Nets::new(alloc),
            parts: Parts::new(alloc),
            cells: 0,
            second: None,
        }
    }

    /// Whether there are too many nets or cells.
    pub fn is_full(&self) -> bool
        ensures { result ≡ is_full self.now }
    {
        self.nets.len() > MOST_NETS || self.cells > MOST_CELLS
    }

    /// One more line.
    pub fn add(&mut self, alloc: Global, line: u32, says: Says<'a>) -> Result<(), NoRoom>
        requires { StatementFits (meant says) }
        ensures { OnOk result ((wide : Bool) → self.new ≡ add_said self.old (record { number = line; says = meant says.entry; wide = wide })) }
    {
        if self.is_full() {
            return Ok(());
        }
        match says {
            Says::Input(net) => put_input(self, line, net),
            Says::Output(net) => put_output(self, line, net),
            Says::Table { out, gate, ins } => put_table(alloc, self, line, out, gate, ins),
            Says::Latch { out, from } => put_latch(self, line, out, from),
            Says::Nothing | Says::Wrong(_) => Ok(()),
        }
    }
}
