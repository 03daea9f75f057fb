// The parts of a netlist, taken from the flattened model.
ghost use Rattle.std.specs.Prelude.{◌≡◌, ◌++◌, ℕ, IfOk, OnOk, filter_map, flat_map, length, map};
ghost use Rattle.std.specs.Option.{option_to_list};
ghost use Rattle.fm_base.specs.Names.{Name};
ghost use Rattle.net_names.specs.Nets.{net_id};
ghost use Rattle.blif_model.specs.WalkSteps.{latch_of, table_of, latch_net, outputs_at, table_net};
ghost use Rattle.blif_model.specs.Walk.{nets_of};
ghost use Rattle.blif_flatten.specs.declared.flat.NameId.{NameId};
ghost use Rattle.blif_flatten.specs.Flat.{act_by, AreBelow, ids_in, name_at};
ghost use Rattle.blif_flatten.specs.Flattened.{flat_steps};
ghost use Rattle.blif_reader.specs.Numbers.{AreNetNumbers, net_of_name};
ghost use Rattle.blif_reader.specs.Parts.{inputs_at, latch_in, names_of_part, net_latch, net_table, table_in};

use crate::nets::{net, nets};
use crate::rows::{plane_of, rows_of};
use crate::steps::step_at;
use blif_flatten::flat::{
    FlatModel, NameId, NumberedAct, NumberedLatch, NumberedStep, NumberedTable,
};
use circuit::parts::{Latch, Latches, NetId, NetIds, Table, Tables};
use fm_base::Seq;
use room::{NoRoom, extend};
use std::alloc::Global;
use std::slice;

/// Which names of a line are looked at.
#[derive(Clone, Copy)]
pub enum Part {
    /// Those on an `.inputs` line of the main model.
    Inputs,
    /// Those on an `.outputs` line of the main model.
    Outputs,
    /// The net that a table drives.
    TableNets,
    /// The net that a latch drives.
    LatchNets,
}

fn inputs<'s>(act: &'s NumberedAct<'_, '_>) -> &'s [NameId]
    ensures names { (f : NameId → Name) → map f result.now ≡ inputs_at (act_by f act.now) }
    ensures within { (n : ℕ) → AreBelow n (ids_in act.now) → AreBelow n result.now }
{
    match act {
        NumberedAct::Inputs(names) => names.as_slice(),
        _ => &[],
    }
}

fn outputs<'s>(act: &'s NumberedAct<'_, '_>) -> &'s [NameId]
    ensures names { (f : NameId → Name) → map f result.now ≡ outputs_at (act_by f act.now) }
    ensures within { (n : ℕ) → AreBelow n (ids_in act.now) → AreBelow n result.now }
{
    match act {
        NumberedAct::Outputs(names) => names.as_slice(),
        _ => &[],
    }
}

fn table_nets<'s>(act: &'s NumberedAct<'_, '_>) -> &'s [NameId]
    ensures names { (f : NameId → Name) → map f result.now ≡ table_net (act_by f act.now) }
    ensures within { (n : ℕ) → AreBelow n (ids_in act.now) → AreBelow n result.now }
{
    match act {
        NumberedAct::Table(table) => slice::from_ref(&table.out),
        _ => &[],
    }
}

fn latch_nets<'s>(act: &'s NumberedAct<'_, '_>) -> &'s [NameId]
    ensures names { (f : NameId → Name) → map f result.now ≡ latch_net (act_by f act.now) }
    ensures within { (n : ℕ) → AreBelow n (ids_in act.now) → AreBelow n result.now }
{
    match act {
        NumberedAct::Latch(latch) => slice::from_ref(&latch.to),
        _ => &[],
    }
}

fn names_in<'s>(act: &'s NumberedAct<'_, '_>, part: Part) -> &'s [NameId]
    ensures names { (f : NameId → Name) → map f result.now ≡ names_of_part part (act_by f act.now) }
    ensures within { (n : ℕ) → AreBelow n (ids_in act.now) → AreBelow n result.now }
{
    match part {
        Part::Inputs => inputs(act),
        Part::Outputs => outputs(act),
        Part::TableNets => table_nets(act),
        Part::LatchNets => latch_nets(act),
    }
}

/// The numbers of the names that the lines have as such a part.
pub fn part_ids(alloc: Global, flat: &FlatModel<'_, '_>, part: Part) -> Result<Vec<NameId>, NoRoom>
    ensures names { IfOk result (λ ids. map (name_at flat.now.names) ids.items ≡ flat_map (λ s. names_of_part part s.act) (flat_steps flat.now)) }
    ensures within { IfOk result (λ ids. AreBelow (length flat.now.names) ids.items) }
{
    let mut ids = Vec::new(alloc);
    for place in 0..flat.steps.len() {
        extend(&mut ids, names_in(&step_at(flat, place).act, part))?;
    }
    Ok(ids)
}

/// The nets that tables or latches drive.
pub fn part_nets(
    alloc: Global,
    flat: &FlatModel<'_, '_>,
    numbers: &[NetId],
    part: Part,
) -> Result<NetIds, NoRoom>
    requires { AreNetNumbers flat.now numbers.now }
    ensures { IfOk result (λ ids. ids ≡ map (net_id (nets_of (flat_steps flat.now))) (flat_map (λ s. names_of_part part s.act) (flat_steps flat.now))) }
{
    let ids = part_ids(alloc, flat, part)?;
    nets(alloc, numbers, ids.as_slice())
}

/// The tables and the latches.
#[derive(Drop)]
pub struct Cells {
    pub tables: Tables,
    pub latches: Latches,
}

fn table(alloc: Global, numbers: &[NetId], table: &NumberedTable<'_, '_>) -> Result<Table, NoRoom>
    ensures { IfOk result (λ t. t ≡ net_table numbers.now table.now) }
{
    let ins = nets(alloc, numbers, table.ins.as_slice())?;
    let rows = rows_of(alloc, table.below)?;
    Ok(Table {
        ins,
        rows,
        on: plane_of(table.below),
    })
}

fn latch(numbers: &[NetId], latch: &NumberedLatch<'_>) -> Latch
    ensures { result ≡ net_latch numbers.now latch.now }
{
    Latch {
        from: net(numbers, latch.from),
        to: net(numbers, latch.to),
        start: latch.start,
    }
}

/// The table or the latch of a line goes to the end.
fn put_cell(
    alloc: Global,
    numbers: &[NetId],
    cells: &mut Cells,
    act: &NumberedAct<'_, '_>,
) -> Result<(), NoRoom>
    ensures tables { OnOk result (cells.new.tables ≡ cells.old.tables ++ option_to_list (table_in numbers.now act.now)) }
    ensures latches { OnOk result (cells.new.latches ≡ cells.old.latches ++ option_to_list (latch_in numbers.now act.now)) }
{
    match act {
        NumberedAct::Table(of) => cells.tables.push(table(alloc, numbers, of)?),
        NumberedAct::Latch(of) => cells.latches.push(latch(numbers, of)),
        _ => Ok(()),
    }
}

#[tactic(auto, using(std::proofs::lemmas::Grind::common_steps, crate::proofs::NamedParts::filtered))]
fn take_cells(
    alloc: Global,
    steps: &[NumberedStep<'_, '_>],
    numbers: &[NetId],
) -> Result<Cells, NoRoom>
    ensures tables { IfOk result (λ c. c.tables ≡ filter_map (λ s. table_in numbers.now s.act) steps.now) }
    ensures latches { IfOk result (λ c. c.latches ≡ filter_map (λ s. latch_in numbers.now s.act) steps.now) }
{
    let mut cells = Cells {
        tables: Seq::new(alloc),
        latches: Seq::new(alloc),
    };
    for step in steps {
        put_cell(alloc, numbers, &mut cells, &step.act)?;
    }
    Ok(cells)
}

/// The tables and the latches of the flattened model.
pub fn cells_of(alloc: Global, flat: &FlatModel<'_, '_>, numbers: &[NetId]) -> Result<Cells, NoRoom>
    requires { AreNetNumbers flat.now numbers.now }
    ensures tables { IfOk result (λ c. c.tables ≡ filter_map (λ s. table_of (nets_of (flat_steps flat.now)) s.act) (flat_steps flat.now)) }
    ensures latches { IfOk result (λ c. c.latches ≡ filter_map (λ s. latch_of (nets_of (flat_steps flat.now)) s.act) (flat_steps flat.now)) }
{
    take_cells(alloc, flat.steps.as_slice(), numbers)
}
