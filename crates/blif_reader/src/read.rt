// Reads the netlist of a file.
ghost use Rattle.std.specs.Prelude.{◌≡◌, ◌≤◌, ◌^◌, IfOk, length, nat_lt};
ghost use Rattle.blif_text.specs.declared.NetlistKind.TheVariants.{TooLarge};
ghost use Rattle.blif_model.specs.LineFault.{at_line};
ghost use Rattle.blif_model.specs.Models.{main_of};
ghost use Rattle.blif_model.specs.Net.{netlist_of};
ghost use Rattle.blif_model.specs.Walk.{nets_of};
ghost use Rattle.blif_flatten.specs.Flattened.{flat_steps};
ghost use Rattle.fm_base.specs.Answers.{Gives};
ghost use Rattle.blif_reader.specs.Passes.{AreClockMarks};
ghost use Rattle.blif_reader.specs.Stages.{IsNetlistIfGiven, models_give, unwalked_fault, walk_gives};

use crate::netlist::flat_netlist;
use crate::nets::net_count;
use crate::sizes::{MOST_NETS, is_large, most_names};
use crate::walk_faults::walk_fault;
use blif_flatten::flat::FlatModel;
use blif_flatten::flatten::flatten;
use blif_flatten::marks::marks_of;
use blif_flatten::sorts::Sort;
use blif_flatten::table::ModelTable;
use blif_hierarchy::graph::ModelGraph;
use blif_hierarchy::port_faults::port_fault;
use blif_model::model_list::read_models;
use blif_text::{NetlistFault, NetlistKind};
use circuit::netlist::Netlist;
use fm_base::Refusal;
use room::NoRoom;
use std::alloc::Global;

/// TooLarge at a line.
fn too_large(line: u32) -> NetlistFault
    ensures { result ≡ at_line line TooLarge }
{
    NetlistFault {
        line,
        kind: NetlistKind::TooLarge,
    }
}

/// Which names are clock names.
#[tactic(auto, unfolding(blif_flatten::specs::Sorts::names_by, blif_model::specs::Walk::clock_names))]
fn clock_marks(alloc: Global, flat: &FlatModel<'_, '_>) -> Result<Vec<bool>, NoRoom>
    ensures { IfOk result (λ marks. AreClockMarks flat.now marks.items) }
{
    marks_of(alloc, flat, Sort::Clock)
}

/// The flattened model has more nets than may be.
fn has_many_nets(flat: &FlatModel<'_, '_>, clocks: &[bool]) -> bool
    requires { AreClockMarks flat.now clocks.now }
    ensures { result ≡ nat_lt (2 ^ 18) (length (nets_of (flat_steps flat.now))) }
{
    net_count(clocks) > MOST_NETS
}

/// The netlist of the flattened model, unless its nets are too many or it has a fault.
fn read_flat(
    alloc: Global,
    flat: &FlatModel<'_, '_>,
    line: u32,
) -> Result<Netlist, Refusal<NetlistFault>>
    requires { IsNetlistIfGiven (walk_gives (flat_steps flat.now) line) }
    ensures { Gives (walk_gives (flat_steps flat.now) line) result }
{
    let clocks = clock_marks(alloc, flat)?;
    if has_many_nets(flat, clocks.as_slice()) {
        return Err(Refusal::Fault(too_large(line)));
    }
    match walk_fault(alloc, flat, clocks.as_slice())? {
        Some(fault) => Err(Refusal::Fault(fault)),
        None => Ok(flat_netlist(alloc, flat, clocks.as_slice())?),
    }
}

/// The line of the main model.
fn main_line(models: &ModelTable<'_, '_>) -> u32
    ensures { result ≡ (main_of models.now).line }
{
    match models.main() {
        Some(model) => model.line,
        None => 1,
    }
}

/// The fault of the models that is found without a walk: the kinds from TwoModels to TooLarge, in this order.
#[tactic(auto, using(fm_base::proofs::Options::none_both))]
fn file_fault(
    alloc: Global,
    models: &ModelTable<'_, '_>,
    graph: &ModelGraph<'_, '_, '_>,
    line: u32,
) -> Result<Option<NetlistFault>, NoRoom>
    requires graph { graph.now ≡ models.now }
    requires line { line ≡ (main_of models.now).line }
    ensures { IfOk result (λ o. o ≡ unwalked_fault models.now) }
{
    match port_fault(alloc, models)? {
        Some(fault) => return Ok(Some(fault)),
        None => {}
    }
    match graph.nest_fault(alloc)? {
        Some(fault) => return Ok(Some(fault)),
        None => {}
    }
    if is_large(alloc, models, graph)? {
        Ok(Some(too_large(line)))
    } else {
        Ok(None)
    }
}

/// The netlist of a file's models, where no line is faulty.
fn read_table(alloc: Global, models: &ModelTable<'_, '_>) -> Result<Netlist, Refusal<NetlistFault>>
    requires { IsNetlistIfGiven (models_give models.now) }
    ensures { Gives (models_give models.now) result }
{
    let line = main_line(models);
    let graph = ModelGraph::new(alloc, models)?;
    match file_fault(alloc, models, &graph, line)? {
        Some(fault) => return Err(Refusal::Fault(fault)),
        None => {}
    }
    let most = most_names(alloc, models, &graph)?;
    match flatten(alloc, models, most)? {
        Some(flat) => read_flat(alloc, &flat, line),
        None => Err(Refusal::Fault(too_large(line))),
    }
}

/// The netlist of the bytes of a BLIF file of at most 64 MiB. A faulty file is refused with the first fault in the order in which
/// faults are looked for: first those of single lines, where the first faulty line decides and on it the first kind of
/// `NoModel` to `TooWide`; then the first kind of `TwoModels` to `Undriven` in their order, at its first line.
pub fn read_blif(alloc: Global, bytes: &[u8]) -> Result<Netlist, Refusal<NetlistFault>>
    requires { length bytes.now ≤ 2 ^ 26 }
    ensures { Gives (netlist_of bytes.now) result }
{
    let list = read_models(alloc, bytes)?;
    let models = list.models(alloc)?;
    let table = ModelTable::new(alloc, models)?;
    read_table(alloc, &table)
}
