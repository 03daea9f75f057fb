// Instances that nest without end, or too deep.
ghost use Rattle.std.specs.Prelude.{◌≡◌, ℕ, None, IfOk, map};
ghost use Rattle.std.specs.Option.{option_or};
ghost use Rattle.blif_model.specs.ModelFault.{recursive, too_deep, two_models};
ghost use Rattle.blif_model.specs.Models.{has_nest};
ghost use Rattle.blif_hierarchy.specs.Callees.{AllCallees};
ghost use Rattle.blif_hierarchy.specs.Rounds.{one_if};
ghost use Rattle.blif_hierarchy.specs.Components.{AreComponents, AreEdges};

use crate::components::components;
use crate::faults::fault_at;
use crate::graph::ModelGraph;
use crate::numbered::{main_line, ring_line};
use crate::rounds::after_rounds;
use blif_flatten::table::ModelTable;
use blif_model::models::ModelLines;
use blif_text::{NetlistFault, NetlistKind};
use room::{NoRoom, collect};
use std::alloc::Global;

/// The number of each model's component.
fn ring_numbers(alloc: Global, callees: &[Vec<usize>]) -> Result<Vec<u64>, NoRoom>
    requires { AreEdges callees.now }
    ensures { IfOk result (λ v. AreComponents callees.now v.items) }
{
    let numbers = components(alloc, callees)?;
    collect(numbers.iter().map(|number| *number as u64), alloc)
}

/// The fault of the first line of the file on a way back to its own model.
pub fn ring_fault(
    alloc: Global,
    models: &ModelTable<'_, '_>,
    callees: &[Vec<usize>],
) -> Result<Option<NetlistFault>, NoRoom>
    requires callees { AllCallees models.now models.now callees.now }
    requires within { AreEdges callees.now }
    requires apart { two_models models.now ≡ None }
    ensures { IfOk result (λ o. o ≡ recursive models.now) }
{
    let numbers = ring_numbers(alloc, callees)?;
    Ok(fault_at(
        ring_line(models, numbers.as_slice()),
        NetlistKind::Recursive,
    ))
}

/// One number for all models.
fn all_alike(alloc: Global, models: &[ModelLines<'_, '_>], number: u64) -> Result<Vec<u64>, NoRoom>
    ensures { IfOk result (λ v. v.items ≡ map (λ m. number) models.now) }
{
    collect(models.iter().map(|_| number), alloc)
}

/// 1 for each model with 32 instances in it, one in the other, and 0 for the others.
fn nest_numbers(
    alloc: Global,
    models: &ModelTable<'_, '_>,
    callees: &[Vec<usize>],
) -> Result<Vec<u64>, NoRoom>
    requires { AllCallees models.now models.now callees.now }
    ensures { IfOk result (λ v. v.items ≡ map (λ m. one_if (has_nest models.now 32 m)) models.now) }
{
    let own = all_alike(alloc, models.lines(), 0)?;
    let first = all_alike(alloc, models.lines(), 1)?;
    after_rounds(alloc, 32, own.as_slice(), callees, first.as_slice(), 1)
}

/// The fault of the first line of the main model whose instance has 32 more in it.
pub fn deep_fault(
    alloc: Global,
    models: &ModelTable<'_, '_>,
    callees: &[Vec<usize>],
) -> Result<Option<NetlistFault>, NoRoom>
    requires { AllCallees models.now models.now callees.now }
    ensures { IfOk result (λ o. o ≡ too_deep models.now) }
{
    let numbers = nest_numbers(alloc, models, callees)?;
    Ok(fault_at(
        main_line(models, numbers.as_slice(), 1),
        NetlistKind::TooDeep,
    ))
}

/// The fault of the nests of models, if there is one: Recursive, then TooDeep.
pub fn nest_fault(
    alloc: Global,
    models: &ModelTable<'_, '_>,
) -> Result<Option<NetlistFault>, NoRoom>
    requires { two_models models.now ≡ None }
    ensures { IfOk result (λ o. o ≡ option_or (recursive models.now) (too_deep models.now)) }
{
    let graph = ModelGraph::new(alloc, models)?;
    graph.nest_fault(alloc)
}
