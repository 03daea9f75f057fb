// The models that a model instances, by their places.
ghost use Rattle.std.specs.Prelude.{◌≡◌, ◌<◌, ◌++◌, [], All, IfOk, OnOk, filter_map, length};
ghost use Rattle.std.specs.List.{cons_option};
ghost use Rattle.blif_hierarchy.specs.Callees.{AllCallees, callee_of, models_at};
ghost use Rattle.blif_hierarchy.specs.Lines.{instance_answer};

use blif_flatten::table::ModelTable;
use blif_model::read_line::ReadLine;
use blif_model::says::Says;
use room::{NoRoom, push};
use std::alloc::Global;

/// The place of the model that a line instances goes behind the others, where there is one.
#[tactic(auto, using(crate::proofs::FirstLines::line_steps))]
fn put_callee(
    models: &ModelTable<'_, '_>,
    places: &mut Vec<usize>,
    line: &ReadLine<'_>,
) -> Result<(), NoRoom>
    ensures within { OnOk result (All (λ k. k < length models.now) places.old.items → All (λ k. k < length models.now) places.new.items) }
    ensures models { OnOk result (models_at models.now places.new.items ≡ models_at models.now places.old.items ++ cons_option (instance_answer (callee_of models.now) line.now) []) }
{
    let Says::Instance { name, .. } = line.says() else {
        return Ok(());
    };
    if let Some(place) = models.place(name) {
        push(places, place)?;
    }
    Ok(())
}

/// The places of a model's instances.
#[tactic(auto, using(crate::proofs::FirstLines::line_steps))]
fn callees_of(
    alloc: Global,
    models: &ModelTable<'_, '_>,
    lines: &[ReadLine<'_>],
) -> Result<Vec<usize>, NoRoom>
    ensures within { IfOk result (λ v. All (λ k. k < length models.now) v.items) }
    ensures models { IfOk result (λ v. models_at models.now v.items ≡ filter_map (instance_answer (callee_of models.now)) lines.now) }
{
    let mut places = Vec::new(alloc);
    for line in lines {
        put_callee(models, &mut places, line)?;
    }
    Ok(places)
}

/// Those of each model.
#[tactic(auto, using(crate::proofs::Called::callee_steps))]
pub fn all_callees(alloc: Global, models: &ModelTable<'_, '_>) -> Result<Vec<Vec<usize>>, NoRoom>
    ensures within { IfOk result (λ v. All (λ c. All (λ k. k < length models.now) c.items) v.items) }
    ensures sums { IfOk result (λ v. AllCallees models.now models.now v.items) }
{
    let mut all = Vec::new(alloc);
    for model in models.lines() {
        push(&mut all, callees_of(alloc, models, model.items)?)?;
    }
    Ok(all)
}
