// Rounds over the models.
ghost use Rattle.std.specs.Prelude.{◌≡◌, ◌+◌, ℕ, IfOk, length, map, min, sum_by, slice_index};
ghost use Rattle.blif_model.specs.Models.{Model, sum_over_instances};
ghost use Rattle.blif_hierarchy.specs.Rounds.{next_round, rounds};

use crate::graph::ModelGraph;
use blif_flatten::table::ModelTable;
use room::{NoRoom, collect, from_slice};
use std::alloc::Global;

/// A number and those of the callees, summed up to the cap.
fn capped_sum(own: u64, callees: &[usize], before: &[u64], cap: u64) -> u64
    ensures { result ≡ min cap (own + sum_by (λ k. slice_index before.now k) callees.now) }
{
    let mut total = own.min(cap);
    for k in callees {
        let more = before.get(*k).copied().unwrap_or(0);
        total = total.saturating_add(more).min(cap);
    }
    total
}

/// The numbers one level deeper.
fn round(
    alloc: Global,
    own: &[u64],
    callees: &[Vec<usize>],
    before: &[u64],
    cap: u64,
) -> Result<Vec<u64>, NoRoom>
    ensures { IfOk result (λ v. v.items ≡ next_round cap own.now callees.now before.now) }
{
    collect(
        own.iter().zip(callees).map(|(number, list)| capped_sum(
            *number,
            list.as_slice(),
            before,
            cap,
        )),
        alloc,
    )
}

/// The numbers so many levels deeper than these first ones.
pub fn after_rounds(
    alloc: Global,
    depth: u32,
    own: &[u64],
    callees: &[Vec<usize>],
    first: &[u64],
    cap: u64,
) -> Result<Vec<u64>, NoRoom>
    ensures { IfOk result (λ v. v.items ≡ rounds cap own.now callees.now first.now depth) }
{
    let mut numbers = from_slice(alloc, first)?;
    'rounds: for _depth in 0..depth {
        numbers = round(alloc, own, callees, numbers.as_slice(), cap)?;
    }
    Ok(numbers)
}

/// The numbers of all models, summed over all instances in them down to depth 32, up to the cap. Whoever asks for several sums
/// makes one `ModelGraph` for them.
pub fn capped_totals(
    alloc: Global,
    models: &ModelTable<'_, '_>,
    own: &[u64],
    cap: u64,
) -> Result<Vec<u64>, NoRoom>
    ensures { IfOk result (λ v. (f : Model → ℕ) → own.now ≡ map (λ m. min cap (f m)) models.now → v.items ≡ map (λ m. min cap (sum_over_instances f models.now 32 m)) models.now) }
{
    let graph = ModelGraph::new(alloc, models)?;
    graph.capped_totals(alloc, own, cap)
}
