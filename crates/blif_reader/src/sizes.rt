// Numbers of the flattened main model, summed without a walk.
ghost use Rattle.std.specs.Prelude.{◌≡◌, ◌+◌, ◌-◌, ◌^◌, ◌||◌, IfOk, map, min, nat_lt};
ghost use Rattle.blif_model.specs.Grouped.{model_of};
ghost use Rattle.blif_model.specs.ModelSteps.{count_of_cells, count_of_instances};
ghost use Rattle.blif_reader.specs.Counts.{main_count, model_count};
ghost use Rattle.blif_reader.specs.Mentions.{count_of_mentions};

use crate::counts::{Count, capped_count};
use blif_flatten::table::ModelTable;
use blif_hierarchy::graph::ModelGraph;
use blif_model::models::ModelLines;
use room::{NoRoom, collect};
use std::alloc::Global;

/// More instances than this are too many.
const MOST_INSTANCES: u64 = 1 << 18;

/// More cells than this are too many.
const MOST_CELLS: u64 = 1 << 24;

/// More nets than this are too many.
pub const MOST_NETS: usize = 1 << 18;

fn own_counts(
    alloc: Global,
    models: &[ModelLines<'_, '_>],
    count: Count,
    cap: u64,
) -> Result<Vec<u64>, NoRoom>
    ensures { IfOk result (λ v. v.items ≡ map (λ m. min cap (model_count count (model_of m))) models.now) }
{
    collect(
        models.iter().map(|model| capped_count(count, model, cap)),
        alloc,
    )
}

/// What is counted in the flattened main model, up to the cap.
fn main_count(
    alloc: Global,
    models: &ModelTable<'_, '_>,
    graph: &ModelGraph<'_, '_, '_>,
    count: Count,
    cap: u64,
) -> Result<u64, NoRoom>
    requires graph { graph.now ≡ models.now }
    ensures { IfOk result (λ n. n ≡ min cap (main_count count models.now)) }
{
    let own = own_counts(alloc, models.lines(), count, cap)?;
    let totals = graph.capped_totals(alloc, own.as_slice(), cap)?;
    Ok(totals.first().copied().unwrap_or(0))
}

/// The flattened main model has more instances or more cells than may be.
pub fn is_large(
    alloc: Global,
    models: &ModelTable<'_, '_>,
    graph: &ModelGraph<'_, '_, '_>,
) -> Result<bool, NoRoom>
    requires { graph.now ≡ models.now }
    ensures { IfOk result (λ b. b ≡ (nat_lt (2 ^ 18) (count_of_instances models.now) || nat_lt (2 ^ 24) (count_of_cells models.now))) }
{
    let instances = main_count(alloc, models, graph, Count::Instances, MOST_INSTANCES + 1)?;
    let cells = main_count(alloc, models, graph, Count::Cells, MOST_CELLS + 1)?;
    Ok(instances > MOST_INSTANCES || cells > MOST_CELLS)
}

/// No flattened main model with at most 2^18 nets has more names than this: its nets, and a clock name wherever one may
/// stand.
pub fn most_names(
    alloc: Global,
    models: &ModelTable<'_, '_>,
    graph: &ModelGraph<'_, '_, '_>,
) -> Result<usize, NoRoom>
    requires { graph.now ≡ models.now }
    ensures counted { IfOk result (λ n. n ≡ min (2 ^ 64 - 1) (2 ^ 18 + count_of_mentions models.now)) }
{
    let mentions = main_count(alloc, models, graph, Count::Mentions, u64::MAX)?;
    Ok(MOST_NETS.saturating_add(mentions as usize))
}
