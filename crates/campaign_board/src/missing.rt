ghost use Rattle.std.specs.Prelude.{◌≡◌, ◌<◌, ◌==◌, ℕ, false, All, IfOk, vec_len, slice_index_or};
ghost use Rattle.std.specs.List.{list_any};
ghost use Rattle.campaign_board.specs.Boards.{batches_of};
ghost use Rattle.campaign_board.specs.Missing.{missing_below};

use fm_base::Seq;
use result_file::Row;
use room::{NoRoom, filled};
use std::alloc::Global;

/// Batches, each by its number in the plan.
pub type BatchList = Seq<u32>;

// For each batch whether some row has it
fn marks(alloc: Global, batches: u32, rows: &[Row]) -> Result<Vec<bool>, NoRoom>
    requires { All (λ batch. batch < batches) (batches_of rows.now) }
    ensures len { IfOk result (λ marks. vec_len marks ≡ batches) }
    ensures marks { IfOk result (λ marks. (batch : ℕ) → batch < batches → slice_index_or marks.items batch false ≡ list_any (λ other. other == batch) (batches_of rows.now)) }
{
    let mut marks = filled(alloc, false, batches as usize)?;
    for row in rows {
        marks[row.batch as usize] = true;
    }
    Ok(marks)
}

/// The batches below their number that no row has, in rising order.
pub fn missing_batches(alloc: Global, batches: u32, rows: &[Row]) -> Result<BatchList, NoRoom>
    requires { All (λ batch. batch < batches) (batches_of rows.now) }
    ensures { IfOk result (λ todo. todo ≡ missing_below batches (batches_of rows.now)) }
{
    let marks = marks(alloc, batches, rows)?;
    let mut todo = Seq::new(alloc);
    for batch in 0..batches {
        if !marks[batch as usize] {
            todo.push(batch)?;
        }
    }
    Ok(todo)
}
