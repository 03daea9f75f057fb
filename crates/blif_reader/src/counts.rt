// Instances, cells and clock names of a model, counted line by line.
ghost use Rattle.std.specs.Prelude.{◌≡◌, ◌+◌, ◌*◌, length, max, min, sum_by};
ghost use Rattle.std.specs.Option.{option_to_list};
ghost use Rattle.blif_model.specs.Grouped.{model_of};
ghost use Rattle.blif_model.specs.Meant.{control_said, meant};
ghost use Rattle.blif_model.specs.Models.{items_of, rows_below};
ghost use Rattle.blif_model.specs.ModelSteps.{cells_from};
ghost use Rattle.blif_reader.specs.Counts.{count_on, instances_on, model_count};
ghost use Rattle.blif_reader.specs.Mentions.{mentions_on};

use crate::rows::RowsBelow;
use blif_model::models::ModelLines;
use blif_model::read_line::ReadLine;
use blif_model::says::{Clocked, Says};

/// What is counted of a line.
#[derive(Clone, Copy)]
pub enum Count {
    /// It is a `.subckt` line.
    Instances,
    /// The cells of a table: rows times inputs, where none count as one.
    Cells,
    /// The names on a `.clock` line, and the control of a latch.
    Mentions,
}

fn line_instances(says: Says<'_, '_>) -> usize
    ensures { result ≡ instances_on (meant says.entry) }
{
    match says {
        Says::Instance { .. } => 1,
        _ => 0,
    }
}

/// The number of rows that stand directly below a line.
fn row_count(below: &[ReadLine<'_>]) -> usize
    ensures { result ≡ length (rows_below below.now) }
{
    let mut count: usize = 0;
    let mut left = RowsBelow { lines: below };
    'rows: while let Some(_) = left.next() {
        count += 1;
    }
    count
}

/// Rows times inputs, up to the cap, where none count as one.
fn capped_product(rows: usize, inputs: usize, cap: u64) -> u64
    ensures { result ≡ min cap (max 1 rows * max 1 inputs) }
{
    (rows.max(1) as u64)
        .saturating_mul(inputs.max(1) as u64)
        .min(cap)
}

/// The cells of a line, up to the cap.
fn line_cells(says: Says<'_, '_>, below: &[ReadLine<'_>], cap: u64) -> u64
    ensures { result ≡ min cap (cells_from (rows_below below.now) (meant says.entry)) }
{
    match says {
        Says::Table { ins, .. } => capped_product(row_count(below), ins.len(), cap),
        _ => 0,
    }
}

/// The control of a latch, where it has one; `NIL` is none.
fn control_count(clocking: Option<Clocked<'_>>) -> usize
    ensures { result ≡ length (option_to_list (control_said clocking.entry)) }
{
    match clocking {
        None => 0,
        Some(clocked) => {
            if clocked.control == b"NIL".as_slice() {
                0
            } else {
                1
            }
        }
    }
}

/// The clock names of a line.
fn line_mentions(says: Says<'_, '_>) -> usize
    ensures { result ≡ mentions_on (meant says.entry) }
{
    match says {
        Says::Clock(names) => names.len(),
        Says::Latch(line) => control_count(line.clocking),
        _ => 0,
    }
}

/// What is counted of a line, up to the cap.
fn line_count(count: Count, says: Says<'_, '_>, below: &[ReadLine<'_>], cap: u64) -> u64
    ensures { result ≡ min cap (count_on count (meant says.entry) (rows_below below.now)) }
{
    match count {
        Count::Instances => (line_instances(says) as u64).min(cap),
        Count::Cells => line_cells(says, below, cap),
        Count::Mentions => (line_mentions(says) as u64).min(cap),
    }
}

fn capped_add(total: u64, more: u64, cap: u64) -> u64
    ensures { result ≡ min cap (total + more) }
{
    total.saturating_add(more).min(cap)
}

/// What is counted of lines, summed up to the cap.
fn capped_lines(count: Count, lines: &[ReadLine<'_>], cap: u64) -> u64
    ensures { result ≡ min cap (sum_by (λ item. count_on count item.says item.rows) (items_of lines.now)) }
{
    let mut total: u64 = 0;
    for (place, line) in lines.iter().enumerate() {
        let own = line_count(count, line.says(), &lines[place + 1..], cap);
        total = capped_add(total, own, cap);
    }
    total
}

/// What is counted of a model's own lines, up to the cap.
pub fn capped_count(count: Count, model: &ModelLines<'_, '_>, cap: u64) -> u64
    ensures { result ≡ min cap (model_count count (model_of model.now)) }
{
    capped_lines(count, model.items, cap)
}
