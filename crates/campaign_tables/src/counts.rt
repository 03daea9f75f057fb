// How many of some rows are each row, and which is the first.
ghost use Rattle.std.specs.Prelude.{◌≡◌, ◌≤◌, ◌<◌, ◌^◌, IfOk, count_by, find, is_none, length, set, unwrap_or};
ghost use Rattle.fm_base.specs.Lists.{below};
ghost use Rattle.campaign_tables.specs.Counted.{row_in_list, AreRowCounts, AreFirsts, AreRowsBelow};

use room::{NoRoom, filled};
use std::alloc::Global;

/// How many of these rows are each of the first `n`.
pub(crate) fn counts_of(alloc: Global, rows: &[Option<usize>], n: usize) -> Result<Vec<u32>, NoRoom>
    requires below { AreRowsBelow n rows.now }
    requires few { length rows.now ≤ 2 ^ 18 }
    ensures { IfOk result (λ counts. AreRowCounts n rows.now counts.items) }
{
    let mut counts = filled(alloc, 0, n)?;
    for row in rows {
        if let Some(k) = *row {
            counts[k] += 1;
        }
    }
    Ok(counts)
}

// Notes the place of a row, where none was noted.
fn note_first(firsts: &mut [Option<u32>], row: usize, place: u32)
    requires { row < length firsts.old }
    ensures { firsts.new ≡ set firsts.old row (Some (unwrap_or (row_in_list firsts.old row) place)) }
{
    if firsts[row].is_none() {
        firsts[row] = Some(place);
    }
}

/// The first place of each of the first `n` rows, among these.
pub(crate) fn firsts_of(
    alloc: Global,
    rows: &[Option<usize>],
    n: usize,
) -> Result<Vec<Option<u32>>, NoRoom>
    requires below { AreRowsBelow n rows.now }
    requires few { length rows.now ≤ 2 ^ 18 }
    ensures { IfOk result (λ firsts. AreFirsts n (length rows.now) rows.now firsts.items) }
{
    let mut firsts = filled(alloc, None, n)?;
    for (i, row) in rows.iter().enumerate() {
        if let Some(k) = *row {
            note_first(&mut firsts, k, i as u32);
        }
    }
    Ok(firsts)
}

/// How many of these rows are none.
pub(crate) fn count_none(rows: &[Option<usize>]) -> usize
    ensures { result ≡ count_by is_none rows.now }
{
    rows.iter().filter(|row| row.is_none()).count()
}

/// The first place where there is no row.
pub(crate) fn first_none(rows: &[Option<usize>]) -> Option<u32>
    requires { length rows.now ≤ 2 ^ 18 }
    ensures { result ≡ find (λ i. is_none (row_in_list rows.now i)) (below (length rows.now)) }
{
    for (i, row) in rows.iter().enumerate() {
        if row.is_none() {
            return Some(i as u32);
        }
    }
    None
}
