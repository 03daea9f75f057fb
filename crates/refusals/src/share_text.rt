// The texts of `shard`, `merge` and `reweigh`.
ghost use Rattle.fm_shelf.specs.Sink.{Sends};
ghost use Rattle.refusals.specs.Texts.{merge_line, reweigh_line, rows_line, shard_line};

use fm_shelf::lines::{number_word, write_line};
use fm_shelf::shelf::{Failed, Sink};

/// Writes which part of how many was run, and how many rows it has.
pub fn write_shard<O: Sink>(part: u32, parts: u32, rows: u32, out: &mut O) -> Result<(), Failed>
    ensures { Sends (O.seen out.old) (O.seen out.new) (shard_line part parts rows) result }
{
    write_line(
        out,
        &[
            b"shard",
            number_word(u64::from(part)).bytes(),
            b"of",
            number_word(u64::from(parts)).bytes(),
            b"rows",
            number_word(u64::from(rows)).bytes(),
        ],
    )
}

// Writes behind this word that a file has so many rows, of so many batches.
fn write_rows<O: Sink>(word: &[u8], rows: usize, batches: u32, out: &mut O) -> Result<(), Failed>
    ensures { Sends (O.seen out.old) (O.seen out.new) (rows_line word.now rows batches) result }
{
    write_line(
        out,
        &[
            word,
            number_word(rows as u64).bytes(),
            b"of",
            number_word(u64::from(batches)).bytes(),
            b"rows",
        ],
    )
}

/// Writes that so many rows were merged, of so many batches.
pub fn write_merge<O: Sink>(rows: usize, batches: u32, out: &mut O) -> Result<(), Failed>
    ensures { Sends (O.seen out.old) (O.seen out.new) (merge_line rows batches) result }
{
    write_rows(b"merge", rows, batches, out)
}

/// Writes that so many rows have other sums now, of so many batches.
pub fn write_reweigh<O: Sink>(rows: usize, batches: u32, out: &mut O) -> Result<(), Failed>
    ensures { Sends (O.seen out.old) (O.seen out.new) (reweigh_line rows batches) result }
{
    write_rows(b"reweigh", rows, batches, out)
}
