// The text of `audit`.
ghost use Rattle.std.specs.Prelude.{◌∷◌, [], codes, decimal};
ghost use Rattle.fm_base.specs.Text.{line};
ghost use Rattle.fm_shelf.specs.Sink.{Sends};
ghost use Rattle.refusals.specs.Texts.{audit_line};

use fm_shelf::lines::{number_word, write_line};
use fm_shelf::shelf::{Failed, Sink};

/// Writes that so many rows agree, each N-th of a file's, of so many batches.
pub fn write_audit<O: Sink>(
    every: u32,
    rows: usize,
    batches: u32,
    out: &mut O,
) -> Result<(), Failed>
    ensures { Sends (O.seen out.old) (O.seen out.new) (audit_line every rows batches) result }
{
    let rows = number_word(rows as u64);
    let batches = number_word(u64::from(batches));
    if every == 1 {
        return write_line(
            out,
            &[
                b"audit",
                rows.bytes(),
                b"of",
                batches.bytes(),
                b"rows agree",
            ],
        );
    }
    write_line(
        out,
        &[
            b"audit",
            rows.bytes(),
            b"of",
            batches.bytes(),
            b"rows agree",
            b"every",
            number_word(u64::from(every)).bytes(),
        ],
    )
}
