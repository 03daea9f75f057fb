// The line of each refusal.
ghost use Rattle.std.specs.Prelude.{◌≡◌, ◌≤◌, ◌∷◌, ◌++◌, ◌==◌, [], map, length, take, codes, decimal, if◌then◌else◌};
ghost use Rattle.std.specs.List.{before_first};
ghost use Rattle.blif_text.specs.Lines.{is_feed};
ghost use Rattle.fm_base.specs.Text.{hex};
ghost use Rattle.circuit.specs.Circuit.{Circuit};
ghost use Rattle.result_file.specs.ResultText.{sums_words};
ghost use Rattle.refusals.specs.Said.{IsSaid};
ghost use Rattle.commands.specs.Commands.{name_by};
ghost use Rattle.refusals.specs.RefusalLines.{refused, row_why, refusal_line};
ghost use Rattle.refusals.specs.Steps.{planes_words, shown_byte, shown_start};

use crate::refusal::{refuse_row, say};
use blif_text::places::feed_place;
use campaign_plan::Outcome;
use fm_base::Line;
use fm_shelf::shelf::Sink;
use itoa::Buffer;
use metric_sums::Sums;
use result_file::RowFault;

fn hex16(v: u64) -> Line
    ensures { result ≡ hex 16 v }
{
    let mut line = Line::new();
    line.put_hex16(v);
    line
}

// A line on a batch whose planes are others than those of its row.
pub(crate) fn refuse_planes<'a, O: Sink>(
    out: &mut O,
    first: &'a [u8],
    batch: u32,
    second: &'a [u8],
    kept: Outcome,
    third: &'a [u8],
    computed: Outcome,
)
    ensures { IsSaid (O.seen out.old) (O.seen out.new)
        (refused (first.now ∷ decimal batch ∷ second.now ∷ planes_words kept ++ third.now ∷ planes_words computed)) }
{
    let mut digits = Buffer::new();
    let kept_danger = hex16(kept.danger);
    let kept_noticed = hex16(kept.noticed);
    let danger = hex16(computed.danger);
    let noticed = hex16(computed.noticed);
    say(
        out,
        &[
            b"refused:",
            first,
            digits.format(batch).as_bytes(),
            second,
            kept_danger.bytes(),
            kept_noticed.bytes(),
            third,
            danger.bytes(),
            noticed.bytes(),
        ],
    )
}

// The five sums of a row as words.
fn sums_lines(sums: Sums) -> [Line; 5]
    ensures { result ≡ sums_words sums }
{
    [
        hex16(sums.permanent_all),
        hex16(sums.permanent_danger),
        hex16(sums.latent),
        hex16(sums.transient_all),
        hex16(sums.transient_danger),
    ]
}

// A line on a row whose sums are others than those that were computed.
pub(crate) fn refuse_sums<'a, O: Sink>(
    out: &mut O,
    first: &'a [u8],
    number: u32,
    second: &'a [u8],
    kept: Sums,
    third: &'a [u8],
    computed: Sums,
)
    ensures { IsSaid (O.seen out.old) (O.seen out.new)
        (refused (first.now ∷ decimal number ∷ second.now ∷ sums_words kept ++ third.now ∷ sums_words computed)) }
{
    let mut digits = Buffer::new();
    let (kept, computed) = (sums_lines(kept), sums_lines(computed));
    say(
        out,
        &[
            b"refused:",
            first,
            digits.format(number).as_bytes(),
            second,
            kept[0].bytes(),
            kept[1].bytes(),
            kept[2].bytes(),
            kept[3].bytes(),
            kept[4].bytes(),
            third,
            computed[0].bytes(),
            computed[1].bytes(),
            computed[2].bytes(),
            computed[3].bytes(),
            computed[4].bytes(),
        ],
    )
}

// The line of a result file that lacks batches.
pub(crate) fn refuse_incomplete<O: Sink>(out: &mut O, have: u32, batches: u32)
    ensures { IsSaid (O.seen out.old) (O.seen out.new)
        (refused (codes "result file has" ∷ decimal have ∷ codes "of" ∷ decimal batches ∷ codes "batches" ∷ [])) }
{
    let mut digits = Buffer::new();
    let mut all_digits = Buffer::new();
    say(
        out,
        &[
            b"refused:",
            b"result file has",
            digits.format(have).as_bytes(),
            b"of",
            all_digits.format(batches).as_bytes(),
            b"batches",
        ],
    )
}

// The line of a window that is longer than the shortest interval.
pub(crate) fn refuse_window<O: Sink>(out: &mut O, window: u32, least: u32)
    ensures { IsSaid (O.seen out.old) (O.seen out.new)
        (refused (codes "window" ∷ decimal window ∷ codes "is longer than the shortest interval," ∷ decimal least ∷ [])) }
{
    let mut digits = Buffer::new();
    let mut least_digits = Buffer::new();
    say(
        out,
        &[
            b"refused:",
            b"window",
            digits.format(window).as_bytes(),
            b"is longer than the shortest interval,",
            least_digits.format(least).as_bytes(),
        ],
    )
}

// The line of a row that breaks a rule.
pub(crate) fn refuse_bad_row<O: Sink>(out: &mut O, number: u32, why: RowFault)
    ensures { IsSaid (O.seen out.old) (O.seen out.new)
        (refused (codes "result row" ∷ decimal number ∷ row_why why)) }
{
    match why {
        RowFault::Form => refuse_row(out, b"result row", number, b"Form"),
        RowFault::Range => refuse_row(out, b"result row", number, b"Range"),
        RowFault::Repeated => refuse_row(out, b"result row", number, b"Repeated"),
        RowFault::UnusedLane => refuse_row(out, b"result row", number, b"UnusedLane"),
        RowFault::Sums { kept, computed } => refuse_sums(
            out,
            b"result row",
            number,
            b"Sums kept",
            kept,
            b"computed",
            computed,
        ),
    }
}

fn shown(byte: u8) -> u8
    ensures { result ≡ shown_byte byte }
{
    if byte >= 32 && byte <= 126 {
        byte
    } else {
        b'?'
    }
}

// So many bytes, or all where there are fewer.
fn first_bytes(bytes: &[u8], count: usize) -> &[u8]
    ensures text { result.now ≡ take count bytes.now }
    ensures len { length result.now ≤ count }
{
    if bytes.len() > count {
        &bytes[..count]
    } else {
        bytes
    }
}

// The first bytes of a text, as they are shown.
fn shown_head(found: &[u8]) -> Line
    ensures text { result ≡ map shown_byte (take 88 found.now) }
    ensures len { length result ≤ 88 }
{
    let mut line = Line::new();
    for byte in first_bytes(found, 88) {
        line.put(&[shown(*byte)]);
    }
    line
}

// The bytes before the first line feed.
fn first_line(bytes: &[u8]) -> &[u8]
    ensures { result.now ≡ before_first is_feed bytes.now }
{
    &bytes[..feed_place(bytes)]
}

// The line of a result file under another header than the plan's own.
pub(crate) fn refuse_foreign<O: Sink>(out: &mut O, found: &[u8], own: &[u8])
    ensures { IsSaid (O.seen out.old) (O.seen out.new)
        (refused (codes "foreign result file, found" ∷ (shown_start found.now ++ 44 ∷ []) ∷ codes "own" ∷ take 88 own.now ∷ [])) }
{
    let mut shown = shown_head(first_line(found));
    shown.put(b",");
    say(
        out,
        &[
            b"refused:",
            b"foreign result file, found",
            shown.bytes(),
            b"own",
            first_bytes(own, 88),
        ],
    )
}
