// A result file, read back.
ghost use Rattle.std.specs.Prelude.{◌≡◌, ◌≤◌, ◌<◌, ◌^◌, length, take};
ghost use Rattle.fm_base.specs.Answers.{Gives};
ghost use Rattle.result_file.specs.KeptRows.{header_len, whole_pieces, kept, is_torn_header};
ghost use Rattle.result_file.specs.Answers.{RowsGive};

use crate::check::checked_row;
use crate::read::is_same;
use crate::{KeptRows, ResultRefusal, RowList};
use campaign_plan::Plan;
use fm_base::{Line, Refusal, Seq};
use metric_sums::Sums;
use std::alloc::Global;

const HEADER: usize = 89;

const ROW: usize = 130;

// The whole rows behind the header.
fn read_rows(alloc: Global, bytes: &[u8], plan: &Plan) -> Result<RowList, Refusal<ResultRefusal>>
    requires long { header_len ≤ length bytes.now }
    requires few { length bytes.now ≤ 2 ^ 26 }
    ensures { RowsGive plan.now (whole_pieces bytes.now) result }
{
    let mut rows: RowList = Seq::new(alloc);
    let mut sums = Sums::none();
    let count = (bytes.len() - HEADER) / ROW;
    for k in 0..count {
        let at = HEADER + ROW * k;
        match checked_row(plan, rows.as_slice(), &sums, &bytes[at..at + ROW]) {
            Ok(row) => {
                rows.push(row)?;
                sums = row.sums;
            }
            Err(why) => {
                let number = k as u32 + 1;
                return Err(Refusal::Fault(ResultRefusal::BadRow { number, why }));
            }
        }
    }
    Ok(rows)
}

// The file is shorter than a header, and begins as the own one does.
fn is_torn(own: &[u8], bytes: &[u8]) -> bool
    ensures { result ≡ is_torn_header own.now bytes.now }
{
    bytes.len() < HEADER && own.starts_with(bytes)
}

// The first bytes, as many as a header has.
fn head_of(bytes: &[u8]) -> &[u8]
    ensures { result.now ≡ take header_len bytes.now }
{
    &bytes[..bytes.len().min(HEADER)]
}

// A header's bytes as a line.
fn line_of(text: &[u8]) -> Line
    requires { length text.now ≤ header_len }
    ensures { result ≡ text.now }
{
    let mut line = Line::new();
    line.put(text);
    line
}

/// The rows of a result file and the number of bytes to keep, or why the file isn't one of this plan.
pub fn read_result(
    alloc: Global,
    bytes: &[u8],
    plan: &Plan,
    own: &Line,
) -> Result<KeptRows, Refusal<ResultRefusal>>
    requires own { length own.now ≡ header_len }
    requires few { length bytes.now ≤ 2 ^ 26 }
    ensures { Gives (kept own.now plan.now bytes.now) result }
{
    if is_torn(own.bytes(), bytes) {
        return Ok(KeptRows {
            rows: Seq::new(alloc),
            whole: 0,
        });
    }
    let head = head_of(bytes);
    if !is_same(head, own.bytes()) {
        return Err(Refusal::Fault(ResultRefusal::Foreign {
            found: line_of(head),
            own: line_of(own.bytes()),
        }));
    }
    match read_rows(alloc, bytes, plan) {
        Ok(rows) => {
            let whole = (HEADER + ROW * rows.len()) as u64;
            Ok(KeptRows { rows, whole })
        }
        Err(refusal) => Err(refusal),
    }
}
