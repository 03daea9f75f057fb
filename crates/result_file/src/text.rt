// The lines of a result file.
ghost use Rattle.std.specs.Prelude.{◌≡◌, ◌≤◌, ◌+◌, ◌*◌, ◌++◌, length};
ghost use Rattle.result_file.specs.ResultText.{header_text, row_text, digest_text};
ghost use Rattle.result_file.specs.KeptRows.{header_len, row_len};

use crate::Row;
use fm_base::Line;

/// The header of a result file: its form, the digest of what it is of, and the number of batches; 89 bytes with the line
/// feed.
pub fn header(digest: &[u8; 32], batches: u32) -> Line
    ensures text { result ≡ header_text digest.now batches }
    ensures len { length result ≡ header_len }
{
    let mut line = Line::new();
    line.put(b"fmeda-result 1 ");
    put_digest(&mut line, digest);
    line.put(b" ");
    line.put_hex8(batches);
    line.put(b"\n");
    line
}

// Two digits for each byte.
pub(crate) fn put_digest(line: &mut Line, digest: &[u8])
    requires { length line.old + 2 * length digest.now ≤ 160 }
    ensures bytes { line.new ≡ line.old ++ digest_text digest.now }
    ensures len { length line.new ≡ length line.old + 2 * length digest.now }
{
    for byte in digest {
        line.put_hex2(*byte);
    }
}

/// A row of a result file: the batch, the planes and the running sums; 130 bytes with the line feed.
pub fn row_line(row: &Row) -> Line
    ensures text { result ≡ row_text row.now }
    ensures len { length result ≡ row_len }
{
    let mut line = Line::new();
    line.put(b"r ");
    line.put_hex8(row.batch);
    line.put(b" ");
    line.put_hex16(row.danger);
    line.put(b" ");
    line.put_hex16(row.noticed);
    line.put(b" ");
    line.put_hex16(row.sums.permanent_all);
    line.put(b" ");
    line.put_hex16(row.sums.permanent_danger);
    line.put(b" ");
    line.put_hex16(row.sums.latent);
    line.put(b" ");
    line.put_hex16(row.sums.transient_all);
    line.put(b" ");
    line.put_hex16(row.sums.transient_danger);
    line.put(b"\n");
    line
}
