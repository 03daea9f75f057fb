// Rows, read back.
ghost use Rattle.std.specs.Prelude.{◌≡◌, ◌≤◌, ◌<◌, ◌^◌, true, false, length, MatchOption, nat_eq, codes};
ghost use Rattle.std.specs.Str.{bytes_eq};
ghost use Rattle.std.specs.List.{position_or_len};
ghost use Rattle.result_file.specs.KeptRows.{hex_value, row_read, has_form, row_len};
ghost use Rattle.result_file.specs.Numbers.{IsNoNumber};

use crate::Row;
use crate::text::row_line;
use metric_sums::Sums;

const DIGITS: [u8; 16] = *b"0123456789abcdef";

// The value of a hexadecimal digit, or 16.
fn digit_of(byte: u8) -> usize
    ensures { result ≡ position_or_len (nat_eq byte) (codes "0123456789abcdef") }
{
    for (i, digit) in DIGITS.iter().enumerate() {
        if byte == *digit {
            return i;
        }
    }
    16
}

// The number in these digits, where each of them is one.
fn number(digits: &[u8]) -> Option<u64>
    requires { length digits.now ≤ 16 }
    ensures { MatchOption result (IsNoNumber digits.now) (λ n. (n ≡ hex_value digits.now) × (n < 16 ^ length digits.now)) }
{
    let mut n = 0u64;
    for byte in digits {
        let digit = digit_of(*byte);
        if digit >= 16 {
            return None;
        }
        n = 16 * n + digit as u64;
    }
    Some(n)
}

pub(crate) fn is_same(a: &[u8], b: &[u8]) -> bool
    ensures { result ≡ bytes_eq a.now b.now }
{
    a == b
}

/// The row in a piece of the file, where the piece has a row's form.
pub fn read_row(piece: &[u8]) -> Option<Row>
    requires { length piece.now ≡ row_len }
    ensures { MatchOption result (has_form piece.now ≡ false) (λ row. (row ≡ row_read piece.now) × (has_form piece.now ≡ true)) }
{
    let row = Row {
        batch: number(&piece[2..10])? as u32,
        danger: number(&piece[11..27])?,
        noticed: number(&piece[28..44])?,
        sums: Sums {
            permanent_all: number(&piece[45..61])?,
            permanent_danger: number(&piece[62..78])?,
            latent: number(&piece[79..95])?,
            transient_all: number(&piece[96..112])?,
            transient_danger: number(&piece[113..129])?,
        },
    };
    if is_same(row_line(&row).bytes(), piece) {
        Some(row)
    } else {
        None
    }
}
