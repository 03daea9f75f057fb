// What of a physical line counts.
ghost use Rattle.std.specs.Prelude.{◌≡◌, ◌≤◌, length};
ghost use Rattle.blif_text.specs.Lines.{bare};
ghost use Rattle.blif_text.specs.Placed.{is_joined, inked, trimmed};

use crate::places::{hash_place, is_white_byte};

/// The text without the white space at its end.
pub fn trim(text: &[u8]) -> &[u8]
    ensures value { result.now ≡ trimmed text.now }
    ensures shorter { length result.now ≤ length text.now }
{
    let mut n = text.len();
    while n > 0 && is_white_byte(text[n - 1]) {
        n -= 1;
    }
    &text[..n]
}

/// The line without its comment and without the white space at its end.
#[tactic(auto, unfolding(crate::specs::Lines::bare))]
pub fn bare_line(text: &[u8]) -> &[u8]
    ensures value { result.now ≡ bare text.now }
    ensures shorter { length result.now ≤ length text.now }
{
    trim(&text[..hash_place(text)])
}

/// What of the line counts, and whether the next one is joined to it.
pub fn ink_of(text: &[u8]) -> (&[u8], bool)
    ensures ink { result.0.now ≡ inked text.now }
    ensures joined { result.1 ≡ is_joined text.now }
    ensures shorter { length result.0.now ≤ length text.now }
{
    let line = bare_line(text);
    if line.is_empty() {
        return (line, false);
    }
    let last = line.len() - 1;
    if line[last] == b'\\' {
        (&line[..last], true)
    } else {
        (line, false)
    }
}
