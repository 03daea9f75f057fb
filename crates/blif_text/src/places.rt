// Where the first byte of a sort stands.
ghost use Rattle.std.specs.Prelude.{◌≡◌, ◌==◌, ◌+◌, ◌<◌, ◌≤◌, drop, length};
ghost use Rattle.std.specs.List.{position, position_or_len};
ghost use Rattle.blif_text.specs.Lines.{is_feed, is_hash, is_white};

use memchr::memchr;

/// The place of the first such byte, or the length.
#[tactic(auto, using(crate::proofs::FirstBytes::first_here, crate::proofs::FirstBytes::first_nowhere))]
pub fn byte_place(text: &[u8], byte: u8) -> usize
    ensures place { result ≡ position_or_len (λ b. b == byte) text.now }
    ensures within { result ≤ length text.now }
{
    match memchr(byte, text) {
        Some(at) => at,
        None => text.len(),
    }
}

/// The place of the first line feed, or the length.
pub fn feed_place(text: &[u8]) -> usize
    ensures place { result ≡ position_or_len is_feed text.now }
    ensures within { result ≤ length text.now }
{
    byte_place(text, b'\n')
}

/// The place of the first hash, or the length.
pub fn hash_place(text: &[u8]) -> usize
    ensures place { result ≡ position_or_len is_hash text.now }
    ensures within { result ≤ length text.now }
{
    byte_place(text, b'#')
}

/// Whether the byte is white: a space, a tab or a carriage return.
pub fn is_white_byte(b: u8) -> bool
    ensures { result ≡ is_white b }
{
    b == b' ' || b == b'\t' || b == b'\r'
}

fn first_white(text: &[u8]) -> Option<usize>
    ensures { result ≡ position is_white text.now }
{
    text.iter().position(|b| is_white_byte(*b))
}

/// The place of the first white byte, or the length.
#[tactic(auto, using(crate::proofs::FirstBytes::place_or_len))]
pub fn white_place(text: &[u8]) -> usize
    ensures place { result ≡ position_or_len is_white text.now }
    ensures within { result ≤ length text.now }
{
    first_white(text).unwrap_or(text.len())
}

/// The text behind a byte.
pub fn behind(text: &[u8], place: usize) -> &[u8]
    requires { place < length text.now }
    ensures value { result.now ≡ drop (place + 1) text.now }
    ensures len { length result.now + (place + 1) ≡ length text.now }
{
    &text[place + 1..]
}
