// The tokens of a line, one after the other.
ghost use Rattle.std.specs.Prelude.{◌≡◌, ◌∷◌, [], ◌<◌, ◌≤◌, true, not, length, nat_lt, IfSome, MatchOption};
ghost use Rattle.std.specs.List.{list_any, position_or_len};
ghost use Rattle.std.specs.Option.{option_map};
ghost use Rattle.bench_reader.specs.Meant.{begins_inked, token_of};
ghost use Rattle.bench_reader.specs.Tokens.{begins_name, ends_name, is_wide_token, mark_of, tokens_of};

use blif_text::places::is_white_byte;

/// A name with more bytes than this is too wide.
const MOST_BYTES: usize = 255;

/// One of the four marks, or a name.
#[derive(Clone, Copy)]
pub enum Token<'a> {
    Opening,
    Closing,
    Comma,
    Equals,
    Name(&'a [u8]),
}

/// The first token of a text, and the text behind it.
#[derive(Clone, Copy)]
pub struct Next<'a> {
    pub token: Token<'a>,
    pub rest: &'a [u8],
}

/// The mark that a byte is, if it is one.
fn mark<'a>(b: u8) -> Option<Token<'a>>
    ensures { option_map token_of result ≡ mark_of b }
{
    if b == b'(' {
        Some(Token::Opening)
    } else if b == b')' {
        Some(Token::Closing)
    } else if b == b',' {
        Some(Token::Comma)
    } else if b == b'=' {
        Some(Token::Equals)
    } else {
        None
    }
}

/// Whether a byte is no byte of a name: white space or a mark.
fn ends_name(b: u8) -> bool
    ensures { result ≡ ends_name b }
{
    is_white_byte(b) || b == b'(' || b == b')' || b == b',' || b == b'='
}

/// The place of the first byte that ends a name, or the length.
fn name_end(text: &[u8]) -> usize
    ensures place { result ≡ position_or_len ends_name text.now }
    ensures within { result ≤ length text.now }
{
    for (i, b) in text.iter().enumerate() {
        if ends_name(*b) {
            return i;
        }
    }
    text.len()
}

/// The name with which a text begins.
fn name_next<'a>(text: &'a [u8]) -> Next<'a>
    requires { begins_name text.now ≡ true }
    ensures first { tokens_of text.now ≡ token_of result.token ∷ tokens_of result.rest.now }
    ensures shorter { length result.rest.now < length text.now }
{
    let n = name_end(text);
    Next {
        token: Token::Name(&text[..n]),
        rest: &text[n..],
    }
}

/// The text without the white space in front.
fn inked(text: &[u8]) -> &[u8]
    ensures same { tokens_of result.now ≡ tokens_of text.now }
    ensures ink { begins_inked result.now ≡ true }
    ensures shorter { length result.now ≤ length text.now }
{
    for (i, b) in text.iter().enumerate() {
        if !is_white_byte(*b) {
            return &text[i..];
        }
    }
    &[]
}

/// The first token of a text, if it has one.
pub fn next_token<'a>(text: &'a [u8]) -> Option<Next<'a>>
    ensures first { MatchOption result (tokens_of text.now ≡ []) (λ n. tokens_of text.now ≡ token_of n.token ∷ tokens_of n.rest.now) }
    ensures shorter { IfSome result (λ n. length n.rest.now < length text.now) }
{
    let ink = inked(text);
    match ink {
        [] => None,
        [b, rest @ ..] => match mark(*b) {
            Some(token) => Some(Next { token, rest }),
            None => Some(name_next(ink)),
        },
    }
}

fn is_wide(token: Token<'_>) -> bool
    ensures { result ≡ is_wide_token (token_of token.entry) }
{
    match token {
        Token::Name(text) => text.len() > MOST_BYTES,
        Token::Opening | Token::Closing | Token::Comma | Token::Equals => false,
    }
}

fn has_wide(text: &[u8]) -> bool
    ensures { result ≡ list_any is_wide_token (tokens_of text.now) }
{
    let mut rest = text;
    'tokens: while let Some(next) = next_token(rest) {
        if is_wide(next.token) {
            return true;
        }
        rest = next.rest;
    }
    false
}

/// Whether some token of the text has more than 255 bytes.
pub fn is_wide_text(text: &[u8]) -> bool
    ensures { result ≡ list_any is_wide_token (tokens_of text.now) }
{
    text.len() > MOST_BYTES && has_wide(text)
}
