// The bindings of a `.subckt` line.
ghost use Rattle.std.specs.Prelude.{◌≡◌, ◌+◌, ◌≤◌, drop, length, map};
ghost use Rattle.std.specs.List.{list_all};
ghost use Rattle.blif_model.specs.Statement.{binding_of};
ghost use Rattle.blif_model.specs.StatementSteps.{is_binding, is_whole};
ghost use Rattle.blif_model.specs.Tokens.{texts_of};

use blif_text::places::{behind, byte_place};
use blif_text::token::Token;

/// A formal of the instanced model, and the name that is bound to it.
#[derive(Clone, Copy)]
pub struct Pair<'a> {
    pub formal: &'a [u8],
    pub actual: &'a [u8],
}

/// The text behind a place, which may be its end.
fn text_behind(text: &[u8], place: usize) -> &[u8]
    requires { place ≤ length text.now }
    ensures { result.now ≡ drop (place + 1) text.now }
{
    if place < text.len() {
        behind(text, place)
    } else {
        b""
    }
}

/// A token, split at its first `=`. Of a token without one the actual is empty.
pub fn pair_of<'a>(text: &'a [u8]) -> Pair<'a>
    ensures { record { formal = result.formal.now; actual = result.actual.now } ≡ binding_of text.entry.now }
{
    let at = byte_place(text, b'=');
    Pair {
        formal: &text[..at],
        actual: text_behind(text, at),
    }
}

/// Both sides of the binding have a byte.
fn is_whole(text: &[u8]) -> bool
    ensures { result ≡ is_binding text.now }
{
    let pair = pair_of(text);
    !pair.formal.is_empty() && !pair.actual.is_empty()
}

/// All tokens are bindings.
fn all_whole(tokens: &[Token<'_>]) -> bool
    ensures { result ≡ list_all (λ t. is_binding t.text.now) tokens.now }
{
    tokens.iter().all(|token| is_whole(token.text))
}

/// The texts of all tokens are bindings.
#[tactic(auto, using(crate::proofs::Forms::bindings_seen))]
pub fn are_bindings(tokens: &[Token<'_>]) -> bool
    ensures { result ≡ list_all is_whole (map binding_of (texts_of tokens.now)) }
{
    all_whole(tokens)
}
