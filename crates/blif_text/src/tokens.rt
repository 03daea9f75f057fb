// The tokens of a physical line.
ghost use Rattle.std.specs.Prelude.{◌≡◌, ◌++◌, ◌∷◌, ◌+◌, ◌<◌, ◌^◌, length, filter, List, OnOk};
ghost use Rattle.blif_text.specs.Lines.{is_white};
ghost use Rattle.blif_text.specs.Placed.{has_bytes, Piece, pieces};
ghost use Rattle.blif_text.specs.Read.{pieces_of};

use crate::places::{behind, white_place};
use crate::token::Token;
use room::{NoRoom, push};

/// A piece is a token where it has a byte.
fn put_token<'a>(tokens: &mut Vec<Token<'a>>, start: usize, text: &'a [u8]) -> Result<(), NoRoom>
    requires { start + length text.now < 2 ^ 31 }
    ensures { OnOk result ((more : List Piece) → pieces_of tokens.new.items ++ filter has_bytes more ≡ pieces_of tokens.old.items ++ filter has_bytes (record { start = start; text = text.now } ∷ more)) }
{
    if text.is_empty() {
        return Ok(());
    }
    push(tokens, Token { start, text })?;
    Ok(())
}

/// The tokens of a text that begins at this place.
#[tactic(auto, using(crate::proofs::Cuts::pieces_first))]
pub fn put_tokens<'a>(
    tokens: &mut Vec<Token<'a>>,
    place: usize,
    text: &'a [u8],
) -> Result<(), NoRoom>
    requires { place + length text.now < 2 ^ 31 }
    ensures { OnOk result (pieces_of tokens.new.items ≡ pieces_of tokens.old.items ++ filter has_bytes (pieces is_white place text.now)) }
{
    let mut rest = text;
    let mut start = place;
    'pieces: loop {
        let n = white_place(rest);
        put_token(tokens, start, &rest[..n])?;
        if n == rest.len() {
            return Ok(());
        }
        rest = behind(rest, n);
        start += n + 1;
    }
}
