// The logical lines of a text.
ghost use Rattle.std.specs.Prelude.{◌≡◌, ◌++◌, ◌∷◌, [], ◌+◌, ◌<◌, ◌≤◌, ◌^◌, List, length, nat_lt, filter, IfOk, OnOk};
ghost use Rattle.std.specs.List.{enumerate_from, list_any};
ghost use Rattle.blif_text.specs.Placed.{has_tokens, is_wide, PlacedLine, placed_lines, Piece};
ghost use Rattle.blif_text.specs.Read.{line_of, lines_seen};
ghost use Rattle.blif_text.specs.Left.{lines_left};

use crate::ink::ink_of;
use crate::places::{behind, feed_place};
use crate::token::Token;
use crate::tokens::put_tokens;
use room::{NoRoom, push};
use std::alloc::Global;

/// A logical line: the number of its first physical line, and its tokens.
#[derive(Drop)]
pub struct TextLine<'a> {
    pub number: u32,
    pub tokens: Vec<Token<'a>>,
}

/// A logical line without a token so far.
fn new_line<'a>(alloc: Global, number: u32) -> TextLine<'a>
    ensures { line_of result ≡ record { number = number; tokens = [] } }
{
    TextLine {
        number,
        tokens: Vec::new(alloc),
    }
}

/// A line counts where it has a token.
fn put_line<'a>(done: &mut Vec<TextLine<'a>>, line: TextLine<'a>) -> Result<(), NoRoom>
    ensures { OnOk result ((more : List PlacedLine) → lines_seen done.new.items ++ filter has_tokens more ≡ lines_seen done.old.items ++ filter has_tokens (line_of line.entry ∷ more)) }
{
    if line.tokens.is_empty() {
        return Ok(());
    }
    push(done, line)?;
    Ok(())
}

/// One physical line, which goes on with a logical line. The answer is the one that the next physical line goes on with.
fn take_line<'a>(
    alloc: Global,
    done: &mut Vec<TextLine<'a>>,
    line: TextLine<'a>,
    number: u32,
    place: usize,
    text: &'a [u8],
) -> Result<TextLine<'a>, NoRoom>
    requires room { place + length text.now < 2 ^ 31 }
    requires counted { number ≤ 2 ^ 31 }
    ensures { IfOk result (λ next. (ps : List Piece) → lines_left (lines_seen done.old.items) (line_of line.entry) (enumerate_from number (record { start = place; text = text.now } ∷ ps)) ≡ lines_left (lines_seen done.new.items) (line_of next) (enumerate_from (number + 1) ps)) }
{
    let (ink, is_joined) = ink_of(text);
    let mut line = line;
    put_tokens(&mut line.tokens, place, ink)?;
    if is_joined {
        return Ok(line);
    }
    put_line(done, line)?;
    Ok(new_line(alloc, number + 1))
}

/// The logical lines that have tokens, whatever their width.
#[tactic(auto, using(crate::proofs::Cuts::pieces_first))]
pub fn all_lines<'a>(alloc: Global, bytes: &'a [u8]) -> Result<Vec<TextLine<'a>>, NoRoom>
    requires { length bytes.now < 2 ^ 31 }
    ensures { IfOk result (λ v. lines_seen v.items ≡ placed_lines bytes.now) }
{
    let mut done = Vec::new(alloc);
    let mut rest = bytes;
    let mut place = 0;
    let mut number = 1;
    let mut line = new_line(alloc, number);
    'lines: loop {
        let n = feed_place(rest);
        line = take_line(alloc, &mut done, line, number, place, &rest[..n])?;
        if n == rest.len() {
            put_line(&mut done, line)?;
            return Ok(done);
        }
        rest = behind(rest, n);
        place += n + 1;
        number += 1;
    }
}

/// A token that has more than 255 bytes.
fn is_wide_token(token: &Token<'_>) -> bool
    ensures { result ≡ nat_lt 255 (length token.now.text.now) }
{
    token.text.len() > 255
}

fn any_wide(tokens: &[Token<'_>]) -> bool
    ensures { result ≡ list_any (λ t. nat_lt 255 (length t.text.now)) tokens.now }
{
    tokens.iter().any(is_wide_token)
}

/// Some token of the line has more than 255 bytes.
#[tactic(auto, using(crate::proofs::Told::wide_pieces))]
pub fn is_wide_line(line: &TextLine<'_>) -> bool
    ensures { result ≡ is_wide (line_of line.now) }
{
    any_wide(line.tokens.as_slice())
}
