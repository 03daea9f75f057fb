// What the tokens of a line say.
ghost use Rattle.std.specs.Prelude.{◌≡◌, ◌∷◌, length};
ghost use Rattle.bench_reader.specs.Gates.{gate_named};
ghost use Rattle.bench_reader.specs.Meant.{listed, meant, token_of};
ghost use Rattle.bench_reader.specs.Statement.{statement_of};
ghost use Rattle.bench_reader.specs.Steps.{driver_line, latch_line, names_in, port_line, table_line};
ghost use Rattle.bench_reader.specs.Tokens.{equals, name, opening, tokens_of};

use crate::gate::{gate_of, names_word};
use crate::names::{count_names, first_name, is_closing};
use crate::says::{Malformed, Says};
use crate::token::{Token, next_token};

/// `out = DFF(ins)`, with so many inputs.
fn latch_says<'a>(out: &'a [u8], ins: &'a [u8], count: usize) -> Says<'a>
    requires { count ≡ length (listed (tokens_of ins.now)) }
    ensures { meant result ≡ latch_line out.now (listed (tokens_of ins.now)) }
{
    if count != 1 {
        return Says::Wrong(Malformed::BadCount);
    }
    match first_name(ins) {
        Some(next) => Says::Latch {
            out,
            from: next.name,
        },
        None => Says::Wrong(Malformed::BadCount),
    }
}

/// `out = word(ins)` where the word isn't `DFF`, with so many inputs.
fn table_says<'a>(out: &'a [u8], word: &[u8], ins: &'a [u8], count: usize) -> Says<'a>
    requires { count ≡ length (listed (tokens_of ins.now)) }
    ensures { meant result ≡ table_line out.now (gate_named word.now) (listed (tokens_of ins.now)) }
{
    match gate_of(word) {
        Some(gate) => {
            if gate.takes(count) {
                Says::Table { out, gate, ins }
            } else {
                Says::Wrong(Malformed::BadCount)
            }
        }
        None => Says::Wrong(Malformed::BadGate),
    }
}

/// `out = word(`, and the text behind the bracket.
fn driver_says<'a>(out: &'a [u8], word: &[u8], ins: &'a [u8]) -> Says<'a>
    ensures { meant result ≡ driver_line out.now word.now (names_in (tokens_of ins.now)) }
{
    match count_names(ins) {
        Some(count) => {
            if names_word(b"DFF", word) {
                latch_says(out, ins, count)
            } else {
                table_says(out, word, ins, count)
            }
        }
        None => Says::Wrong(Malformed::BadLine),
    }
}

/// `word(net)`.
fn port_says<'a>(word: &[u8], net: &'a [u8]) -> Says<'a>
    ensures { meant result ≡ port_line word.now net.now }
{
    if names_word(b"INPUT", word) {
        return Says::Input(net);
    }
    if names_word(b"OUTPUT", word) {
        return Says::Output(net);
    }
    Says::Wrong(Malformed::BadLine)
}

/// A line that begins `word(`, and the text behind it.
fn behind_opening<'a>(word: &[u8], rest: &'a [u8]) -> Says<'a>
    ensures { meant result ≡ statement_of (name word.now ∷ opening ∷ tokens_of rest.now) }
{
    match first_name(rest) {
        Some(next) => {
            if is_closing(next.rest) {
                port_says(word, next.name)
            } else {
                Says::Wrong(Malformed::BadLine)
            }
        }
        None => Says::Wrong(Malformed::BadLine),
    }
}

/// A line that begins `out = word`, and the text behind it.
fn behind_word<'a>(out: &'a [u8], word: &[u8], rest: &'a [u8]) -> Says<'a>
    ensures { meant result ≡ statement_of (name out.now ∷ equals ∷ name word.now ∷ tokens_of rest.now) }
{
    match next_token(rest) {
        Some(next) => match next.token {
            Token::Opening => driver_says(out, word, next.rest),
            Token::Closing | Token::Comma | Token::Equals | Token::Name(_) => {
                Says::Wrong(Malformed::BadLine)
            }
        },
        None => Says::Wrong(Malformed::BadLine),
    }
}

/// A line that begins `out =`, and the text behind it.
fn behind_equals<'a>(out: &'a [u8], rest: &'a [u8]) -> Says<'a>
    ensures { meant result ≡ statement_of (name out.now ∷ equals ∷ tokens_of rest.now) }
{
    match first_name(rest) {
        Some(next) => behind_word(out, next.name, next.rest),
        None => Says::Wrong(Malformed::BadLine),
    }
}

/// A line that begins with a name, and the text behind it.
fn behind_name<'a>(first: &'a [u8], rest: &'a [u8]) -> Says<'a>
    ensures { meant result ≡ statement_of (name first.now ∷ tokens_of rest.now) }
{
    match next_token(rest) {
        Some(next) => match next.token {
            Token::Opening => behind_opening(first, next.rest),
            Token::Equals => behind_equals(first, next.rest),
            Token::Closing | Token::Comma | Token::Name(_) => Says::Wrong(Malformed::BadLine),
        },
        None => Says::Wrong(Malformed::BadLine),
    }
}

/// What a line without comment says.
pub fn text_says<'a>(text: &'a [u8]) -> Says<'a>
    ensures { meant result ≡ statement_of (tokens_of text.now) }
{
    match next_token(text) {
        Some(next) => match next.token {
            Token::Name(first) => behind_name(first, next.rest),
            Token::Opening | Token::Closing | Token::Comma | Token::Equals => {
                Says::Wrong(Malformed::BadLine)
            }
        },
        None => Says::Nothing,
    }
}
