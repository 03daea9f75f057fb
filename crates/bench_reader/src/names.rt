// The names between brackets, one after the other.
ghost use Rattle.std.specs.Prelude.{◌≡◌, ◌∷◌, [], ◌+◌, ◌<◌, length, IfSome, MatchOption};
ghost use Rattle.std.specs.Option.{option_map};
ghost use Rattle.bench_reader.specs.Meant.{is_end, listed, more_listed, names_ahead, HasNoMore, HasNoName};
ghost use Rattle.bench_reader.specs.Statement.{more_names};
ghost use Rattle.bench_reader.specs.Steps.{names_in};
ghost use Rattle.bench_reader.specs.Tokens.{comma, name, tokens_of};

use crate::token::{Token, next_token};

/// A name, and the text behind it.
#[derive(Clone, Copy)]
pub struct NextName<'a> {
    pub name: &'a [u8],
    pub rest: &'a [u8],
}

/// The name with which a text begins, if it does.
pub fn first_name<'a>(text: &'a [u8]) -> Option<NextName<'a>>
    ensures first { MatchOption result (HasNoName (tokens_of text.now)) (λ n. tokens_of text.now ≡ name n.name.now ∷ tokens_of n.rest.now) }
    ensures left { names_ahead result ≡ listed (tokens_of text.now) }
    ensures shorter { IfSome result (λ n. length n.rest.now < length text.now) }
{
    let next = next_token(text)?;
    match next.token {
        Token::Name(name) => Some(NextName {
            name,
            rest: next.rest,
        }),
        Token::Opening | Token::Closing | Token::Comma | Token::Equals => None,
    }
}

/// The name that stands behind a comma, if the text begins so.
pub fn name_behind_comma<'a>(text: &'a [u8]) -> Option<NextName<'a>>
    ensures first { MatchOption result (HasNoMore (tokens_of text.now)) (λ n. tokens_of text.now ≡ comma ∷ name n.name.now ∷ tokens_of n.rest.now) }
    ensures left { names_ahead result ≡ more_listed (tokens_of text.now) }
    ensures shorter { IfSome result (λ n. length n.rest.now < length text.now) }
{
    let next = next_token(text)?;
    match next.token {
        Token::Comma => first_name(next.rest),
        Token::Opening | Token::Closing | Token::Equals | Token::Name(_) => None,
    }
}

/// The text has one token, a closing bracket.
pub fn is_closing(text: &[u8]) -> bool
    ensures { result ≡ is_end (tokens_of text.now) }
{
    match next_token(text) {
        Some(next) => match next.token {
            Token::Closing => next_token(next.rest).is_none(),
            Token::Opening | Token::Comma | Token::Equals | Token::Name(_) => false,
        },
        None => false,
    }
}

/// The number of names, where the text begins behind the first one; None where they are not well-formed.
fn count_more(text: &[u8]) -> Option<usize>
    ensures { result ≡ option_map (λ names. 1 + length names) (more_names (tokens_of text.now)) }
{
    let mut rest = text;
    let mut count: usize = 1;
    'names: while let Some(next) = name_behind_comma(rest) {
        count += 1;
        rest = next.rest;
    }
    if is_closing(rest) { Some(count) } else { None }
}

/// The number of names in a text behind an opening bracket: names with a comma between each two, and a closing bracket at the
/// end. None where the text has another form.
pub fn count_names(text: &[u8]) -> Option<usize>
    ensures { result ≡ option_map length (names_in (tokens_of text.now)) }
{
    match first_name(text) {
        Some(next) => count_more(next.rest),
        None => { if is_closing(text) { Some(0) } else { None } }
    }
}
