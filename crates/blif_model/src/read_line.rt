// The lines of a file, each read once.
ghost use Rattle.std.specs.Prelude.{◌≡◌, ◌<◌, ◌^◌, length, map, IfOk};
ghost use Rattle.blif_text.specs.Read.{line_of};
ghost use Rattle.blif_model.specs.LineFault.{said_lines};
ghost use Rattle.blif_model.specs.LineSteps.{said};
ghost use Rattle.blif_model.specs.Meant.{meant};
ghost use Rattle.blif_model.specs.Directed.{stated};
ghost use Rattle.blif_model.specs.Tokens.{texts_of};

use crate::directive::Directive;
use crate::says::Says;
use crate::statement::line_directive;
use blif_text::lines::{TextLine, all_lines, is_wide_line};
use blif_text::token::Token;
use room::{NoRoom, collect};
use std::alloc::Global;
use std::marker::Model;

/// A line of a netlist file that was read once: its number, and its statement. Of a line that is read past no tokens are kept.
#[derive(Drop)]
pub struct ReadLine<'a> {
    number: u32,
    /// Some token has more than 255 bytes.
    is_wide: bool,
    /// Nothing for a row.
    directive: Option<Directive>,
    tokens: Vec<Token<'a>>,
}

impl<'a> Model for ReadLine<'a> {
    ghost use Rattle.blif_model.specs.LineFault.{Said};
    ghost use Rattle.blif_model.specs.Directed.{stated};
    ghost use Rattle.blif_model.specs.Tokens.{texts_of};

    ghost Value = { Said };

    ghost view = { λ s. record { number = s.number; says = stated s.directive (texts_of s.tokens.items); wide = s.is_wide } };
}

impl<'a> ReadLine<'a> {
    /// The number of its first physical line.
    pub fn number(&self) -> u32
        ensures { result ≡ self.now.number }
    {
        self.number
    }

    /// What the line says, as slices of the file and of the line's tokens. Nothing is parsed.
    pub fn says<'m>(&'m self) -> Says<'m, 'a>
        ensures { meant result ≡ self.now.says }
    {
        says_of(self.directive, self.tokens.as_slice())
    }

    /// Some token of the line has more than 255 bytes.
    pub fn is_wide(&self) -> bool
        ensures { result ≡ self.now.wide }
    {
        self.is_wide
    }
}

fn says_of<'m, 'a>(directive: Option<Directive>, tokens: &'m [Token<'a>]) -> Says<'m, 'a>
    ensures { meant result ≡ stated directive (texts_of tokens.now) }
{
    match directive {
        None => Says::Row(tokens),
        Some(directive) => match tokens {
            [_, names @ ..] => directive.says(names),
            [] => Says::Passed,
        },
    }
}

/// The tokens that a line keeps.
fn kept<'a>(alloc: Global, directive: Option<Directive>, tokens: Vec<Token<'a>>) -> Vec<Token<'a>>
    ensures { stated directive (texts_of result.items) ≡ stated directive (texts_of tokens.entry.items) }
{
    match directive {
        Some(Directive::Passed) => Vec::new(alloc),
        _ => tokens,
    }
}

#[tactic(auto, using(crate::proofs::Forms::texts_seen))]
fn read_line<'a>(alloc: Global, line: TextLine<'a>) -> ReadLine<'a>
    ensures { result ≡ said (line_of line.entry) }
{
    let is_wide = is_wide_line(&line);
    let directive = line_directive(line.tokens.as_slice());
    ReadLine {
        number: line.number,
        is_wide,
        directive,
        tokens: kept(alloc, directive, line.tokens),
    }
}

/// Lines, each read once.
fn read_all<'a>(alloc: Global, lines: Vec<TextLine<'a>>) -> Result<Vec<ReadLine<'a>>, NoRoom>
    ensures { IfOk result (λ v. v.items ≡ map (λ l. said (line_of l)) lines.entry.items) }
{
    collect(lines.into_iter().map(|line| read_line(alloc, line)), alloc)
}

/// The lines of a file.
#[tactic(auto, using(crate::proofs::Forms::lines_said))]
pub fn read_lines<'a>(alloc: Global, bytes: &'a [u8]) -> Result<Vec<ReadLine<'a>>, NoRoom>
    requires { length bytes.now < 2 ^ 31 }
    ensures { IfOk result (λ v. v.items ≡ said_lines bytes.now) }
{
    read_all(alloc, all_lines(alloc, bytes)?)
}
