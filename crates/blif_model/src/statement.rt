// The directive of a line, found out from its tokens.
ghost use Rattle.std.specs.Prelude.{◌≡◌, ◌∷◌, Some};
ghost use Rattle.blif_model.specs.Statement.{directive_line, statement_of};
ghost use Rattle.blif_model.specs.StatementSteps.{instance_line};
ghost use Rattle.blif_model.specs.Directed.{directed, stated};
ghost use Rattle.blif_model.specs.Tokens.{texts_of};

use crate::bindings::are_bindings;
use crate::directive::Directive;
use crate::latches::latch_directive;
use crate::says::Malformed;
use crate::words::{has_dot, is_read_past};
use blif_text::token::Token;

fn instance_directive(names: &[Token<'_>]) -> Directive
    ensures { directed result (texts_of names.now) ≡ instance_line (texts_of names.now) }
{
    match names {
        [_, bindings @ ..] => {
            if are_bindings(bindings) {
                Directive::Instance
            } else {
                Directive::Wrong(Malformed::BadToken)
            }
        }
        [] => Directive::Wrong(Malformed::BadToken),
    }
}

/// The directive of a word, with the names behind it.
#[tactic(auto, unfolding(crate::specs::Statement::directive_line, crate::specs::Statement::table_line))]
fn directive_of(word: &[u8], names: &[Token<'_>]) -> Directive
    ensures { directed result (texts_of names.now) ≡ directive_line word.now (texts_of names.now) }
{
    if word == b".model".as_slice() {
        return Directive::Model;
    }
    if word == b".inputs".as_slice() {
        return Directive::Inputs;
    }
    if word == b".outputs".as_slice() {
        return Directive::Outputs;
    }
    if word == b".clock".as_slice() {
        return Directive::Clock;
    }
    if word == b".names".as_slice() {
        return Directive::Table;
    }
    if word == b".latch".as_slice() {
        return latch_directive(names);
    }
    if word == b".subckt".as_slice() {
        return instance_directive(names);
    }
    if word == b".end".as_slice() {
        return Directive::End;
    }
    if is_read_past(word) {
        return Directive::Passed;
    }
    Directive::Wrong(Malformed::Directive)
}

/// The directive of a line, or nothing for a row.
#[tactic(auto, unfolding(crate::specs::Statement::statement_of))]
pub fn line_directive(tokens: &[Token<'_>]) -> Option<Directive>
    ensures { stated result (texts_of tokens.now) ≡ statement_of (texts_of tokens.now) }
{
    match tokens {
        [] => Some(Directive::Passed),
        [word, names @ ..] => {
            if has_dot(word.text) {
                Some(directive_of(word.text, names))
            } else {
                None
            }
        }
    }
}
