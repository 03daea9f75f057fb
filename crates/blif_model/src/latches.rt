// `.latch` lines.
ghost use Rattle.std.specs.Prelude.{◌≡◌, ◌∷◌, [], List};
ghost use Rattle.fm_base.specs.Names.{Name};
ghost use Rattle.blif_model.specs.Statement.{latch_line};
ghost use Rattle.blif_model.specs.StatementSteps.{typed_latch};
ghost use Rattle.blif_model.specs.Directed.{directed};
ghost use Rattle.blif_model.specs.Tokens.{texts_of};

use crate::directive::Directive;
use crate::says::Malformed;
use crate::words::{is_edge_type, is_high, is_init_value, is_level_type};
use blif_text::token::Token;

/// A latch of a type.
fn typed(edge: &[u8], start: bool) -> Directive
    ensures { (from to control : Name) (names : List Name) → directed result (from ∷ to ∷ edge.now ∷ control ∷ names) ≡ typed_latch from to edge.now control start }
{
    if is_edge_type(edge) {
        return Directive::Latch { start };
    }
    if is_level_type(edge) {
        return Directive::Wrong(Malformed::LevelLatch);
    }
    Directive::Wrong(Malformed::BadLatch)
}

/// A latch with an initial value.
fn plain_from(init: &[u8]) -> Directive
    ensures { (from to : Name) → directed result (from ∷ to ∷ init.now ∷ []) ≡ latch_line (from ∷ to ∷ init.now ∷ []) }
{
    if is_init_value(init) {
        Directive::Latch {
            start: is_high(init),
        }
    } else {
        Directive::Wrong(Malformed::BadLatch)
    }
}

fn typed_from(edge: &[u8], init: &[u8]) -> Directive
    ensures { (from to control : Name) → directed result (from ∷ to ∷ edge.now ∷ control ∷ init.now ∷ []) ≡ latch_line (from ∷ to ∷ edge.now ∷ control ∷ init.now ∷ []) }
{
    if is_init_value(init) {
        typed(edge, is_high(init))
    } else {
        Directive::Wrong(Malformed::BadLatch)
    }
}

/// What the names behind `.latch` make of it.
pub fn latch_directive(names: &[Token<'_>]) -> Directive
    ensures { directed result (texts_of names.now) ≡ latch_line (texts_of names.now) }
{
    match names {
        [_, _] => Directive::Latch { start: false },
        [_, _, init] => plain_from(init.text),
        [_, _, edge, _control] => typed(edge.text, false),
        [_, _, edge, _, init] => typed_from(edge.text, init.text),
        _ => Directive::Wrong(Malformed::BadLatch),
    }
}
