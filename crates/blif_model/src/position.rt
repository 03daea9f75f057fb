// Where a line stands, and what that makes of its rows.
ghost use Rattle.std.specs.Prelude.{◌≡◌, ◌∷◌, ◌++◌, [], List};
ghost use Rattle.std.specs.Option.{option_map};
ghost use Rattle.blif_model.specs.LineFault.{Said};
ghost use Rattle.blif_model.specs.LineSteps.{inside_after, plane_after, table_after};
ghost use Rattle.blif_model.specs.Meant.{meant};
ghost use Rattle.blif_model.specs.Position.{IsBehind};
ghost use Rattle.blif_model.specs.Tokens.{texts_of};

use crate::rows::output_of;
use crate::says::Says;
use blif_text::token::Token;

/// Where a line stands: inside a model, and below which table: its inputs, and the output of its first row.
#[derive(Clone, Copy)]
pub struct Position<'m, 'a> {
    pub inside: bool,
    pub table: Option<&'m [Token<'a>]>,
    pub output: Option<&'a [u8]>,
}

fn next_inside(says: Says<'_, '_>, inside: bool) -> bool
    ensures { result ≡ inside_after inside (meant says.entry) }
{
    match says {
        Says::Model(_) => true,
        Says::End => false,
        _ => inside,
    }
}

fn next_table<'m, 'a>(says: Says<'m, 'a>, above: Option<&'m [Token<'a>]>) -> Option<&'m [Token<'a>]>
    ensures { option_map (λ t. texts_of t.now) result ≡ table_after (option_map (λ t. texts_of t.now) above.entry) (meant says.entry) }
{
    match says {
        Says::Table { ins, .. } => Some(ins),
        Says::Row(_) | Says::Passed => above,
        _ => None,
    }
}

fn next_output<'a>(says: Says<'_, 'a>, above: Option<&'a [u8]>) -> Option<&'a [u8]>
    ensures { option_map (λ o. o.now) result ≡ plane_after (option_map (λ o. o.now) above.entry) (meant says.entry) }
{
    match says {
        Says::Row(tokens) => match above {
            Some(output) => Some(output),
            None => Some(output_of(tokens)),
        },
        Says::Passed => above,
        _ => None,
    }
}

impl<'m, 'a> Position<'m, 'a> {
    /// At the begin of a file.
    #[tactic(auto, unfolding(crate::specs::LineFault::is_inside, crate::specs::LineFault::table_above, crate::specs::LineFault::plane_above))]
    pub fn new() -> Self
        ensures { IsBehind [] result }
    {
        Position {
            inside: false,
            table: None,
            output: None,
        }
    }

    /// Behind a line that says this.
    #[tactic(auto, using(crate::proofs::TableRows::is_inside_more, crate::proofs::TableRows::table_above_more, crate::proofs::TableRows::plane_above_more))]
    pub fn after(self, says: Says<'m, 'a>) -> Self
        ensures { (before : List Said) (line : Said) → IsBehind before self.entry → meant says.entry ≡ line.says → IsBehind (before ++ line ∷ []) result }
    {
        Position {
            inside: next_inside(says, self.inside),
            table: next_table(says, self.table),
            output: next_output(says, self.output),
        }
    }
}
