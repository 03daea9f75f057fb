// What a directive makes of the tokens behind it.
ghost use Rattle.std.specs.Prelude.{◌≡◌};
ghost use Rattle.blif_model.specs.Statement.{table_line};
ghost use Rattle.blif_model.specs.StatementSteps.{end_line, model_line};
ghost use Rattle.blif_model.specs.Directed.{directed, instanced, latch_statement};
ghost use Rattle.blif_model.specs.Meant.{meant};
ghost use Rattle.blif_model.specs.Tokens.{texts_of};

use crate::says::{Clocked, LatchSays, Malformed, Says};
use blif_text::token::Token;

/// The directive of a line, as far as its tokens were looked at: the bindings of `Instance` are well-formed, and so are the
/// type and the initial value of `Latch`.
#[derive(Clone, Copy)]
pub enum Directive {
    Model,
    Inputs,
    Outputs,
    Clock,
    Table,
    /// `start` is true where the initial value is 1.
    Latch { start: bool },
    Instance,
    End,
    /// Lines of it are read past.
    Passed,
    /// The line is wrong by itself.
    Wrong(Malformed),
}

fn model_says<'m, 'a>(names: &'m [Token<'a>]) -> Says<'m, 'a>
    ensures { meant result ≡ model_line (texts_of names.now) }
{
    match names {
        [name] => Says::Model(name.text),
        _ => Says::Unnamed,
    }
}

fn end_says<'m, 'a>(names: &'m [Token<'a>]) -> Says<'m, 'a>
    ensures { meant result ≡ end_line (texts_of names.now) }
{
    if names.is_empty() {
        Says::End
    } else {
        Says::Wrong(Malformed::BadToken)
    }
}

#[tactic(auto, using(crate::proofs::Forms::table_is, crate::proofs::Forms::table_none))]
fn table_says<'m, 'a>(names: &'m [Token<'a>]) -> Says<'m, 'a>
    ensures { meant result ≡ table_line (texts_of names.now) }
{
    match names {
        [ins @ .., out] => Says::Table { ins, out: out.text },
        [] => Says::Wrong(Malformed::BadToken),
    }
}

fn instance_says<'m, 'a>(names: &'m [Token<'a>]) -> Says<'m, 'a>
    ensures { meant result ≡ instanced (texts_of names.now) }
{
    match names {
        [name, bindings @ ..] => Says::Instance {
            name: name.text,
            bindings,
        },
        [] => Says::Wrong(Malformed::BadToken),
    }
}

fn latch_says<'m, 'a>(start: bool, names: &'m [Token<'a>]) -> Says<'m, 'a>
    ensures { meant result ≡ latch_statement start (texts_of names.now) }
{
    match names {
        [from, to] | [from, to, _] => Says::Latch(LatchSays {
            from: from.text,
            to: to.text,
            clocking: None,
            start,
        }),
        [from, to, edge, control, ..] => Says::Latch(LatchSays {
            from: from.text,
            to: to.text,
            clocking: Some(Clocked {
                edge: edge.text,
                control: control.text,
            }),
            start,
        }),
        _ => Says::Wrong(Malformed::BadLatch),
    }
}

impl Directive {
    /// What the directive says of the names behind it.
    pub fn says<'m, 'a>(self, names: &'m [Token<'a>]) -> Says<'m, 'a>
        ensures { meant result ≡ directed self (texts_of names.now) }
    {
        match self {
            Directive::Model => model_says(names),
            Directive::Inputs => Says::Inputs(names),
            Directive::Outputs => Says::Outputs(names),
            Directive::Clock => Says::Clock(names),
            Directive::Table => table_says(names),
            Directive::Latch { start } => latch_says(start, names),
            Directive::Instance => instance_says(names),
            Directive::End => end_says(names),
            Directive::Passed => Says::Passed,
            Directive::Wrong(why) => Says::Wrong(why),
        }
    }
}
