// The models of lines.
ghost use Rattle.std.specs.Prelude.{◌≡◌, ◌<◌, ◌≤◌, ◌∷◌, ◌++◌, length, IfOk, MatchOption, OnOk};
ghost use Rattle.std.specs.List.{position, position_or_len};
ghost use Rattle.std.specs.Option.{option_map, option_to_list};
ghost use Rattle.blif_model.specs.Models.{models_of};
ghost use Rattle.blif_model.specs.ModelSteps.{ends_model, model_from};
ghost use Rattle.blif_model.specs.Grouped.{model_of, models_seen};
ghost use Rattle.blif_model.specs.Meant.{meant};

use crate::read_line::ReadLine;
use crate::says::Says;
use room::{NoRoom, push};
use std::alloc::Global;

/// A model: its name, the number of its `.model` line, and the lines after it up to its end, rows among them. The rows of a
/// table are the rows that stand directly below its line, lines that are read past aside.
#[derive(Clone, Copy)]
pub struct ModelLines<'m, 'a> {
    pub name: &'a [u8],
    pub line: u32,
    pub items: &'m [ReadLine<'a>],
}

fn ends(line: &ReadLine<'_>) -> bool
    ensures { result ≡ ends_model line.now.says }
{
    match line.says() {
        Says::End | Says::Model(_) => true,
        _ => false,
    }
}

/// The place of the first line that ends a model.
fn first_end(lines: &[ReadLine<'_>]) -> Option<usize>
    ensures place { result ≡ position (λ l. ends_model l.says) lines.now }
    ensures within { MatchOption result (Unit {0}) (λ k. k < length lines.now) }
{
    lines.iter().position(ends)
}

/// The place of the first line that ends a model, or the number of lines.
#[tactic(auto, using(blif_text::proofs::FirstBytes::place_or_len))]
fn end_place(lines: &[ReadLine<'_>]) -> usize
    ensures place { result ≡ position_or_len (λ l. ends_model l.says) lines.now }
    ensures within { result ≤ length lines.now }
{
    first_end(lines).unwrap_or(lines.len())
}

/// The model that a line begins, if it begins one.
fn model_at<'m, 'a>(
    number: u32,
    says: Says<'m, 'a>,
    below: &'m [ReadLine<'a>],
) -> Option<ModelLines<'m, 'a>>
    ensures { option_to_list (option_map model_of result) ≡ model_from number below.now (meant says.entry) }
{
    match says {
        Says::Model(name) => Some(ModelLines {
            name,
            line: number,
            items: &below[..end_place(below)],
        }),
        _ => None,
    }
}

/// The model that a line begins goes behind the others.
#[tactic(auto, unfolding(crate::specs::Models::models_of))]
fn put_model<'m, 'a>(
    models: &mut Vec<ModelLines<'m, 'a>>,
    line: &'m ReadLine<'a>,
    below: &'m [ReadLine<'a>],
) -> Result<(), NoRoom>
    ensures { OnOk result (models_seen models.new.items ++ models_of below.now ≡ models_seen models.old.items ++ models_of (line.now ∷ below.now)) }
{
    match model_at(line.number(), line.says(), below) {
        Some(model) => {
            push(models, model)?;
            Ok(())
        }
        None => Ok(()),
    }
}

/// The models of lines, in their order.
pub fn models_in<'m, 'a>(
    alloc: Global,
    lines: &'m [ReadLine<'a>],
) -> Result<Vec<ModelLines<'m, 'a>>, NoRoom>
    ensures { IfOk result (λ v. models_seen v.items ≡ models_of lines.now) }
{
    let mut models = Vec::new(alloc);
    let mut rest = lines;
    'lines: while let [line, below @ ..] = rest {
        put_model(&mut models, line, below)?;
        rest = below;
    }
    Ok(models)
}
