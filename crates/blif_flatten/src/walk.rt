// The walk of the flattened main model, line by line.
ghost use Rattle.std.specs.Prelude.{◌≡◌, ◌+◌, ◌<◌, ◌≤◌, ◌^◌, ◌++◌, map, IfOk, OnOk};
ghost use Rattle.blif_model.specs.Meant.{meant};
ghost use Rattle.blif_model.specs.Models.{items_of, rows_below};
ghost use Rattle.blif_model.specs.Walk.{acts_of, enter, steps_from};
ghost use Rattle.blif_model.specs.WalkSteps.{inner_steps, next, steps_of};
ghost use Rattle.blif_flatten.specs.Numbering.{own_step};
ghost use Rattle.blif_flatten.specs.Seen.{scope_at};
ghost use Rattle.blif_flatten.specs.Walked.{IsWalkedOn};

use crate::acts::act_of;
use crate::flat::{NumberedAct, NumberedStep};
use crate::place::{Place, inner_place};
use crate::table::ModelTable;
use crate::walked::Walked;
use blif_model::read_line::ReadLine;
use blif_model::says::Says;
use room::{NoRoom, push};

/// The step of a line, where it does something.
fn put_step<'m, 'a>(
    steps: &mut Vec<NumberedStep<'m, 'a>>,
    line: u32,
    act: Option<NumberedAct<'m, 'a>>,
) -> Result<(), NoRoom>
    ensures { OnOk result (steps.new.items ≡ steps.old.items ++ own_step line act.entry) }
{
    if let Some(act) = act {
        push(steps, NumberedStep { line, act })?;
    }
    Ok(())
}

/// The walk goes on by a line itself, unless that has a name too many.
fn walk_line<'m, 'a>(
    walked: Walked<'m, 'a>,
    place: &Place<'_>,
    line: u32,
    says: Says<'m, 'a>,
    below: &'m [ReadLine<'a>],
) -> Result<Option<Walked<'m, 'a>>, NoRoom>
    ensures { IfOk result (IsWalkedOn walked.entry (map (λ act. record { line = line; act = act }) (acts_of (scope_at place.now) (meant says.entry) (rows_below below.entry.now)))) }
{
    let Walked {
        mut names,
        mut steps,
        most,
    } = walked;
    let act = act_of(&mut names, place, says, below)?;
    put_step(&mut steps, line, act)?;
    if names.index.len() > most {
        return Ok(None);
    }
    Ok(Some(Walked { names, steps, most }))
}

/// The walk goes on by the instance of a line, if the line is one, down to this many instances, one in the other.
#[cycle(walk)]
fn walk_instance<'m, 'a>(
    models: &ModelTable<'m, 'a>,
    walked: Walked<'m, 'a>,
    place: &Place<'_>,
    depth: u32,
    instance: u64,
    says: Says<'m, 'a>,
) -> Result<Option<Walked<'m, 'a>>, NoRoom>
    ensures { IfOk result (IsWalkedOn walked.entry (inner_steps (enter models.now depth) (scope_at place.now) instance (meant says.entry))) }
{
    match says {
        Says::Instance { name, bindings } => {
            if depth == 0 {
                return Ok(Some(walked));
            }
            match models.find(name) {
                None => Ok(Some(walked)),
                Some(model) => {
                    let inner = inner_place(walked.names.alloc, place, instance, bindings)?;
                    walk_lines(models, walked, &inner, depth - 1, model.items)
                }
            }
        }
        _ => Ok(Some(walked)),
    }
}

/// The walk goes on by a line, and by its instance, if it is one.
#[cycle(walk)]
fn walk_item<'m, 'a>(
    models: &ModelTable<'m, 'a>,
    walked: Walked<'m, 'a>,
    place: &Place<'_>,
    depth: u32,
    instance: u64,
    line: &'m ReadLine<'a>,
    below: &'m [ReadLine<'a>],
) -> Result<Option<Walked<'m, 'a>>, NoRoom>
    ensures { IfOk result (IsWalkedOn walked.entry (steps_of (enter models.now depth) (scope_at place.now) instance (record { line = line.now.number; says = line.now.says; rows = rows_below below.now }))) }
{
    let says = line.says();
    match walk_line(walked, place, line.number(), says, below)? {
        None => Ok(None),
        Some(walked) => walk_instance(models, walked, place, depth, instance, says),
    }
}

/// The number of the next instance behind a line.
fn next_instance(instance: u64, says: Says<'_, '_>) -> u64
    requires { instance + 1 < 2 ^ 64 }
    ensures next { result ≡ next instance (meant says.entry) }
    ensures most { result ≤ instance + 1 }
{
    match says {
        Says::Instance { .. } => instance + 1,
        _ => instance,
    }
}

/// The walk goes on by the lines of a model, and the instances in it down to this many, one in the other. It ends at the
/// line that has the first name too many.
#[cycle(walk)]
pub fn walk_lines<'m, 'a>(
    models: &ModelTable<'m, 'a>,
    mut walked: Walked<'m, 'a>,
    place: &Place<'_>,
    depth: u32,
    lines: &'m [ReadLine<'a>],
) -> Result<Option<Walked<'m, 'a>>, NoRoom>
    ensures { IfOk result (IsWalkedOn walked.entry (steps_from (enter models.now depth) (scope_at place.now) 0 (items_of lines.now))) }
{
    let mut instance = 0;
    let mut rest = lines;
    'lines: while let [line, below @ ..] = rest {
        match walk_item(models, walked, place, depth, instance, line, below)? {
            None => return Ok(None),
            Some(more) => walked = more,
        }
        instance = next_instance(instance, line.says());
        rest = below;
    }
    Ok(Some(walked))
}
