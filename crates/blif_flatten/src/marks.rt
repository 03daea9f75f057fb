// A mark for each name of a flattened model.
ghost use Rattle.std.specs.Prelude.{◌≡◌, IfOk, length};
ghost use Rattle.std.specs.Option.{option_to_list};
ghost use Rattle.blif_flatten.specs.Flat.{AreBelow};
ghost use Rattle.blif_flatten.specs.Marks.{AreMarksOf, marked};
ghost use Rattle.blif_flatten.specs.Sorts.{ids_of};

use crate::flat::{FlatModel, NameId};
use crate::sorts::{Mentions, Sort, mentions_in};
use room::{NoRoom, filled};
use std::alloc::Global;

fn mark_list(marks: &mut [bool], ids: &[NameId])
    requires { AreBelow (length marks.old) ids.now }
    ensures { marks.new ≡ marked marks.old ids.now }
{
    for id in ids {
        marks[id.0] = true;
    }
}

fn mark_one(marks: &mut [bool], id: Option<NameId>)
    requires { AreBelow (length marks.old) (option_to_list id) }
    ensures { marks.new ≡ marked marks.old (option_to_list id) }
{
    if let Some(id) = id {
        marks[id.0] = true;
    }
}

/// The names of a line are marked.
fn mark(marks: &mut [bool], names: Mentions<'_>)
    requires { AreBelow (length marks.old) (ids_of names) }
    ensures { marks.new ≡ marked marks.old (ids_of names.entry) }
{
    mark_list(marks, names.list);
    mark_one(marks, names.then);
    mark_one(marks, names.last);
}

/// Which names of the flattened model are of a sort, in order of their numbers.
pub fn marks_of(alloc: Global, flat: &FlatModel<'_, '_>, sort: Sort) -> Result<Vec<bool>, NoRoom>
    ensures { IfOk result (λ marks. AreMarksOf flat.now sort marks.items) }
{
    let mut marks = filled(alloc, false, flat.names.len())?;
    for step in flat.steps.as_slice() {
        mark(marks.as_mut_slice(), mentions_in(&step.act, sort));
    }
    Ok(marks)
}
