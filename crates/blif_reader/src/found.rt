// The first name of a sort that has a mark, or lacks it.
ghost use Rattle.std.specs.Prelude.{◌≡◌, ◌<◌, Bool, false, IfSome, find, length, map, slice_index_or};
ghost use Rattle.std.specs.Option.{option_map, option_to_list};
ghost use Rattle.fm_base.specs.Names.{Name};
ghost use Rattle.blif_flatten.specs.Flat.{all_names};
ghost use Rattle.blif_flatten.specs.Flattened.{flat_steps};
ghost use Rattle.blif_flatten.specs.Sorts.{ids_of};
ghost use Rattle.blif_reader.specs.Found.{is_wanted, passes, visit_of, visits_by};

use crate::steps::step_at;
use blif_flatten::flat::{FlatModel, NameId};
use blif_flatten::sorts::{Mentions, Sort, mentions_in};

/// A name that was found, and its line.
#[derive(Clone, Copy)]
pub struct FoundName {
    pub line: u32,
    pub name: NameId,
}

/// The name has a mark.
pub fn is_marked(marks: &[bool], name: NameId) -> bool
    ensures { result ≡ slice_index_or marks.now name.0 false }
{
    marks.get(name.0).copied().unwrap_or(false)
}

/// The number, where its mark is the wanted one.
fn first_of(marks: &[bool], wanted: bool, id: Option<NameId>) -> Option<NameId>
    ensures { result ≡ find (is_wanted marks.now wanted) (option_to_list id) }
{
    id.filter(|id| is_marked(marks, *id) == wanted)
}

fn first_listed(marks: &[bool], wanted: bool, ids: &[NameId]) -> Option<NameId>
    ensures { result ≡ find (is_wanted marks.now wanted) ids.now }
{
    ids.iter()
        .copied()
        .find(|id| is_marked(marks, *id) == wanted)
}

/// The first number whose mark is the wanted one.
#[tactic(auto, using(crate::proofs::Finding::find_parts))]
fn first_in(marks: &[bool], wanted: bool, names: Mentions<'_>) -> Option<NameId>
    ensures { result ≡ find (is_wanted marks.now wanted) (ids_of names.entry) }
{
    first_listed(marks, wanted, names.list)
        .or(first_of(marks, wanted, names.then))
        .or(first_of(marks, wanted, names.last))
}

/// The first name of a sort whose mark is the wanted one, with its line.
pub fn first_found(
    flat: &FlatModel<'_, '_>,
    sort: Sort,
    marks: &[bool],
    wanted: bool,
) -> Option<FoundName>
    ensures visit { (test : Name → Bool) → marks.now ≡ map test (all_names (flat_steps flat.now)) → option_map (visit_of flat.now.names) result ≡ find (passes wanted test) (visits_by sort (flat_steps flat.now)) }
    ensures within { IfSome result (λ found. found.name.0 < length flat.now.names) }
{
    for place in 0..flat.steps.len() {
        let step = step_at(flat, place);
        match first_in(marks, wanted, mentions_in(&step.act, sort)) {
            Some(name) => {
                return Some(FoundName {
                    line: step.line,
                    name,
                });
            }
            None => {}
        }
    }
    None
}
