// The way from the models of a file to the flattened main model.
ghost use Rattle.std.specs.Prelude.{◌≡◌, ◌<◌, ◌≤◌, ◌-◌, ◌^◌, IfOk, IfSome, length, MatchOption};
ghost use Rattle.blif_model.specs.Walk.{walk};
ghost use Rattle.blif_flatten.specs.Flat.{all_names};
ghost use Rattle.blif_flatten.specs.Flattened.{flat_steps};
ghost use Rattle.blif_flatten.specs.Thinned.{thinned};
ghost use Rattle.blif_flatten.specs.Walked.{IsWalkedOn};

use crate::flat::FlatModel;
use crate::names::NetNames;
use crate::place::Place;
use crate::table::ModelTable;
use crate::walk::walk_lines;
use crate::walked::Walked;
use fm_base::NameIndex;
use room::NoRoom;
use std::alloc::Global;

/// The walk of the main model, in which at most 32 instances stand one in the other.
fn walk_main<'m, 'a>(
    models: &ModelTable<'m, 'a>,
    walked: Walked<'m, 'a>,
) -> Result<Option<Walked<'m, 'a>>, NoRoom>
    ensures { IfOk result (IsWalkedOn walked.entry (walk models.now)) }
{
    match models.main() {
        None => Ok(Some(walked)),
        Some(main) => walk_lines(models, walked, &Place::Main, 32, main.items),
    }
}

/// The flattened main model, unless it has more than `most` names: then the walk ends at the line that has the first one too many.
#[tactic(auto, using(crate::proofs::Numbering::flat_of))]
pub fn flatten<'m, 'a>(
    alloc: Global,
    models: &ModelTable<'m, 'a>,
    most: usize,
) -> Result<Option<FlatModel<'m, 'a>>, NoRoom>
    ensures steps { IfOk result (λ o. MatchOption o ((most < 2 ^ 64 - 1) × (most < length (all_names (walk models.now)))) (λ f. flat_steps f ≡ thinned (walk models.now))) }
    ensures fits { IfOk result (λ o. IfSome o (λ f. length f.names ≤ most)) }
{
    let names = NetNames {
        alloc,
        index: NameIndex::new(alloc),
        buffer: Vec::new(alloc),
    };
    let walked = Walked {
        names,
        steps: Vec::new(alloc),
        most,
    };
    match walk_main(models, walked)? {
        None => Ok(None),
        Some(walked) => {
            let Walked { names, steps, .. } = walked;
            let NetNames { index, .. } = names;
            Ok(Some(FlatModel {
                names: index,
                steps,
            }))
        }
    }
}
