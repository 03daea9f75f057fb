// The models of a file, and the models that each of them instances.
ghost use Rattle.std.specs.Prelude.{◌≡◌, ℕ, None, IfOk, map, min};
ghost use Rattle.std.specs.Option.{option_or};
ghost use Rattle.blif_model.specs.ModelFault.{recursive, too_deep, two_models};
ghost use Rattle.blif_model.specs.Models.{Model, sum_over_instances};

use crate::callees::all_callees;
use crate::nest_faults::{deep_fault, ring_fault};
use crate::rounds::after_rounds;
use blif_flatten::table::ModelTable;
use blif_text::NetlistFault;
use room::NoRoom;
use std::alloc::Global;
use std::marker::Model;

/// The models of a file, and for each the places of those that it instances, which are looked up once.
#[derive(Drop)]
pub struct ModelGraph<'t, 'm, 'a> {
    models: &'t ModelTable<'m, 'a>,
    callees: Vec<Vec<usize>>,
}

impl<'t, 'm, 'a> Model for ModelGraph<'t, 'm, 'a> {
    ghost use Rattle.std.specs.Prelude.{List};
    ghost use Rattle.blif_model.specs.Models.{Model};
    ghost use Rattle.blif_hierarchy.specs.Callees.{AllCallees};
    ghost use Rattle.blif_hierarchy.specs.Components.{AreEdges};

    ghost Value = { List Model };

    ghost view = { λ g. g.models.now };

    ghost invariant = { λ g. AllCallees g.models.now g.models.now g.callees.items × AreEdges g.callees.items };
}

impl<'t, 'm, 'a> ModelGraph<'t, 'm, 'a> {
    /// The graph of these models.
    pub fn new(alloc: Global, models: &'t ModelTable<'m, 'a>) -> Result<Self, NoRoom>
        ensures { IfOk result (λ g. g ≡ models.now) }
    {
        let callees = all_callees(alloc, models)?;
        Ok(ModelGraph { models, callees })
    }

    /// The numbers of all models, summed over all instances in them down to depth 32, up to the cap.
    pub fn capped_totals(&self, alloc: Global, own: &[u64], cap: u64) -> Result<Vec<u64>, NoRoom>
        ensures { IfOk result (λ v. (f : Model → ℕ) → own.now ≡ map (λ m. min cap (f m)) self.now → v.items ≡ map (λ m. min cap (sum_over_instances f self.now 32 m)) self.now) }
    {
        after_rounds(alloc, 32, own, self.callees.as_slice(), own, cap)
    }

    /// The fault of the nests of models, if there is one: Recursive, then TooDeep.
    pub fn nest_fault(&self, alloc: Global) -> Result<Option<NetlistFault>, NoRoom>
        requires { two_models self.now ≡ None }
        ensures { IfOk result (λ o. o ≡ option_or (recursive self.now) (too_deep self.now)) }
    {
        let ring = ring_fault(alloc, self.models, self.callees.as_slice())?;
        if ring.is_some() {
            return Ok(ring);
        }
        deep_fault(alloc, self.models, self.callees.as_slice())
    }
}
