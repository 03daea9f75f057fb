// Model names that stand twice, and `.subckt` lines that fit no model.
ghost use Rattle.std.specs.Prelude.{◌≡◌, ◌∷◌, [], IfOk};
ghost use Rattle.fm_base.specs.Firsts.{first_answer};
ghost use Rattle.blif_model.specs.ModelFault.{bad_formal, two_models, unbound, unknown_model};

use crate::links::file_links;
use crate::names::NameSet;
use crate::ports::all_ports;
use blif_flatten::table::ModelTable;
use blif_text::{NetlistFault, NetlistKind};
use room::NoRoom;
use std::alloc::Global;

/// The first `.model` line that has the name of an earlier one.
fn two_models(alloc: Global, models: &ModelTable<'_, '_>) -> Result<Option<NetlistFault>, NoRoom>
    ensures { IfOk result (λ o. o ≡ two_models models.now) }
{
    let mut names = NameSet::new(alloc);
    for model in models.lines() {
        if !names.insert(model.name)? {
            return Ok(Some(NetlistFault {
                line: model.line,
                kind: NetlistKind::TwoModels,
            }));
        }
    }
    Ok(None)
}

/// The fault of the bindings, if there is one: the kinds from UnknownModel to Unbound.
fn link_fault(alloc: Global, models: &ModelTable<'_, '_>) -> Result<Option<NetlistFault>, NoRoom>
    ensures { IfOk result (λ o. o ≡ first_answer (unknown_model models.now ∷ bad_formal models.now ∷ unbound models.now ∷ [])) }
{
    let ports = all_ports(alloc, models.lines())?;
    let links = file_links(alloc, models, ports.as_slice())?;
    Ok(links.fault())
}

/// The fault of model names and bindings, if there is one: the kinds from TwoModels to Unbound, in this order.
pub fn port_fault(
    alloc: Global,
    models: &ModelTable<'_, '_>,
) -> Result<Option<NetlistFault>, NoRoom>
    ensures { IfOk result (λ o. o ≡ first_answer (two_models models.now ∷ unknown_model models.now ∷ bad_formal models.now ∷ unbound models.now ∷ [])) }
{
    let second = two_models(alloc, models)?;
    if second.is_some() {
        return Ok(second);
    }
    link_fault(alloc, models)
}
