// `.subckt` lines against the models that they name.
ghost use Rattle.std.specs.Prelude.{◌≡◌, ◌||◌, ◌∷◌, [], IfOk, None, false, filter_map, fold, map, not};
ghost use Rattle.std.specs.List.{list_any};
ghost use Rattle.std.specs.Option.{option_map, option_map_or};
ghost use Rattle.fm_base.specs.Names.{is_one_of};
ghost use Rattle.blif_model.specs.ModelFault.{has_other};
ghost use Rattle.blif_model.specs.Models.{model_named};
ghost use Rattle.blif_model.specs.Meant.{bindings_of};
ghost use Rattle.blif_model.specs.Tokens.{texts_of};
ghost use Rattle.blif_hierarchy.specs.Lines.{instance_at};
ghost use Rattle.blif_hierarchy.specs.Links.{file_links, first_links, link_fault, links_at, with_instances};
ghost use Rattle.blif_hierarchy.specs.Ports.{ports_of};

use crate::faults::{fault_at, line_if};
use crate::names::NameSet;
use crate::ports::{BoundNames, Ports, bound_names};
use blif_flatten::table::ModelTable;
use blif_model::read_line::ReadLine;
use blif_model::says::Says;
use blif_text::token::Token;
use blif_text::{NetlistFault, NetlistKind};
use room::NoRoom;
use std::alloc::Global;

/// For each fault of a `.subckt` line by itself the number of the first line that has it.
#[derive(Clone, Copy)]
pub struct LinkLines {
    /// The line names no model.
    pub unknown: Option<u32>,
    /// The line binds a name that is no formal of the model, or one formal twice.
    pub formal: Option<u32>,
    /// The line leaves a formal input unbound.
    pub unbound: Option<u32>,
}

impl LinkLines {
    /// The first lines, where these others stand behind.
    fn or(self, later: LinkLines) -> LinkLines
        ensures { result ≡ first_links self later }
    {
        LinkLines {
            unknown: self.unknown.or(later.unknown),
            formal: self.formal.or(later.formal),
            unbound: self.unbound.or(later.unbound),
        }
    }

    /// The fault that goes first.
    pub fn fault(self) -> Option<NetlistFault>
        ensures { result ≡ link_fault self }
    {
        let unknown = fault_at(self.unknown, NetlistKind::UnknownModel);
        let formal = fault_at(self.formal, NetlistKind::BadFormal);
        unknown.or(formal.or(fault_at(self.unbound, NetlistKind::Unbound)))
    }
}

/// Some of the names isn't in the set.
fn any_outside(names: &[&[u8]], set: &NameSet<'_>) -> bool
    ensures { result ≡ list_any (λ name. not (is_one_of set.now name.now)) names.now }
{
    names.iter().any(|name| !set.contains(name))
}

/// Some name of a set isn't in the other.
#[tactic(auto, using(crate::proofs::Bindings::name_steps))]
fn has_other(names: &NameSet<'_>, others: &NameSet<'_>) -> bool
    ensures { result ≡ has_other names.now others.now }
{
    any_outside(names.names(), others)
}

/// The formals of the model of a name.
fn ports_named<'t, 'a>(
    models: &ModelTable<'_, '_>,
    ports: &'t [Ports<'a>],
    name: &[u8],
) -> Option<&'t Ports<'a>>
    requires { ports.now ≡ map ports_of models.now }
    ensures { option_map (λ p. p.now) result ≡ option_map ports_of (model_named models.now name.now) }
{
    match models.place(name) {
        Some(place) => ports.get(place),
        None => None,
    }
}

/// A name that is bound is no formal, or is bound twice.
fn has_bad_formal(inner: Option<&Ports<'_>>, bound: &BoundNames<'_>) -> bool
    ensures { result ≡ (option_map_or (λ p. has_other bound.now.formals p.formals) (option_map (λ p. p.now) inner.entry) false || bound.now.is_twice) }
{
    match inner {
        Some(ports) => has_other(&bound.formals, &ports.formals) || bound.is_twice,
        None => bound.is_twice,
    }
}

/// A formal input isn't bound.
fn has_unbound(inner: Option<&Ports<'_>>, bound: &BoundNames<'_>) -> bool
    ensures { result ≡ option_map_or (λ p. has_other p.inputs bound.now.formals) (option_map (λ p. p.now) inner.entry) false }
{
    match inner {
        Some(ports) => has_other(&ports.inputs, &bound.formals),
        None => false,
    }
}

/// The faults of a `.subckt` line of this number, this name and these bindings.
fn own_links(
    alloc: Global,
    models: &ModelTable<'_, '_>,
    ports: &[Ports<'_>],
    line: u32,
    name: &[u8],
    bindings: &[Token<'_>],
) -> Result<LinkLines, NoRoom>
    requires { ports.now ≡ map ports_of models.now }
    ensures { IfOk result (λ own. own ≡ links_at (model_named models.now name.now) (record { line = line; name = name.now; bindings = bindings_of (texts_of bindings.now) })) }
{
    let inner = ports_named(models, ports, name);
    let bound = bound_names(alloc, bindings)?;
    Ok(LinkLines {
        unknown: line_if(inner.is_none(), line),
        formal: line_if(has_bad_formal(inner, &bound), line),
        unbound: line_if(has_unbound(inner, &bound), line),
    })
}

/// The first lines, with one more.
fn with_line(
    alloc: Global,
    models: &ModelTable<'_, '_>,
    ports: &[Ports<'_>],
    first: LinkLines,
    line: &ReadLine<'_>,
) -> Result<LinkLines, NoRoom>
    requires { ports.now ≡ map ports_of models.now }
    ensures { IfOk result (λ links. links ≡ with_instances models.now first (filter_map instance_at (line.now ∷ []))) }
{
    match line.says() {
        Says::Instance { name, bindings } => {
            let own = own_links(alloc, models, ports, line.number(), name, bindings)?;
            Ok(first.or(own))
        }
        _ => Ok(first),
    }
}

/// The first lines, with those of one more model.
#[tactic(auto, using(crate::proofs::FirstLines::line_steps))]
fn with_lines(
    alloc: Global,
    models: &ModelTable<'_, '_>,
    ports: &[Ports<'_>],
    first: LinkLines,
    lines: &[ReadLine<'_>],
) -> Result<LinkLines, NoRoom>
    requires { ports.now ≡ map ports_of models.now }
    ensures { IfOk result (λ links. links ≡ with_instances models.now first (filter_map instance_at lines.now)) }
{
    let mut links = first;
    for line in lines {
        links = with_line(alloc, models, ports, links, line)?;
    }
    Ok(links)
}

/// The first lines of the file.
#[tactic(auto, using(crate::proofs::FirstLines::model_steps))]
pub fn file_links(
    alloc: Global,
    models: &ModelTable<'_, '_>,
    ports: &[Ports<'_>],
) -> Result<LinkLines, NoRoom>
    requires { ports.now ≡ map ports_of models.now }
    ensures { IfOk result (λ links. links ≡ file_links models.now) }
{
    let mut links = LinkLines {
        unknown: None,
        formal: None,
        unbound: None,
    };
    for model in models.lines() {
        links = with_lines(alloc, models, ports, links, model.items)?;
    }
    Ok(links)
}
