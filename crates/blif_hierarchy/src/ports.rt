// The formals of models, and the formals that lines bind.
ghost use Rattle.std.specs.Prelude.{◌≡◌, ◌||◌, IfOk, OnOk, fold, map};
ghost use Rattle.fm_base.specs.Index.{with_name};
ghost use Rattle.fm_base.specs.Names.{is_one_of};
ghost use Rattle.blif_model.specs.Grouped.{models_seen};
ghost use Rattle.blif_model.specs.ModelSteps.{formal_names, port_names};
ghost use Rattle.blif_model.specs.Meant.{bindings_of, meant};
ghost use Rattle.blif_model.specs.Statement.{binding_of};
ghost use Rattle.blif_model.specs.Tokens.{texts_of};
ghost use Rattle.blif_hierarchy.specs.Ports.{bound_in, ports_among, ports_of};

use crate::names::NameSet;
use blif_model::bindings::pair_of;
use blif_model::models::ModelLines;
use blif_model::read_line::ReadLine;
use blif_model::says::Says;
use blif_text::token::Token;
use room::{NoRoom, push};
use std::alloc::Global;

/// The formals of a model, and those of them that each instance binds.
#[derive(Drop)]
pub struct Ports<'a> {
    pub formals: NameSet<'a>,
    pub inputs: NameSet<'a>,
}

fn add_names<'a>(set: &mut NameSet<'a>, names: &[Token<'a>]) -> Result<(), NoRoom>
    ensures { OnOk result (set.new ≡ fold with_name set.old (texts_of names.now)) }
{
    for name in names {
        set.insert(name.text)?;
    }
    Ok(())
}

fn add_inputs<'a>(ports: &mut Ports<'a>, names: &[Token<'a>]) -> Result<(), NoRoom>
    ensures formals { OnOk result (ports.new.formals ≡ fold with_name ports.old.formals (texts_of names.now)) }
    ensures inputs { OnOk result (ports.new.inputs ≡ fold with_name ports.old.inputs (texts_of names.now)) }
{
    add_names(&mut ports.formals, names)?;
    add_names(&mut ports.inputs, names)
}

/// The formals that a line brings.
fn add_line<'a>(ports: &mut Ports<'a>, says: Says<'_, 'a>) -> Result<(), NoRoom>
    ensures formals { OnOk result (ports.new.formals ≡ fold with_name ports.old.formals (port_names (meant says.entry))) }
    ensures inputs { OnOk result (ports.new.inputs ≡ fold with_name ports.old.inputs (formal_names (meant says.entry))) }
{
    match says {
        Says::Inputs(names) => add_inputs(ports, names),
        Says::Clock(names) => add_inputs(ports, names),
        Says::Outputs(names) => add_names(&mut ports.formals, names),
        _ => Ok(()),
    }
}

/// The formals of a model's lines.
fn ports_of<'a>(alloc: Global, lines: &[ReadLine<'a>]) -> Result<Ports<'a>, NoRoom>
    ensures { IfOk result (λ p. p ≡ ports_among lines.now) }
{
    let mut ports = Ports {
        formals: NameSet::new(alloc),
        inputs: NameSet::new(alloc),
    };
    for line in lines {
        add_line(&mut ports, line.says())?;
    }
    Ok(ports)
}

/// The formals of each model.
#[tactic(auto, using(crate::proofs::Bindings::port_steps))]
pub fn all_ports<'a>(alloc: Global, models: &[ModelLines<'_, 'a>]) -> Result<Vec<Ports<'a>>, NoRoom>
    ensures { IfOk result (λ v. v.items ≡ map ports_of (models_seen models.now)) }
{
    let mut all = Vec::new(alloc);
    for model in models {
        push(&mut all, ports_of(alloc, model.items)?)?;
    }
    Ok(all)
}

/// The formals that a line binds, and whether it binds one twice.
#[derive(Drop)]
pub struct BoundNames<'a> {
    pub formals: NameSet<'a>,
    pub is_twice: bool,
}

fn add_bound<'a>(bound: &mut BoundNames<'a>, formal: &'a [u8]) -> Result<(), NoRoom>
    ensures formals { OnOk result (bound.new.formals ≡ with_name bound.old.formals formal.now) }
    ensures twice { OnOk result (bound.new.is_twice ≡ (bound.old.is_twice || is_one_of bound.old.formals formal.now)) }
{
    let is_new = bound.formals.insert(formal)?;
    bound.is_twice = bound.is_twice || !is_new;
    Ok(())
}

/// The formal of a binding.
fn formal_of<'a>(binding: &Token<'a>) -> &'a [u8]
    ensures { result.now ≡ (binding_of binding.now.text.now).formal }
{
    pair_of(binding.text).formal
}

/// The formals of bindings.
pub fn bound_names<'a>(alloc: Global, bindings: &[Token<'a>]) -> Result<BoundNames<'a>, NoRoom>
    ensures { IfOk result (λ b. b ≡ bound_in (map (λ binding. binding.formal) (bindings_of (texts_of bindings.now)))) }
{
    let mut bound = BoundNames {
        formals: NameSet::new(alloc),
        is_twice: false,
    };
    for binding in bindings {
        add_bound(&mut bound, formal_of(binding))?;
    }
    Ok(bound)
}
