// What a line does with its nets, by their numbers.
ghost use Rattle.std.specs.Prelude.{◌≡◌, ◌∷◌, ◌++◌, [], List, map, IfOk};
ghost use Rattle.std.specs.Option.{option_map, option_to_list};
ghost use Rattle.blif_model.specs.Meant.{bindings_of, control_said, edge_said, latch_line_of, meant};
ghost use Rattle.blif_model.specs.Models.{rows_below};
ghost use Rattle.blif_model.specs.Tokens.{texts_of};
ghost use Rattle.blif_model.specs.Walk.{acts_of, flat_latch, flat_table, net_of, visits};
ghost use Rattle.blif_model.specs.WalkSteps.{flat_latch_of, port};
ghost use Rattle.fm_base.specs.Names.{Name};
ghost use Rattle.blif_flatten.specs.declared.flat.NameId.{NameId};
ghost use Rattle.blif_flatten.specs.Flat.{act_by, ids_in, mentioned};
ghost use Rattle.blif_flatten.specs.Numbering.{HaveNumbers, IsKept};
ghost use Rattle.blif_flatten.specs.Ports.{own_act, some_nets};
ghost use Rattle.blif_flatten.specs.Seen.{scope_at};

use crate::flat::{NameId, NumberedAct, NumberedLatch, NumberedTable};
use crate::names::{Mention, NetNames};
use crate::place::Place;
use blif_model::read_line::ReadLine;
use blif_model::says::{Clocked, LatchSays, Says};
use blif_text::token::Token;
use fm_base::Seq;
use room::NoRoom;

/// The sorts of port lines.
#[derive(Clone, Copy)]
pub enum Port {
    In,
    Out,
    Clocking,
}

fn main_act<'m, 'a>(port: Port, ids: Seq<NameId>) -> NumberedAct<'m, 'a>
    ensures act { (f : NameId → Name) → act_by f result ≡ own_act port (map f ids) }
    ensures ids { ids_in result ≡ ids }
    ensures names { (texts : List Name) → mentioned (own_act port texts) ≡ texts ++ [] }
{
    match port {
        Port::In => NumberedAct::Inputs(ids),
        Port::Out => NumberedAct::Outputs(ids),
        Port::Clocking => NumberedAct::Clocks(ids),
    }
}

/// New nets, unless there are none.
fn some_nets<'m, 'a>(ids: Seq<NameId>) -> Option<NumberedAct<'m, 'a>>
    ensures { result ≡ some_nets ids }
{
    if ids.len() == 0 {
        None
    } else {
        Some(NumberedAct::PortNets(ids))
    }
}

/// A line of ports, and of one in an instance the nets that are new.
fn port_act<'m, 'a>(
    names: &mut NetNames,
    place: &Place<'_>,
    kind: Port,
    tokens: &[Token<'_>],
) -> Result<Option<NumberedAct<'m, 'a>>, NoRoom>
    ensures { IfOk result (IsKept names.old.index names.new.index (port (own_act kind) (texts_of tokens.now) (scope_at place.now) ∷ [])) }
{
    match place {
        Place::Main => {
            let ids = names.number_all(place, tokens)?;
            Ok(Some(main_act(kind, ids)))
        }
        Place::Inner { .. } => {
            let ids = names.number_new(place, Mention::Whole, tokens)?;
            Ok(some_nets(ids))
        }
    }
}

/// The nets of the actuals that are new.
fn actual_nets<'m, 'a>(
    names: &mut NetNames,
    place: &Place<'_>,
    bindings: &[Token<'_>],
) -> Result<Option<NumberedAct<'m, 'a>>, NoRoom>
    ensures { IfOk result (IsKept names.old.index names.new.index (visits (map (λ b. net_of (scope_at place.now) b.actual) (bindings_of (texts_of bindings.now))) ∷ [])) }
{
    let ids = names.number_new(place, Mention::Actual, bindings)?;
    Ok(some_nets(ids))
}

fn table_act<'m, 'a>(
    names: &mut NetNames,
    place: &Place<'_>,
    ins: &[Token<'_>],
    out: &[u8],
    below: &'m [ReadLine<'a>],
) -> Result<Option<NumberedAct<'m, 'a>>, NoRoom>
    ensures { IfOk result (IsKept names.old.index names.new.index (flat_table (map (net_of (scope_at place.now)) (texts_of ins.now)) (net_of (scope_at place.now) out.now) (rows_below below.entry.now) ∷ [])) }
{
    let ins = names.number_all(place, ins)?;
    let out = names.number(place, out)?;
    Ok(Some(NumberedAct::Table(NumberedTable { ins, out, below })))
}

/// The number of the net of a control, but none for `NIL`.
#[tactic(auto, using(crate::proofs::Numbering::numbered_none))]
fn control_number(
    names: &mut NetNames,
    place: &Place<'_>,
    clocking: Option<Clocked<'_>>,
) -> Result<Option<NameId>, NoRoom>
    ensures { IfOk result (λ o. HaveNumbers names.old.index names.new.index (option_to_list (option_map (net_of (scope_at place.now)) (control_said clocking.entry))) (option_to_list o)) }
{
    match clocking {
        None => Ok(None),
        Some(clocking) => {
            if clocking.control == b"NIL".as_slice() {
                return Ok(None);
            }
            Ok(Some(names.number(place, clocking.control)?))
        }
    }
}

fn edge_of(clocking: Option<Clocked<'_>>) -> Option<&[u8]>
    ensures { option_map (λ e. e.now) result ≡ edge_said clocking.entry }
{
    match clocking {
        None => None,
        Some(clocking) => Some(clocking.edge),
    }
}

fn latch_act<'m, 'a>(
    names: &mut NetNames,
    place: &Place<'_>,
    line: LatchSays<'a>,
) -> Result<Option<NumberedAct<'m, 'a>>, NoRoom>
    ensures { IfOk result (IsKept names.old.index names.new.index (flat_latch (flat_latch_of (scope_at place.now) (latch_line_of line.entry)) ∷ [])) }
{
    let from = names.number(place, line.from)?;
    let to = names.number(place, line.to)?;
    let control = control_number(names, place, line.clocking)?;
    Ok(Some(NumberedAct::Latch(NumberedLatch {
        from,
        to,
        edge: edge_of(line.clocking),
        control,
        start: line.start,
    })))
}

/// What a line does with its nets, if anything but to visit such as were mentioned before. `below` has the lines below it. Its
/// names get their numbers from left to right, and last that of a latch's control.
#[tactic(auto, using(crate::proofs::Numbering::kept_none))]
pub fn act_of<'m, 'a>(
    names: &mut NetNames,
    place: &Place<'_>,
    says: Says<'m, 'a>,
    below: &'m [ReadLine<'a>],
) -> Result<Option<NumberedAct<'m, 'a>>, NoRoom>
    ensures { IfOk result (IsKept names.old.index names.new.index (acts_of (scope_at place.now) (meant says.entry) (rows_below below.entry.now))) }
{
    match says {
        Says::Inputs(tokens) => Ok(port_act(names, place, Port::In, tokens)?),
        Says::Outputs(tokens) => Ok(port_act(names, place, Port::Out, tokens)?),
        Says::Clock(tokens) => Ok(port_act(names, place, Port::Clocking, tokens)?),
        Says::Table { ins, out } => Ok(table_act(names, place, ins, out, below)?),
        Says::Latch(line) => Ok(latch_act(names, place, line)?),
        Says::Instance { bindings, .. } => Ok(actual_nets(names, place, bindings)?),
        _ => Ok(None),
    }
}
