// The sorts of names that a line has, and their numbers.
ghost use Rattle.std.specs.Prelude.{◌≡◌, ℕ, [], ◌∷◌, length, map};
ghost use Rattle.std.specs.Option.{option_to_list};
ghost use Rattle.fm_base.specs.Names.{Name};
ghost use Rattle.blif_model.specs.Walk.{visited};
ghost use Rattle.blif_model.specs.WalkSteps.{clocked, outputs_at, control_of, input_nets, read};
ghost use Rattle.blif_flatten.specs.declared.flat.NameId.{NameId};
ghost use Rattle.blif_flatten.specs.Flat.{act_by, AreBelow, ids_in};
ghost use Rattle.blif_flatten.specs.Sorts.{drive_names, ids_of, named};

use crate::flat::{NameId, NumberedAct};
use fm_base::Seq;

/// Which names of a line are looked at.
#[derive(Clone, Copy, Debug, PartialEq, Eq)]
pub enum Sort {
    /// The names that are visited, from left to right.
    Visited,
    /// Clock names: those on `.clock` lines of the main model, and the nets of controls.
    Clock,
    /// The names on `.inputs` and `.clock` lines of the main model.
    Input,
    /// The names on `.inputs` lines of the main model, and the nets that tables and latches drive.
    Driven,
    /// The names on `.outputs` lines of the main model.
    Output,
    /// The nets that tables and latches read, and the names on `.outputs` lines of the main model.
    Read,
    /// The nets of controls.
    Control,
}

/// The numbers of a line's names of one sort: those of a list, and up to two behind them.
#[derive(Clone, Copy)]
pub struct Mentions<'s> {
    pub list: &'s [NameId],
    pub then: Option<NameId>,
    pub last: Option<NameId>,
}

fn none<'s>() -> Mentions<'s>
    ensures { ids_of result ≡ [] }
{
    Mentions {
        list: &[],
        then: None,
        last: None,
    }
}

fn listed(ids: &Seq<NameId>) -> Mentions<'_>
    ensures { ids_of result ≡ ids.now }
{
    Mentions {
        list: ids.as_slice(),
        then: None,
        last: None,
    }
}

fn only<'s>(id: Option<NameId>) -> Mentions<'s>
    ensures { ids_of result ≡ option_to_list id }
{
    Mentions {
        list: &[],
        then: id,
        last: None,
    }
}

fn visits<'s>(act: &'s NumberedAct<'_, '_>) -> Mentions<'s>
    ensures names { (f : NameId → Name) → map f (ids_of result) ≡ visited (act_by f act.now) }
    ensures within { (n : ℕ) → AreBelow n (ids_in act.now) → AreBelow n (ids_of result) }
{
    match act {
        NumberedAct::Inputs(ids) => listed(ids),
        NumberedAct::Outputs(ids) => listed(ids),
        NumberedAct::Clocks(ids) => listed(ids),
        NumberedAct::PortNets(ids) => listed(ids),
        NumberedAct::Table(table) => Mentions {
            list: table.ins.as_slice(),
            then: Some(table.out),
            last: None,
        },
        NumberedAct::Latch(latch) => Mentions {
            list: &[],
            then: Some(latch.from),
            last: Some(latch.to),
        },
    }
}

fn clocks<'s>(act: &'s NumberedAct<'_, '_>) -> Mentions<'s>
    ensures names { (f : NameId → Name) → map f (ids_of result) ≡ clocked (act_by f act.now) }
    ensures within { (n : ℕ) → AreBelow n (ids_in act.now) → AreBelow n (ids_of result) }
{
    match act {
        NumberedAct::Clocks(ids) => listed(ids),
        NumberedAct::Latch(latch) => only(latch.control),
        _ => none(),
    }
}

fn inputs<'s>(act: &'s NumberedAct<'_, '_>) -> Mentions<'s>
    ensures names { (f : NameId → Name) → map f (ids_of result) ≡ input_nets (act_by f act.now) }
    ensures within { (n : ℕ) → AreBelow n (ids_in act.now) → AreBelow n (ids_of result) }
{
    match act {
        NumberedAct::Inputs(ids) => listed(ids),
        NumberedAct::Clocks(ids) => listed(ids),
        _ => none(),
    }
}

fn drives<'s>(act: &'s NumberedAct<'_, '_>) -> Mentions<'s>
    ensures names { (f : NameId → Name) → map f (ids_of result) ≡ drive_names (act_by f act.now) }
    ensures within { (n : ℕ) → AreBelow n (ids_in act.now) → AreBelow n (ids_of result) }
{
    match act {
        NumberedAct::Inputs(ids) => listed(ids),
        NumberedAct::Table(table) => only(Some(table.out)),
        NumberedAct::Latch(latch) => only(Some(latch.to)),
        _ => none(),
    }
}

fn outputs<'s>(act: &'s NumberedAct<'_, '_>) -> Mentions<'s>
    ensures names { (f : NameId → Name) → map f (ids_of result) ≡ outputs_at (act_by f act.now) }
    ensures within { (n : ℕ) → AreBelow n (ids_in act.now) → AreBelow n (ids_of result) }
{
    match act {
        NumberedAct::Outputs(ids) => listed(ids),
        _ => none(),
    }
}

fn reads<'s>(act: &'s NumberedAct<'_, '_>) -> Mentions<'s>
    ensures names { (f : NameId → Name) → map f (ids_of result) ≡ read (act_by f act.now) }
    ensures within { (n : ℕ) → AreBelow n (ids_in act.now) → AreBelow n (ids_of result) }
{
    match act {
        NumberedAct::Table(table) => listed(&table.ins),
        NumberedAct::Latch(latch) => only(Some(latch.from)),
        NumberedAct::Outputs(ids) => listed(ids),
        _ => none(),
    }
}

fn controls<'s>(act: &'s NumberedAct<'_, '_>) -> Mentions<'s>
    ensures names { (f : NameId → Name) → map f (ids_of result) ≡ control_of (act_by f act.now) }
    ensures within { (n : ℕ) → AreBelow n (ids_in act.now) → AreBelow n (ids_of result) }
{
    match act {
        NumberedAct::Latch(latch) => only(latch.control),
        _ => none(),
    }
}

/// The numbers of a line's names of a sort.
pub fn mentions_in<'s>(act: &'s NumberedAct<'_, '_>, sort: Sort) -> Mentions<'s>
    ensures names { (f : NameId → Name) → map f (ids_of result) ≡ named sort (act_by f act.now) }
    ensures within { (n : ℕ) → AreBelow n (ids_in act.now) → AreBelow n (ids_of result) }
{
    match sort {
        Sort::Visited => visits(act),
        Sort::Clock => clocks(act),
        Sort::Input => inputs(act),
        Sort::Driven => drives(act),
        Sort::Output => outputs(act),
        Sort::Read => reads(act),
        Sort::Control => controls(act),
    }
}
