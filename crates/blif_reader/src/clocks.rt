// TwoClocks: another type of latch or another clock name than the first.
ghost use Rattle.std.specs.Prelude.{◌≡◌, false, fold, length, map};
ghost use Rattle.std.specs.Option.{option_map, option_to_list};
ghost use Rattle.blif_model.specs.WalkFault.{two_clocks};
ghost use Rattle.blif_flatten.specs.Flat.{act_by, AreBelow, ids_in, name_at};
ghost use Rattle.blif_flatten.specs.Flattened.{flat_steps};
ghost use Rattle.blif_reader.specs.Clocks.{any_apart, control, edge, firsts_with, is_apart, marks_in};

use crate::steps::step_at;
use blif_flatten::flat::{FlatModel, NameId, NumberedAct};
use blif_text::{NetlistFault, NetlistKind};
use fm_base::NameIndex;
use std::marker::Model;

/// The first type of latch, and the first clock name.
#[derive(Drop)]
struct FirstMarks<'f> {
    edge: Option<&'f [u8]>,
    clock: Option<&'f [u8]>,
}

impl<'f> Model for FirstMarks<'f> {
    ghost use Rattle.std.specs.Option.{option_map};
    ghost use Rattle.blif_reader.specs.Clocks.{Firsts};

    ghost Value = { Firsts };

    ghost view = { λ m. record { edge = option_map (λ n. n.now) m.edge; control = option_map (λ n. n.now) m.clock } };
}

impl<'f> FirstMarks<'f> {
    /// The type isn't the first one.
    fn is_second_edge(&mut self, name: &'f [u8]) -> bool
        ensures second { result ≡ is_apart self.old (edge name.now) }
        ensures kept { self.new ≡ firsts_with self.old (edge name.now) }
    {
        match self.edge {
            Some(first) => first != name,
            None => {
                self.edge = Some(name);
                false
            }
        }
    }

    /// The clock name isn't the first one.
    fn is_second_clock(&mut self, name: &'f [u8]) -> bool
        ensures second { result ≡ is_apart self.old (control name.now) }
        ensures kept { self.new ≡ firsts_with self.old (control name.now) }
    {
        match self.clock {
            Some(first) => first != name,
            None => {
                self.clock = Some(name);
                false
            }
        }
    }

    /// One of the clock names isn't the first one.
    fn has_second_clock(&mut self, names: &'f NameIndex, ids: &[NameId]) -> bool
        requires { AreBelow (length names.now) ids.now }
        ensures second { result ≡ any_apart self.old (map control (map (name_at names.now) ids.now)) }
        ensures kept { result ≡ false → self.new ≡ fold firsts_with self.old (map control (map (name_at names.now) ids.now)) }
    {
        for id in ids {
            if self.is_second_clock(names.name(id.0)) {
                return true;
            }
        }
        false
    }

    /// The type of a latch, where it has one, isn't the first one.
    fn has_second_edge(&mut self, name: Option<&'f [u8]>) -> bool
        ensures second { result ≡ any_apart self.old (map edge (option_to_list (option_map (λ n. n.now) name.entry))) }
        ensures kept { self.new ≡ fold firsts_with self.old (map edge (option_to_list (option_map (λ n. n.now) name.entry))) }
    {
        match name {
            Some(name) => self.is_second_edge(name),
            None => false,
        }
    }

    /// The line brings another type of latch or another clock name than the first.
    fn has_second(&mut self, names: &'f NameIndex, act: &NumberedAct<'_, 'f>) -> bool
        requires { AreBelow (length names.now) (ids_in act.now) }
        ensures second { result ≡ any_apart self.old (marks_in (act_by (name_at names.now) act.now)) }
        ensures kept { result ≡ false → self.new ≡ fold firsts_with self.old (marks_in (act_by (name_at names.now) act.now)) }
    {
        match act {
            NumberedAct::Clocks(ids) => self.has_second_clock(names, ids.as_slice()),
            NumberedAct::Latch(latch) => {
                self.has_second_edge(latch.edge)
                    || self.has_second_clock(names, latch.control.as_slice())
            }
            _ => false,
        }
    }
}

/// TwoClocks: the first line with another type of latch or another clock name.
pub fn two_clocks(flat: &FlatModel<'_, '_>) -> Option<NetlistFault>
    ensures { result ≡ two_clocks (flat_steps flat.now) }
{
    let mut first = FirstMarks {
        edge: None,
        clock: None,
    };
    for place in 0..flat.steps.len() {
        let step = step_at(flat, place);
        if first.has_second(&flat.names, &step.act) {
            return Some(NetlistFault {
                line: step.line,
                kind: NetlistKind::TwoClocks,
            });
        }
    }
    None
}
