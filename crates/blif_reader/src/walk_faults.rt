// The fault of the flattened model.
ghost use Rattle.std.specs.Prelude.{◌≡◌, Bool, IfOk, map};
ghost use Rattle.std.specs.List.{list_any};
ghost use Rattle.fm_base.specs.Firsts.{first_where, given};
ghost use Rattle.fm_base.specs.Lists.{same_bit};
ghost use Rattle.fm_base.specs.Names.{Name};
ghost use Rattle.blif_model.specs.LineFault.{at_line};
ghost use Rattle.blif_flatten.specs.Flat.{all_names};
ghost use Rattle.blif_flatten.specs.Sorts.{named};
ghost use Rattle.blif_model.specs.WalkFault.{bad_clock, clock_read, undriven, walk_fault};
ghost use Rattle.blif_flatten.specs.Flattened.{flat_steps};
ghost use Rattle.blif_reader.specs.Passes.{AreClockMarks, AreSettledMarks};

use crate::clocks::two_clocks;
use crate::drivers::two_drivers;
use crate::found::first_found;
use blif_flatten::flat::FlatModel;
use blif_flatten::marks::marks_of;
use blif_flatten::sorts::Sort;
use blif_text::{NetlistFault, NetlistKind};
use net_names::copies::own_name;
use room::{NoRoom, from_slice};
use std::alloc::Global;

/// The first line with a name of this sort whose mark is the wanted one, as a fault of this kind.
fn line_fault(
    flat: &FlatModel<'_, '_>,
    sort: Sort,
    marks: &[bool],
    wanted: bool,
    kind: NetlistKind,
) -> Option<NetlistFault>
    ensures { (test : Name → Bool) → marks.now ≡ map test (all_names (flat_steps flat.now)) → result ≡ first_where (λ s. given (list_any (λ name. same_bit wanted (test name)) (named sort s.act)) (at_line s.line kind)) (flat_steps flat.now) }
{
    match first_found(flat, sort, marks, wanted) {
        Some(found) => Some(NetlistFault {
            line: found.line,
            kind,
        }),
        None => None,
    }
}

/// BadClock: the first latch whose control isn't among the main model's inputs.
fn bad_clock(alloc: Global, flat: &FlatModel<'_, '_>) -> Result<Option<NetlistFault>, NoRoom>
    ensures { IfOk result (λ o. o ≡ bad_clock (flat_steps flat.now)) }
{
    let inputs = marks_of(alloc, flat, Sort::Input)?;
    Ok(line_fault(
        flat,
        Sort::Control,
        inputs.as_slice(),
        false,
        NetlistKind::BadClock,
    ))
}

/// ClockRead: the first line that reads a clock name.
fn clock_read(flat: &FlatModel<'_, '_>, clocks: &[bool]) -> Option<NetlistFault>
    requires { AreClockMarks flat.now clocks.now }
    ensures { result ≡ clock_read (flat_steps flat.now) }
{
    line_fault(flat, Sort::Read, clocks, true, NetlistKind::ClockRead)
}

/// Undriven: the first visit to a net that nothing drives.
fn undriven(
    alloc: Global,
    flat: &FlatModel<'_, '_>,
    driven: &[bool],
) -> Result<Option<NetlistFault>, NoRoom>
    requires { AreSettledMarks flat.now driven.now }
    ensures { IfOk result (λ o. o ≡ undriven (flat_steps flat.now)) }
{
    match first_found(flat, Sort::Visited, driven, false) {
        Some(found) => {
            let name = own_name(alloc, flat.names.name(found.name.0))?;
            Ok(Some(NetlistFault {
                line: found.line,
                kind: NetlistKind::Undriven(name),
            }))
        }
        None => Ok(None),
    }
}

/// The fault that is found in the flattened model, if there is one: the kinds from TwoClocks to Undriven, in this order. `clocks`
/// has the marks of the clock names.
#[tactic(auto, unfolding(blif_model::specs::WalkFault::walk_fault, blif_model::specs::WalkFault::two_clocks, blif_model::specs::WalkFault::bad_clock, blif_model::specs::WalkFault::clock_read, blif_model::specs::WalkFault::two_drivers, blif_model::specs::WalkFault::undriven))]
pub fn walk_fault(
    alloc: Global,
    flat: &FlatModel<'_, '_>,
    clocks: &[bool],
) -> Result<Option<NetlistFault>, NoRoom>
    requires { AreClockMarks flat.now clocks.now }
    ensures { IfOk result (λ o. o ≡ walk_fault (flat_steps flat.now)) }
{
    match two_clocks(flat) {
        Some(fault) => return Ok(Some(fault)),
        None => {}
    }
    match bad_clock(alloc, flat)? {
        Some(fault) => return Ok(Some(fault)),
        None => {}
    }
    match clock_read(flat, clocks) {
        Some(fault) => return Ok(Some(fault)),
        None => {}
    }
    let mut driven = from_slice(alloc, clocks)?;
    match two_drivers(flat, clocks, &mut driven) {
        Some(fault) => return Ok(Some(fault)),
        None => {}
    }
    undriven(alloc, flat, driven.as_slice())
}
