// TwoDrivers: a net that is driven a second time, or a clock name that is driven.
ghost use Rattle.std.specs.Prelude.{◌≡◌, ◌∷◌, [], false, None, length};
ghost use Rattle.blif_model.specs.WalkFault.{two_drivers};
ghost use Rattle.blif_flatten.specs.Flat.{AreBelow, ids_in};
ghost use Rattle.blif_flatten.specs.Flattened.{flat_steps};
ghost use Rattle.blif_flatten.specs.Marks.{marked};
ghost use Rattle.blif_reader.specs.Passes.{AreClockMarks, AreSettledMarks, driven_ids, drives_twice, unmarked};

use crate::steps::step_at;
use blif_flatten::flat::{FlatModel, NameId, NumberedAct};
use blif_text::{NetlistFault, NetlistKind};

/// A name is driven. The answer is whether it was marked before.
fn drive(driven: &mut Vec<bool>, id: NameId) -> bool
    requires { AreBelow (length driven.old.items) (id ∷ []) }
    ensures twice { result ≡ drives_twice driven.old.items (id ∷ []) }
    ensures grown { result ≡ false → driven.new.items ≡ marked driven.old.items (id ∷ []) }
    ensures size { length driven.new.items ≡ length driven.old.items }
{
    if driven[id.0] {
        return true;
    }
    driven[id.0] = true;
    false
}

/// Inputs are driven, clock names aside.
fn drive_inputs(clocks: &[bool], driven: &mut Vec<bool>, ids: &[NameId]) -> bool
    requires clocks { AreBelow (length clocks.now) ids.now }
    requires driven { AreBelow (length driven.old.items) ids.now }
    ensures twice { result ≡ drives_twice driven.old.items (unmarked clocks.now ids.now) }
    ensures grown { result ≡ false → driven.new.items ≡ marked driven.old.items (unmarked clocks.now ids.now) }
    ensures size { length driven.new.items ≡ length driven.old.items }
{
    for id in ids {
        if !clocks[id.0] {
            if drive(driven, *id) {
                return true;
            }
        }
    }
    false
}

/// What a line drives is driven.
fn drive_act(clocks: &[bool], driven: &mut Vec<bool>, act: &NumberedAct<'_, '_>) -> bool
    requires clocks { AreBelow (length clocks.now) (ids_in act.now) }
    requires driven { AreBelow (length driven.old.items) (ids_in act.now) }
    ensures twice { result ≡ drives_twice driven.old.items (driven_ids clocks.now act.now) }
    ensures grown { result ≡ false → driven.new.items ≡ marked driven.old.items (driven_ids clocks.now act.now) }
    ensures size { length driven.new.items ≡ length driven.old.items }
{
    match act {
        NumberedAct::Inputs(ids) => drive_inputs(clocks, driven, ids.as_slice()),
        NumberedAct::Table(table) => drive(driven, table.out),
        NumberedAct::Latch(latch) => drive(driven, latch.to),
        _ => false,
    }
}

/// TwoDrivers: the first line that drives a net a second time, or a clock name by a table or a latch. `driven` begins as the
/// marks of the clock names, and where there is no fault it has all names that are driven besides.
pub fn two_drivers(
    flat: &FlatModel<'_, '_>,
    clocks: &[bool],
    driven: &mut Vec<bool>,
) -> Option<NetlistFault>
    requires clocks { AreClockMarks flat.now clocks.now }
    requires driven { driven.old.items ≡ clocks.now }
    ensures fault { result ≡ two_drivers (flat_steps flat.now) }
    ensures driven { result ≡ None → AreSettledMarks flat.now driven.new.items }
{
    for place in 0..flat.steps.len() {
        let step = step_at(flat, place);
        if drive_act(clocks, driven, &step.act) {
            return Some(NetlistFault {
                line: step.line,
                kind: NetlistKind::TwoDrivers,
            });
        }
    }
    None
}
