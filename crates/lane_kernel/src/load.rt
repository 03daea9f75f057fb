// What the faults of all lanes make of the flat arrays.
ghost use Rattle.std.specs.Prelude.{◌≡◌, ◌≢◌, ◌<◌, ◌≤◌, ◌+◌, ◌==◌, ◌||◌, ◌⊎◌, ℕ, Bool, false, not, List, [], Option, length, slice_index_or, if◌then◌else◌};
ghost use Rattle.std.specs.List.{list_any};
ghost use Rattle.circuit.specs.declared.parts.Fault.{Fault};
ghost use Rattle.circuit.specs.Effects.{affected, is_permanent};
ghost use Rattle.circuit.specs.Value.{bit_at};
ghost use Rattle.lane_words.specs.declared.force.Force.{Force};
ghost use Rattle.lane_kernel.specs.Walk.{AreInside, AreNarrowRuns, IsNextPause};
ghost use Rattle.lane_words.specs.Forces.{force_value, AreIdle, AreSteady};
ghost use Rattle.lane_words.specs.Gates.{gate_at};
ghost use Rattle.lane_kernel.specs.Marks.{AreFaultMarks, IsUnnamed, has_transients};
ghost use Rattle.lane_words.specs.Loads.{loaded_faults, has_pulses, is_pulse_in, some_names, names, somes};

use circuit::meaning::bit;
use circuit::parts::{Fault, NetId};
use lane_words::Word;
use lane_words::force::{Force, idle};
use lane_words::gate::Gate;

fn mark(marks: &mut [bool], net: NetId)
    ensures { (n : ℕ) → n < length marks.old → bit_at marks.new n ≡ ((net.0 == n) || bit_at marks.old n) }
{
    let at = net.0 as usize;
    if at < marks.len() {
        marks[at] = true;
    }
}

fn mark_lane(faults: &[Option<Fault>], marks: &mut [bool])
    ensures { (n : ℕ) → n < length marks.old → bit_at marks.new n ≡ (names faults.now n || bit_at marks.old n) }
{
    for fault in faults {
        match fault {
            Some(Fault::Stuck(net, _)) => mark(marks, *net),
            Some(Fault::Pulse(net, _)) => mark(marks, *net),
            _ => {}
        }
    }
}

fn mark_all(loads: &[[Option<Fault>; 2]], marks: &mut [bool])
    ensures { (n : ℕ) → n < length marks.old → bit_at marks.new n ≡ (some_names loads.now n || bit_at marks.old n) }
{
    for faults in loads {
        mark_lane(faults, marks);
    }
}

fn unmark(marks: &mut [bool], net: NetId)
    ensures { (n : ℕ) → n < length marks.old → bit_at marks.new n ≡ (if net.0 == n then false else bit_at marks.old n) }
{
    let at = net.0 as usize;
    if at < marks.len() {
        marks[at] = false;
    }
}

fn unmark_lane(faults: &[Option<Fault>], marks: &mut [bool])
    ensures { (n : ℕ) → n < length marks.old → bit_at marks.new n ≡ (if names faults.now n then false else bit_at marks.old n) }
{
    for fault in faults {
        match fault {
            Some(Fault::Stuck(net, _)) => unmark(marks, *net),
            Some(Fault::Pulse(net, _)) => unmark(marks, *net),
            _ => {}
        }
    }
}

/// Takes the marks of all faults away.
pub fn unmark_all(loads: &[[Option<Fault>; 2]], marks: &mut [bool])
    requires { AreFaultMarks loads.now marks.old }
    ensures { AreFaultMarks [] marks.new }
{
    for faults in loads {
        unmark_lane(faults, marks);
    }
}

// Sets the places where a walk pauses: those of marked nets and of wide tables.
fn fill_next(gates: &[Gate], marks: &[bool], next: &mut [usize])
    requires { length next.old ≡ length gates.now }
    ensures next { IsNextPause (length gates.now) next.new }
    ensures quiet { (from j : ℕ) → from < length gates.now → from ≤ j → j < slice_index_or next.new from 0
        → bit_at marks.now (gate_at gates.now j).to ≡ false }
    ensures narrow { AreNarrowRuns gates.now next.new }
{
    let mut pause = gates.len();
    for back in 0..gates.len() {
        let at = gates.len() - 1 - back;
        if bit(marks, gates[at].to) || gates[at].op >= 16 {
            pause = at;
        }
        next[at] = pause;
    }
}

// Leaves a net as it is.
fn disarm<W: Word>(net: NetId, forces: &mut [Force<W>])
    ensures { (k n : ℕ) (d : Force W) (own : Bool) → k < W.lanes → n < length forces.old
        → force_value W.lane_bit k (slice_index_or forces.new n d) own
        ≡ (if net.0 == n then own else force_value W.lane_bit k (slice_index_or forces.old n d) own) }
{
    let at = net.0 as usize;
    if at < forces.len() {
        forces[at] = idle();
    }
}

fn disarm_lane<W: Word>(faults: &[Option<Fault>], forces: &mut [Force<W>])
    ensures { (k n : ℕ) (d : Force W) (own : Bool) → k < W.lanes → n < length forces.old
        → force_value W.lane_bit k (slice_index_or forces.new n d) own
        ≡ (if names faults.now n then own else force_value W.lane_bit k (slice_index_or forces.old n d) own) }
{
    for fault in faults {
        match fault {
            Some(Fault::Stuck(net, _)) => disarm(*net, forces),
            Some(Fault::Pulse(net, _)) => disarm(*net, forces),
            _ => {}
        }
    }
}

/// Leaves each net as it is, where the forces changed only nets that faults name.
pub fn disarm_all<W: Word>(loads: &[[Option<Fault>; 2]], forces: &mut [Force<W>])
    requires { AreIdle W.lanes W.lane_bit loads.now forces.old }
    ensures { AreIdle W.lanes W.lane_bit [] forces.new }
{
    for faults in loads {
        disarm_lane(faults, forces);
    }
}

fn is_transient(faults: &[Option<Fault>]) -> bool
    ensures { result ≡ list_any (λ fault. not (is_permanent fault)) (somes faults.now) }
{
    for fault in faults {
        if let Some(fault) = fault {
            if !fault.permanent() {
                return true;
            }
        }
    }
    false
}

/// Some fault of some lane is a flip or a pulse.
pub fn is_some_transient(loads: &[[Option<Fault>; 2]]) -> bool
    ensures { result ≡ has_transients loads.now }
{
    loads.iter().any(|faults| is_transient(faults))
}

/// Sets marks and pauses for the faults of all lanes, where nothing is marked.
pub fn prepare(gates: &[Gate], loads: &[[Option<Fault>; 2]], marks: &mut [bool], next: &mut [usize])
    requires inside { AreInside (length marks.old) gates.now }
    requires same { length next.old ≡ length gates.now }
    requires bare { AreFaultMarks [] marks.old }
    ensures marks { AreFaultMarks loads.now marks.new }
    ensures next { IsNextPause (length gates.now) next.new }
    ensures quiet { IsUnnamed loads.now gates.now next.new }
    ensures narrow { AreNarrowRuns gates.now next.new }
{
    mark_all(loads, marks);
    fill_next(gates, marks, next);
}
