// The walks over the tables: over those that are marked, and over all.
ghost use Rattle.std.specs.Prelude.{◌≡◌, ◌<◌, ◌/◌, ◌+◌, ℕ, false, length};
ghost use Rattle.place_set.specs.Places.{value_in};
ghost use Rattle.golden_run.specs.Events.{AreValuesOf, IsEvaluated, IsSettled, IsSource, IsWiring, ordered_of};

use crate::gate::gate_bit;
use crate::values::{Values, change, put_bit};
use crate::wiring::Wiring;
use place_set::value_in_words;

// Evaluates the table at a place, whose mark is taken away.
fn evaluate(wiring: &Wiring<'_>, place: usize, values: &mut Values)
    requires wiring { IsWiring wiring.now }
    requires place { place < length wiring.now.order.now }
    requires values { AreValuesOf (ordered_of wiring.now) values.old }
    ensures values { AreValuesOf (ordered_of wiring.now) values.new }
    ensures all { values.new.all ≡ values.old.all }
    ensures evaluated { IsEvaluated (ordered_of wiring.now) place values.old.row.items values.new.row.items }
{
    values.marks.remove(place);
    let value = gate_bit(wiring, place, &values.row);
    change(wiring, wiring.order[place], value, values);
}

// Evaluates the tables that are marked, in the order's sequence, and those that are marked on the way. The answer is their number.
fn walk(wiring: &Wiring<'_>, values: &mut Values) -> usize
    requires wiring { IsWiring wiring.now }
    requires values { AreValuesOf (ordered_of wiring.now) values.old }
    requires marked { values.old.all ≡ false }
    ensures values { AreValuesOf (ordered_of wiring.now) values.new }
    ensures settled { (q : ℕ) → q < length wiring.now.order.now → IsSettled (ordered_of wiring.now) values.new.row.items q }
    ensures sources { (n : ℕ) → IsSource wiring.now.netlist.now n → value_in values.new.row.items n ≡ value_in values.old.row.items n }
{
    let mut from = 0;
    let mut evaluated = 0;
    'places: while let Some(place) = values.marks.next_from(from) {
        evaluate(wiring, place, values);
        from = place + 1;
        evaluated += 1;
    }
    evaluated
}

// Evaluates the table at a place, and answers whether its net had another value. The bit is set in either case: which it is can't be foreseen.
fn evaluate_next(wiring: &Wiring<'_>, place: usize, row: &mut [u64]) -> bool
    requires wiring { IsWiring wiring.now }
    requires place { place < length wiring.now.order.now }
    requires row { length row.old ≡ length wiring.now.netlist.now.drivers / 64 + 1 }
    ensures count { length row.new ≡ length row.old }
    ensures evaluated { IsEvaluated (ordered_of wiring.now) place row.old row.new }
{
    let net = wiring.gates[place].to as usize;
    let value = gate_bit(wiring, place, row);
    let changed = value_in_words(row, net) != value;
    put_bit(row, net, value);
    changed
}

// Evaluates all tables, in the order's sequence. The answer is the number of nets that have changed.
fn walk_all(wiring: &Wiring<'_>, row: &mut [u64]) -> usize
    requires wiring { IsWiring wiring.now }
    requires row { length row.old ≡ length wiring.now.netlist.now.drivers / 64 + 1 }
    ensures count { length row.new ≡ length row.old }
    ensures settled { (q : ℕ) → q < length wiring.now.order.now → IsSettled (ordered_of wiring.now) row.new q }
    ensures sources { (n : ℕ) → IsSource wiring.now.netlist.now n → value_in row.new n ≡ value_in row.old n }
{
    let mut changed = 0;
    for place in 0..wiring.order.len() {
        if evaluate_next(wiring, place, row) {
            changed += 1;
        }
    }
    changed
}

/// Evaluates the tables that are marked, or all where all count as marked. Where much has changed, all do the next time.
pub(crate) fn settle(wiring: &Wiring<'_>, values: &mut Values)
    requires wiring { IsWiring wiring.now }
    requires values { AreValuesOf (ordered_of wiring.now) values.old }
    ensures values { AreValuesOf (ordered_of wiring.now) values.new }
    ensures settled { (q : ℕ) → q < length wiring.now.order.now → IsSettled (ordered_of wiring.now) values.new.row.items q }
    ensures sources { (n : ℕ) → IsSource wiring.now.netlist.now n → value_in values.new.row.items n ≡ value_in values.old.row.items n }
{
    let tables = wiring.order.len();
    values.all = if values.all {
        walk_all(wiring, &mut values.row) > tables / 12
    } else {
        walk(wiring, values) > tables / 6
    };
}
