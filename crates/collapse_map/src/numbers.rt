// The number of each fault in its list.
ghost use Rattle.std.specs.Prelude.{◌≡◌, ◌<◌, ◌≤◌, ◌^◌, ◌==◌, ℕ, length, map, count_by, IfOk};
ghost use Rattle.circuit.specs.Circuit.{Circuit};
ghost use Rattle.fault_list.specs.Faults.{fault_at};
ghost use Rattle.fault_list.specs.Kept.{most_faults};
ghost use Rattle.fm_base.specs.Lists.{below};
ghost use Rattle.collapse_map.specs.Collapsed.{AreFaultsOf, number_in_list, same_fault};
ghost use Rattle.collapse_map.specs.Numbers.{are_beside};
ghost use Rattle.collapse_map.specs.Settled.{own_numbers};

use circuit::parts::Fault;
use fault_list::FaultList;
use room::{NoRoom, push, with_room};
use std::alloc::Global;

// Whether two faults are the same.
fn is_same(a: Fault, b: Fault) -> bool
    ensures { result ≡ same_fault a b }
{
    match (a, b) {
        (Fault::Stuck(n, v), Fault::Stuck(m, w)) => n.0 == m.0 && v == w,
        (Fault::Flip(l, t), Fault::Flip(k, u)) => l == k && t == u,
        (Fault::Pulse(n, t), Fault::Pulse(m, u)) => n.0 == m.0 && t == u,
        _ => false,
    }
}

// Whether two faults are of one kind, and on one net or one latch. In a list such faults stand beside one another.
fn are_beside(a: Fault, b: Fault) -> bool
    ensures { result ≡ are_beside a b }
{
    match (a, b) {
        (Fault::Stuck(n, _), Fault::Stuck(m, _)) => n.0 == m.0,
        (Fault::Flip(l, _), Fault::Flip(k, _)) => l == k,
        (Fault::Pulse(n, _), Fault::Pulse(m, _)) => n.0 == m.0,
        _ => false,
    }
}

// The number of fault i: that of the first like it, should the list have a cycle twice. Only faults beside it are looked at.
fn first_like(faults: &FaultList, i: u32) -> u32
    requires { i < length faults.now }
    ensures { (c : Circuit) → AreFaultsOf c faults.now → result ≡ number_in_list faults.now (fault_at faults.now i) }
{
    let fault = faults.fault(i);
    let mut first = i;
    for j in (0..i).rev() {
        let other = faults.fault(j);
        if !are_beside(fault, other) {
            break;
        }
        if is_same(fault, other) {
            first = j;
        }
    }
    first
}

/// The number of each fault.
pub(crate) fn own_numbers(alloc: Global, faults: &FaultList) -> Result<Vec<u32>, NoRoom>
    ensures numbers { IfOk result (λ numbers. (c : Circuit) → AreFaultsOf c faults.now → numbers.items ≡ own_numbers faults.now) }
    ensures sized { IfOk result (λ numbers. length numbers.items ≡ length faults.now) }
    ensures few { length faults.now ≤ most_faults }
{
    let mut numbers = with_room(alloc, faults.len() as usize)?;
    for i in 0..faults.len() {
        push(&mut numbers, first_like(faults, i))?;
    }
    Ok(numbers)
}

/// How many numbers of a list are those of their places.
pub(crate) fn count_own(numbers: &[u32]) -> u32
    requires { length numbers.now < 2 ^ 32 }
    ensures { (f : ℕ → ℕ) → numbers.now ≡ map f (below (length numbers.now)) → result ≡ count_by (λ i. f i == i) (below (length numbers.now)) }
{
    let mut count = 0;
    for (i, number) in numbers.iter().enumerate() {
        if *number as usize == i {
            count += 1;
        }
    }
    count
}
