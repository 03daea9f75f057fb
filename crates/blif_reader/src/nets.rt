// Nets: how many there are, their names, and the number of each name's net.
ghost use Rattle.std.specs.Prelude.{◌≡◌, ◌∷◌, ◌++◌, [], ◌+◌, ◌<◌, ◌≤◌, ◌^◌, Bool, IfOk, OnOk, count_by, filter, if◌then◌else◌, length, map, not, slice_index_or};
ghost use Rattle.fm_base.specs.Names.{Name};
ghost use Rattle.blif_model.specs.Walk.{nets_of};
ghost use Rattle.blif_flatten.specs.Flattened.{flat_steps};
ghost use Rattle.blif_reader.specs.Numbers.{AreNetNumbers, net_of_name, numbers_from};
ghost use Rattle.blif_reader.specs.Passes.{AreClockMarks};

use blif_flatten::flat::{FlatModel, NameId};
use circuit::parts::{Names, NetId, NetIds};
use fm_base::{NameIndex, Seq};
use net_names::copies::own_name;
use room::{NoRoom, collect, push, with_room};
use std::alloc::Global;

/// The number of nets, where these names are clock names.
pub fn net_count(clocks: &[bool]) -> usize
    ensures { result ≡ count_by not clocks.now }
{
    clocks.iter().filter(|clock| !**clock).count()
}

/// The name of a number goes to the end, unless it is a clock name.
fn put_net(
    alloc: Global,
    names: &NameIndex,
    number: usize,
    is_clock: bool,
    nets: &mut Names,
) -> Result<(), NoRoom>
    requires { number < length names.now }
    ensures { OnOk result (nets.new ≡ nets.old ++ (if not is_clock then slice_index_or names.now number [] ∷ [] else [])) }
{
    if is_clock {
        return Ok(());
    }
    nets.push(own_name(alloc, names.name(number))?)
}

fn own_names(alloc: Global, names: &NameIndex, clocks: &[bool]) -> Result<Names, NoRoom>
    requires { length clocks.now ≡ length names.now }
    ensures { IfOk result (λ nets. (is_clock : Name → Bool) → clocks.now ≡ map is_clock names.now → nets ≡ filter (λ name. not (is_clock name)) names.now) }
{
    let mut nets = Seq::new(alloc);
    for (number, is_clock) in clocks.iter().enumerate() {
        put_net(alloc, names, number, *is_clock, &mut nets)?;
    }
    Ok(nets)
}

/// The names of the nets, in their order: those that are no clock names.
pub fn net_names(alloc: Global, flat: &FlatModel<'_, '_>, clocks: &[bool]) -> Result<Names, NoRoom>
    requires { AreClockMarks flat.now clocks.now }
    ensures { IfOk result (λ nets. nets ≡ nets_of (flat_steps flat.now)) }
{
    own_names(alloc, &flat.names, clocks)
}

/// The number of a name's net, where `behind` is the number behind the last, and `next` that of the next net.
fn net_number(is_clock: bool, behind: u32, next: u32) -> NetId
    ensures { result ≡ record { 0 = if is_clock then behind else next } }
{
    NetId(if is_clock { behind } else { next })
}

/// The number of the next net behind a name.
fn next_number(is_clock: bool, next: u32) -> u32
    requires { next + 1 < 2 ^ 32 }
    ensures { result ≡ (if is_clock then next else next + 1) }
{
    if is_clock { next } else { next + 1 }
}

fn numbers_by(alloc: Global, clocks: &[bool]) -> Result<Vec<NetId>, NoRoom>
    requires { count_by not clocks.now ≤ 2 ^ 18 }
    ensures { IfOk result (λ numbers. numbers.items ≡ numbers_from 0 (count_by not clocks.now) clocks.now) }
{
    let behind = net_count(clocks) as u32;
    let mut next: u32 = 0;
    let mut numbers = with_room(alloc, clocks.len())?;
    for clock in clocks {
        push(&mut numbers, net_number(*clock, behind, next))?;
        next = next_number(*clock, next);
    }
    Ok(numbers)
}

/// The number of each name's net. Nets are numbered in the order of the names; a clock name has the number behind the last.
pub fn net_numbers(
    alloc: Global,
    flat: &FlatModel<'_, '_>,
    clocks: &[bool],
) -> Result<Vec<NetId>, NoRoom>
    requires marks { AreClockMarks flat.now clocks.now }
    requires few { length (nets_of (flat_steps flat.now)) ≤ 2 ^ 18 }
    ensures { IfOk result (λ numbers. AreNetNumbers flat.now numbers.items) }
{
    numbers_by(alloc, clocks)
}

/// The number of a name's net.
pub fn net(numbers: &[NetId], name: NameId) -> NetId
    ensures { result ≡ net_of_name numbers.now name }
{
    numbers.get(name.0).copied().unwrap_or(NetId(0))
}

fn net_list(alloc: Global, numbers: &[NetId], names: &[NameId]) -> Result<Vec<NetId>, NoRoom>
    ensures { IfOk result (λ ids. ids.items ≡ map (net_of_name numbers.now) names.now) }
{
    collect(names.iter().map(|name| net(numbers, *name)), alloc)
}

/// The numbers of the nets of names.
pub fn nets(alloc: Global, numbers: &[NetId], names: &[NameId]) -> Result<NetIds, NoRoom>
    ensures { IfOk result (λ ids. ids ≡ map (net_of_name numbers.now) names.now) }
{
    Ok(Seq::from_vec(net_list(alloc, numbers, names)?))
}
