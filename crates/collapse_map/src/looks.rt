// How many look at each net: places of tables, latches, and points.
ghost use Rattle.std.specs.Prelude.{◌≡◌, ◌<◌, ◌++◌, ◌∷◌, [], List, All, length, map, flat_map, IfOk};
ghost use Rattle.circuit.specs.declared.parts.NetId.{NetId as Net};
ghost use Rattle.circuit.specs.Sound.{IsNetlist};
ghost use Rattle.alarm_points.specs.PointsFile.{observed};
ghost use Rattle.alarm_points.specs.PointsKept.{ArePointsFor};
ghost use Rattle.collapse_map.specs.Collapsed.{watched};
ghost use Rattle.collapse_map.specs.Looks.{AreLooks, is_one_look, looked_at, one_more_look};

use alarm_points::Points;
use circuit::netlist::Netlist;
use circuit::parts::NetId;
use room::{NoRoom, filled};
use std::alloc::Global;

/// How many look at a net.
#[derive(Clone, Copy)]
pub(crate) enum Looks {
    Nobody,
    One,
    More,
}

/// Whether one looks, and no other.
pub(crate) fn is_one(looks: Looks) -> bool
    ensures { result ≡ is_one_look looks }
{
    match looks {
        Looks::One => true,
        Looks::Nobody => false,
        Looks::More => false,
    }
}

// One more than so many.
fn one_more(looks: Looks) -> Looks
    ensures { result ≡ one_more_look looks }
{
    match looks {
        Looks::Nobody => Looks::One,
        Looks::One => Looks::More,
        Looks::More => Looks::More,
    }
}

// One more looks at this net.
fn look(looks: &mut [Looks], net: NetId)
    requires { net.0 < length looks.old }
    ensures { (seen : List Net) → AreLooks seen looks.old → AreLooks (seen ++ net ∷ []) looks.new }
{
    let at = net.0 as usize;
    looks[at] = one_more(looks[at]);
}

// One more looks at each of these nets.
fn look_at(looks: &mut [Looks], nets: &[NetId])
    requires { All (λ net. net.0 < length looks.old) nets.now }
    ensures { (seen : List Net) → AreLooks seen looks.old → AreLooks (seen ++ nets.now) looks.new }
{
    for net in nets {
        look(looks, *net);
    }
}

// Each table looks at the nets that it reads, once for each place.
fn look_by_tables(looks: &mut [Looks], net: &Netlist)
    requires { length looks.old ≡ length net.now.drivers }
    ensures { (seen : List Net) → AreLooks seen looks.old → AreLooks (seen ++ flat_map (λ table. table.ins) net.now.tables) looks.new }
{
    for k in 0..net.tables() {
        look_at(looks, net.table(k as u32).ins.as_slice());
    }
}

// Each latch looks at the net that it takes.
fn look_by_latches(looks: &mut [Looks], net: &Netlist)
    requires { length looks.old ≡ length net.now.drivers }
    ensures { (seen : List Net) → AreLooks seen looks.old → AreLooks (seen ++ map (λ latch. latch.from) net.now.latches) looks.new }
{
    let latches = net.latches();
    for latch in latches {
        look(looks, latch.from);
    }
}

// The observation points of all goals are looked at.
fn look_by_goals(looks: &mut [Looks], points: &Points)
    requires { All (λ net. net.0 < length looks.old) (observed points.now) }
    ensures { (seen : List Net) → AreLooks seen looks.old → AreLooks (seen ++ observed points.now) looks.new }
{
    let goals = points.goals.as_slice();
    for goal in goals {
        look_at(looks, goal.observe.as_slice());
    }
}

// All looks of a netlist whose points these are.
fn look_by_all(looks: &mut [Looks], net: &Netlist, points: &Points)
    requires points { ArePointsFor net.now points.now }
    requires looks { length looks.old ≡ length net.now.drivers }
    ensures { AreLooks [] looks.old → AreLooks (looked_at net.now (watched points.now)) looks.new }
{
    look_by_tables(looks, net);
    look_by_latches(looks, net);
    look_by_goals(looks, points);
    look_at(looks, points.alarm.as_slice());
}

/// How many look at each net of a netlist whose points these are.
pub(crate) fn looks_of(alloc: Global, net: &Netlist, points: &Points) -> Result<Vec<Looks>, NoRoom>
    requires { ArePointsFor net.now points.now }
    ensures sized { IfOk result (λ looks. length looks.items ≡ length net.now.drivers) }
    ensures looks { IfOk result (λ looks. AreLooks (looked_at net.now (watched points.now)) looks.items) }
    ensures sound { IsNetlist net.now }
{
    let mut looks = filled(alloc, Looks::Nobody, net.nets())?;
    look_by_all(&mut looks, net, points);
    Ok(looks)
}
