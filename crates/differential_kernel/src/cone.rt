// What the faults of a run can reach.
ghost use Rattle.std.specs.Prelude.{◌≡◌, ◌≢◌, ◌<◌, ◌≤◌, ◌+◌, ◌^◌, ◌&&◌, ℕ, Bool, false, true, All, Contains, IfOk, length, slice_index};
ghost use Rattle.circuit.specs.declared.parts.Driver.TheVariants.{Input};
ghost use Rattle.circuit.specs.Order.{net_at};
ghost use Rattle.circuit.specs.Sound.{IsNet};
ghost use Rattle.circuit.specs.Value.{driver_at};
ghost use Rattle.lane_words.specs.Gates.{IsProgram, gate_at, latch_at};
ghost use Rattle.place_set.specs.Places.{has};
ghost use Rattle.differential_kernel.specs.Cone.{AreStretches, Holds, IsClosed, IsClosedBut, IsConeOf, IsNewCone, IsPlain, IsStretch, IsUnread, Spreads, cone_table, driven_at, is_source};
ghost use Rattle.differential_kernel.specs.Places.{AreThose};
ghost use Rattle.differential_kernel.specs.Cycle.{IsGoldenCycle};
ghost use Rattle.differential_kernel.specs.Differences.{Grows, IsEmptySet};

use crate::force::Forces;
use crate::golden_cycle::GoldenCycle;
use crate::latches::LatchDifferences;
use crate::list::{list_all, list_if};
use crate::nets::NetDifferences;
use circuit::netlist::Netlist;
use circuit::parts::{Driver, Fault, Latch, NetId};
use lane_words::Word;
use lane_words::gate::Gate;
use place_set::PlaceSet;
use room::{NoRoom, filled};
use std::alloc::Global;

/// A cone: nets out of which no path through tables and latches leads, with the tables and latches that drive them.
#[derive(Drop)]
pub struct Cone {
    pub nets: PlaceSet,
    /// The nets whose readers are still to be looked at, while it is made.
    pub left: PlaceSet,
    /// The places of the tables that drive its nets: the first of these, so many.
    pub tables: Vec<u32>,
    pub table_count: usize,
    /// The latches that drive its nets, as a set, and in the first of these, so many.
    pub latches: PlaceSet,
    pub ends: Vec<u32>,
    pub end_count: usize,
    /// The nets whose golden values a cycle reads that is run by it: its inputs, and those outside of it that its tables and latches
    /// read; as a set, and in the first of these, so many.
    pub read: PlaceSet,
    pub reads: Vec<u32>,
    pub read_count: usize,
    /// Those of its nets that faults named when it was made.
    pub named: PlaceSet,
    /// Of these the ones that no table drives, as a set, and in the first of these, so many.
    pub source: PlaceSet,
    pub sources: Vec<u32>,
    pub source_count: usize,
    /// The tables at its places, one behind the other.
    pub gates: Vec<ConeTable>,
    /// For each of these where the stretch ends that begins with it: tables of one operation, none of them of a net that was named.
    pub stretches: Vec<u32>,
}

/// A table of a cone, and whether its net was named when the cone was made.
#[derive(Clone, Copy)]
pub struct ConeTable {
    pub gate: Gate,
    pub forced: bool,
}

// No table.
fn no_table() -> ConeTable {
    ConeTable {
        gate: Gate {
            to: 0,
            a: 0,
            b: 0,
            op: 0,
        },
        forced: false,
    }
}

impl Cone {
    /// A cone without nets, where there are so many nets, tables and latches.
    pub fn new(alloc: Global, nets: usize, tables: usize, latches: usize) -> Result<Self, NoRoom>
        requires nets { nets < 2 ^ 32 }
        requires latches { latches < 2 ^ 32 }
        ensures { IfOk result (IsNewCone nets tables latches) }
    {
        Ok(Cone {
            nets: PlaceSet::new(alloc, nets as u32)?,
            left: PlaceSet::new(alloc, nets as u32)?,
            tables: filled(alloc, 0, tables)?,
            table_count: 0,
            latches: PlaceSet::new(alloc, latches as u32)?,
            ends: filled(alloc, 0, latches)?,
            end_count: 0,
            read: PlaceSet::new(alloc, nets as u32)?,
            reads: filled(alloc, 0, nets)?,
            read_count: 0,
            named: PlaceSet::new(alloc, nets as u32)?,
            source: PlaceSet::new(alloc, nets as u32)?,
            sources: filled(alloc, 0, nets)?,
            source_count: 0,
            gates: filled(alloc, no_table(), tables)?,
            stretches: filled(alloc, 0, tables)?,
        })
    }
}

// Puts a net into a cone; if it wasn't there, its readers are to be looked at.
fn put_net(net: usize, nets: &mut PlaceSet, left: &mut PlaceSet)
    requires net { net < nets.old.bound }
    requires left { left.old.bound ≡ nets.old.bound }
    ensures spreads { Spreads nets.old left.old nets.new left.new }
    ensures there { has nets.new net ≡ true }
{
    if !nets.has(net) {
        nets.put(net);
        left.put(net);
    }
}

// So each net of a set.
fn put_all(set: &PlaceSet, nets: &mut PlaceSet, left: &mut PlaceSet)
    requires bound { set.now.bound ≡ nets.old.bound }
    requires few { nets.old.bound < 2 ^ 32 }
    requires left { left.old.bound ≡ nets.old.bound }
    ensures { Spreads nets.old left.old nets.new left.new }
{
    let mut from = 0;
    'nets: while let Some(n) = set.next_from(from) {
        put_net(n, nets, left);
        from = n + 1;
    }
}

// So the net of a latch that a fault flips, in whatever cycle.
fn put_flip(netlist: &Netlist, fault: &Option<Fault>, nets: &mut PlaceSet, left: &mut PlaceSet)
    requires nets { nets.old.bound ≡ length netlist.now.drivers }
    requires left { left.old.bound ≡ nets.old.bound }
    ensures { Spreads nets.old left.old nets.new left.new }
{
    if let Some(Fault::Flip(l, _)) = fault {
        if let Some(latch) = netlist.latches().get(*l as usize) {
            put_net(latch.to.0 as usize, nets, left);
        }
    }
}

fn put_flips(netlist: &Netlist, faults: &[Option<Fault>], nets: &mut PlaceSet, left: &mut PlaceSet)
    requires nets { nets.old.bound ≡ length netlist.now.drivers }
    requires left { left.old.bound ≡ nets.old.bound }
    ensures { Spreads nets.old left.old nets.new left.new }
{
    for fault in faults {
        put_flip(netlist, fault, nets, left);
    }
}

fn put_all_flips(
    netlist: &Netlist,
    loads: &[[Option<Fault>; 2]],
    nets: &mut PlaceSet,
    left: &mut PlaceSet,
)
    requires nets { nets.old.bound ≡ length netlist.now.drivers }
    requires left { left.old.bound ≡ nets.old.bound }
    ensures { Spreads nets.old left.old nets.new left.new }
{
    for faults in loads {
        put_flips(netlist, faults, nets, left);
    }
}

// The net that is driven at a place.
fn driven_net(cycle: &GoldenCycle<'_>, place: usize) -> NetId
    requires golden { IsGoldenCycle cycle.now }
    requires place { place < length cycle.now.order.now + length cycle.now.netlist.now.latches }
    ensures driven { result.0 ≡ driven_at cycle.now.fanout.now place }
    ensures net { result.0 < length cycle.now.netlist.now.drivers }
{
    if place < cycle.order.len() {
        cycle.order[place]
    } else {
        cycle.netlist.latches()[place - cycle.order.len()].to
    }
}

// Puts the nets that are driven at some places.
fn put_driven(cycle: &GoldenCycle<'_>, places: &[u32], nets: &mut PlaceSet, left: &mut PlaceSet)
    requires golden { IsGoldenCycle cycle.now }
    requires places { All (λ place. place < length cycle.now.order.now + length cycle.now.netlist.now.latches) places.now }
    requires nets { nets.old.bound ≡ length cycle.now.netlist.now.drivers }
    requires left { left.old.bound ≡ nets.old.bound }
    ensures spreads { Spreads nets.old left.old nets.new left.new }
    ensures there { All (λ place. has nets.new (driven_at cycle.now.fanout.now place) ≡ true) places.now }
{
    for place in places {
        put_net(driven_net(cycle, *place as usize).0 as usize, nets, left);
    }
}

// Puts the nets that are driven where one of the cone's is read, until none is left, and answers whether that came to an end. Each
// net is left once, so it does.
fn close(cycle: &GoldenCycle<'_>, nets: &mut PlaceSet, left: &mut PlaceSet) -> bool
    requires golden { IsGoldenCycle cycle.now }
    requires nets { nets.old.bound ≡ length cycle.now.netlist.now.drivers }
    requires left { left.old.bound ≡ nets.old.bound }
    requires closed { IsClosedBut cycle.now.fanout.now left.old nets.old }
    ensures nets { nets.new.bound ≡ nets.old.bound }
    ensures left { left.new.bound ≡ left.old.bound }
    ensures closed { result ≡ true → IsClosed cycle.now.fanout.now nets.new }
{
    for _ in 0..nets.bound() {
        match left.next_from(0) {
            None => {
                return true;
            }
            Some(n) => {
                left.remove(n);
                put_driven(cycle, cycle.fanout.readers(NetId(n as u32)), nets, left);
            }
        }
    }
    left.next_from(0).is_none()
}

// Makes the nets of a cone those that a path leads to from the nets of two sets, and from latches that are flipped.
fn reach(
    cycle: &GoldenCycle<'_>,
    loads: &[[Option<Fault>; 2]],
    named: &PlaceSet,
    touched: &PlaceSet,
    nets: &mut PlaceSet,
    left: &mut PlaceSet,
)
    requires golden { IsGoldenCycle cycle.now }
    requires named { named.now.bound ≡ length cycle.now.netlist.now.drivers }
    requires touched { touched.now.bound ≡ length cycle.now.netlist.now.drivers }
    requires nets { nets.old.bound ≡ length cycle.now.netlist.now.drivers }
    requires left { left.old.bound ≡ length cycle.now.netlist.now.drivers }
    ensures nets { nets.new.bound ≡ nets.old.bound }
    ensures left { left.new.bound ≡ left.old.bound }
    ensures closed { IsClosed cycle.now.fanout.now nets.new }
{
    nets.clear();
    put_all(named, nets, left);
    put_all(touched, nets, left);
    put_all_flips(cycle.netlist, loads, nets, left);
    if !close(cycle, nets, left) {
        nets.clear();
    }
}

// Lists the places of the tables whose nets are in a set, and answers how many there are.
fn list_tables(order: &[NetId], nets: &PlaceSet, tables: &mut [u32]) -> usize
    requires few { length order.now < 2 ^ 32 }
    requires room { length tables.old ≡ length order.now }
    ensures { AreThose (λ place. has nets.now (net_at order.now place).0) (length order.now) tables.new result }
{
    let mut count = 0;
    for (place, net) in order.iter().enumerate() {
        count = list_if(nets.has(net.0 as usize), place as u32, tables, count);
    }
    count
}

// Puts a place into a set, or takes it out.
fn set_place(is: bool, place: usize, set: &mut PlaceSet)
    requires { place < set.old.bound }
    ensures bound { set.new.bound ≡ set.old.bound }
    ensures here { has set.new place ≡ is }
    ensures others { (p : ℕ) → p ≢ place → has set.new p ≡ has set.old p }
{
    if is {
        set.put(place);
    } else {
        set.remove(place);
    }
}

// The latches whose nets are in a set.
fn find_latches(latches: &[Latch], nets: &PlaceSet, set: &mut PlaceSet)
    requires { set.old.bound ≡ length latches.now }
    ensures bound { set.new.bound ≡ set.old.bound }
    ensures each { (l : ℕ) → l < length latches.now → has set.new l ≡ has nets.now (latch_at latches.now l).to.0 }
{
    for (l, latch) in latches.iter().enumerate() {
        set_place(nets.has(latch.to.0 as usize), l, set);
    }
}

// Whether a net of a set is driven at one of some places.
fn drives_one(cycle: &GoldenCycle<'_>, places: &[u32], nets: &PlaceSet) -> bool
    requires golden { IsGoldenCycle cycle.now }
    requires places { All (λ place. place < length cycle.now.order.now + length cycle.now.netlist.now.latches) places.now }
    ensures { (place : ℕ) → result ≡ false → Contains places.now place → has nets.now (driven_at cycle.now.fanout.now place) ≡ false }
{
    for place in places {
        if nets.has(driven_net(cycle, *place as usize).0 as usize) {
            return true;
        }
    }
    false
}

// Whether an input drives a net.
fn is_input(netlist: &Netlist, net: NetId) -> bool
    requires { IsNet netlist.now net }
    ensures { (i : ℕ) → result ≡ false → driver_at netlist.now net.0 ≡ Input i → ⊥ }
{
    match netlist.driver(net) {
        Driver::Input(_) => true,
        _ => false,
    }
}

// Whether a cycle that is run by a cone reads the golden value of a net.
fn is_read(cycle: &GoldenCycle<'_>, net: NetId, nets: &PlaceSet) -> bool
    requires golden { IsGoldenCycle cycle.now }
    requires net { IsNet cycle.now.netlist.now net }
    ensures { result ≡ false → IsUnread cycle.now.fanout.now nets.now net.0 }
{
    if nets.has(net.0 as usize) {
        is_input(cycle.netlist, net)
    } else {
        drives_one(cycle, cycle.fanout.readers(net), nets)
    }
}

// The nets whose golden values such a cycle reads.
fn find_reads(cycle: &GoldenCycle<'_>, nets: &PlaceSet, set: &mut PlaceSet)
    requires golden { IsGoldenCycle cycle.now }
    requires bound { set.old.bound ≡ length cycle.now.netlist.now.drivers }
    ensures bound { set.new.bound ≡ set.old.bound }
    ensures each { (n : ℕ) → n < set.old.bound → has set.new n ≡ false → IsUnread cycle.now.fanout.now nets.now n }
{
    for n in 0..set.bound() {
        set_place(is_read(cycle, NetId(n), nets), n as usize, set);
    }
}

// Keeps the nets that faults name; none where one of them isn't in the cone.
fn keep_named(named: &PlaceSet, nets: &PlaceSet, own: &mut PlaceSet)
    requires bound { named.now.bound ≡ own.old.bound }
    requires few { own.old.bound < 2 ^ 32 }
    ensures bound { own.new.bound ≡ own.old.bound }
    ensures inside { Grows own.new nets.now }
{
    own.copy_from(named);
    if !own.is_inside(nets) {
        own.clear();
    }
}

// Whether no table drives a net.
fn is_source_net(netlist: &Netlist, net: NetId) -> bool
    requires { IsNet netlist.now net }
    ensures { result ≡ is_source (driver_at netlist.now net.0) }
{
    match netlist.driver(net) {
        Driver::Table(_) => false,
        _ => true,
    }
}

// Whether a net is in a set, and no table drives it.
fn is_named_source(netlist: &Netlist, named: &PlaceSet, net: NetId) -> bool
    requires { IsNet netlist.now net }
    ensures { result ≡ (has named.now net.0 && is_source (driver_at netlist.now net.0)) }
{
    if named.has(net.0 as usize) {
        is_source_net(netlist, net)
    } else {
        false
    }
}

// The nets of a set that no table drives.
fn find_sources(netlist: &Netlist, named: &PlaceSet, set: &mut PlaceSet)
    requires { set.old.bound ≡ length netlist.now.drivers }
    ensures bound { set.new.bound ≡ set.old.bound }
    ensures each { (n : ℕ) → n < set.old.bound → has set.new n ≡ (has named.now n && is_source (driver_at netlist.now n)) }
{
    for n in 0..set.bound() {
        set_place(is_named_source(netlist, named, NetId(n)), n as usize, set);
    }
}

// A gate, and whether its net is in a set.
fn table_of(gate: &Gate, named: &PlaceSet) -> ConeTable
    ensures gate { result.gate ≡ gate.now }
    ensures forced { result.forced ≡ has named.now gate.now.to }
{
    ConeTable {
        gate: *gate,
        forced: named.has(gate.to as usize),
    }
}

// Lists the gates of so many places, one behind the other.
fn copy_tables(
    gates: &[Gate],
    places: &[u32],
    count: usize,
    named: &PlaceSet,
    tables: &mut [ConeTable],
)
    requires places { count ≤ length places.now }
    requires room { count ≤ length tables.old }
    requires below { (i : ℕ) → i < count → slice_index places.now i < length gates.now }
    ensures gates { (i : ℕ) → i < count → (cone_table tables.new i).gate ≡ gate_at gates.now (slice_index places.now i) }
    ensures forced { (i : ℕ) → i < count → (cone_table tables.new i).forced ≡ has named.now (gate_at gates.now (slice_index places.now i)).to }
{
    for at in 0..count {
        tables[at] = table_of(&gates[places[at] as usize], named);
    }
}

// Whether a table can stand in a stretch.
fn is_plain(table: &ConeTable) -> bool
    ensures { result ≡ true → IsPlain table.now.gate.op table.now }
{
    !table.forced && table.gate.op < 16
}

// Where the stretch ends that begins with a table, where the one behind it begins a stretch up to `next`.
fn stretch_end(tables: &[ConeTable], at: usize, next: usize) -> usize
    requires next { next ≤ length tables.now }
    requires behind { at + 1 ≤ next }
    requires stretch { IsStretch tables.now (cone_table tables.now (at + 1)).gate.op (at + 1) next }
    ensures least { at ≤ result }
    ensures most { result ≤ next }
    ensures stretch { IsStretch tables.now (cone_table tables.now at).gate.op at result }
{
    if !is_plain(&tables[at]) {
        return at;
    }
    if at + 1 < next && tables[at].gate.op == tables[at + 1].gate.op {
        return next;
    }
    at + 1
}

// Finds where the stretches end that begin with each of so many tables.
fn find_stretches(tables: &[ConeTable], count: usize, ends: &mut [u32])
    requires few { count < 2 ^ 32 }
    requires tables { count ≤ length tables.now }
    requires room { count ≤ length ends.old }
    ensures { AreStretches tables.now count ends.new }
{
    let mut next = count;
    for back in 0..count {
        let at = count - 1 - back;
        next = stretch_end(tables, at, next);
        ends[at] = next as u32;
    }
}

/// Makes a cone of what is forced, what differs, and what faults flip. `gates` are those of all tables.
pub fn make(
    cycle: &GoldenCycle<'_>,
    gates: &[Gate],
    loads: &[[Option<Fault>; 2]],
    named: &PlaceSet,
    touched: &PlaceSet,
    cone: &mut Cone,
)
    requires golden { IsGoldenCycle cycle.now }
    requires gates { IsProgram cycle.now.netlist.now cycle.now.order.now gates.now }
    requires named { named.now.bound ≡ length cycle.now.netlist.now.drivers }
    requires touched { touched.now.bound ≡ length cycle.now.netlist.now.drivers }
    requires cone { IsConeOf cycle.now.fanout.now cone.old }
    ensures { IsConeOf cycle.now.fanout.now cone.new }
{
    reach(cycle, loads, named, touched, &mut cone.nets, &mut cone.left);
    cone.table_count = list_tables(cycle.order, &cone.nets, &mut cone.tables);
    find_latches(cycle.netlist.latches(), &cone.nets, &mut cone.latches);
    cone.end_count = list_all(&cone.latches, &mut cone.ends);
    find_reads(cycle, &cone.nets, &mut cone.read);
    cone.read_count = list_all(&cone.read, &mut cone.reads);
    keep_named(named, &cone.nets, &mut cone.named);
    find_sources(cycle.netlist, &cone.named, &mut cone.source);
    cone.source_count = list_all(&cone.source, &mut cone.sources);
    copy_tables(
        gates,
        &cone.tables,
        cone.table_count,
        &cone.named,
        &mut cone.gates,
    );
    find_stretches(&cone.gates, cone.table_count, &mut cone.stretches);
}

/// Whether what is forced was named when a cone was made, and what differs before a cycle is in it, looked at a word at a time.
pub fn holds<W: Word>(
    cone: &Cone,
    forces: &Forces<W>,
    latches: &LatchDifferences<W>,
    nets: &NetDifferences<W>,
) -> bool
    ensures { result ≡ true → Holds cone.now forces.now latches.now nets.now }
{
    forces.named.is_inside(&cone.named)
        && nets.touched.is_inside(&cone.nets)
        && latches.live.is_inside(&cone.latches)
}
