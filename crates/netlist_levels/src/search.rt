// A search in depth over the tables, on a stack of its own.
ghost use Rattle.std.specs.Prelude.{◌≡◌, ◌<◌, ◌+◌, ◌-◌, ◌∷◌, ◌++◌, [], ℕ, length, take, slice_set, sum_by, All, OnOk, IfOk, IfErr};
ghost use Rattle.circuit.specs.declared.parts.Driver.TheVariants.{Table as FromTable};
ghost use Rattle.circuit.specs.Value.{driver_at, table_at};
ghost use Rattle.circuit.specs.Sound.{IsNet};
ghost use Rattle.netlist_levels.specs.declared.search.Mark.TheVariants.{New, Open, Done};
ghost use Rattle.netlist_levels.specs.Levels.{IsWhy, AnswersLevels};
ghost use Rattle.netlist_levels.specs.Search.{mark_at, frame_at, ins_of, steps_left, NoneGoesBack, IsOrdered, Searches, IsUnready};

use crate::found::LoopFound;
use crate::order::Order;
use crate::rank::{Rank, ranks_of};
use crate::walk::loop_from;
use circuit::netlist::Netlist;
use circuit::parts::{Driver, NetId, NetIds};
use room::{NoRoom, filled, push};
use std::alloc::Global;

/// How far the search has come with a table.
#[derive(Clone, Copy)]
pub(crate) enum Mark {
    New,
    /// At this place of the stack.
    Open(usize),
    Done,
}

/// An open table: its net, its number, and the first of the nets that it reads which isn't known to be done.
#[derive(Clone, Copy)]
pub(crate) struct Frame {
    pub net: NetId,
    pub table: u32,
    pub next: usize,
}

/// Among the nets that a table reads, the first whose table isn't done.
enum Unready {
    Nothing,
    /// Its place, the net, and its table.
    NewTable(usize, NetId, u32),
    /// The net, its table, and the table's place on the stack.
    OpenTable(NetId, u32, usize),
}

#[derive(Drop)]
struct Search {
    marks: Vec<Mark>,
    stack: Vec<Frame>,
    order: Vec<NetId>,
}

// The first net, from this place on, whose table isn't done.
fn first_unready(net: &Netlist, marks: &[Mark], ins: &[NetId], from: usize) -> Unready
    requires marks { length marks.now ≡ length net.now.tables }
    requires ins { All (IsNet net.now) ins.now }
    ensures { IsUnready net.now marks.now ins.now from result }
{
    for place in from..ins.len() {
        let read = ins[place];
        if let Driver::Table(table) = net.driver(read) {
            match marks[table as usize] {
                Mark::New => return Unready::NewTable(place, read, table),
                Mark::Open(at) => return Unready::OpenTable(read, table, at),
                Mark::Done => {}
            }
        }
    }
    Unready::Nothing
}

impl Search {
    // A search that has opened nothing.
    fn new(alloc: Global, net: &Netlist) -> Result<Search, NoRoom>
        ensures { IfOk result (λ search. Searches net.now search × (search.stack.items ≡ [])) }
    {
        Ok(Search {
            marks: filled(alloc, Mark::New, net.tables())?,
            stack: Vec::new(alloc),
            order: Vec::new(alloc),
        })
    }

    // Puts a table upon the stack.
    fn open(&mut self, net: NetId, table: u32) -> Result<(), NoRoom>
        requires { table < length self.old.marks.items }
        ensures marks { OnOk result (self.new.marks.items ≡ slice_set self.old.marks.items table (Open (length self.old.stack.items))) }
        ensures stack { OnOk result (self.new.stack.items ≡ self.old.stack.items ++ (record { net = net; table = table; next = 0 }) ∷ []) }
        ensures order { OnOk result (self.new.order.items ≡ self.old.order.items) }
    {
        let place = self.stack.len();
        push(
            &mut self.stack,
            Frame {
                net,
                table,
                next: 0,
            },
        )?;
        self.marks[table as usize] = Mark::Open(place);
        Ok(())
    }

    // Notes that the topmost table reads done nets before this place.
    fn advance(&mut self, next: usize)
        requires { 0 < length self.old.stack.items }
        ensures marks { self.new.marks.items ≡ self.old.marks.items }
        ensures stack { let last = length self.old.stack.items - 1 in
            self.new.stack.items ≡ slice_set self.old.stack.items last (record (frame_at self.old.stack.items last) { next = next }) }
        ensures order { self.new.order.items ≡ self.old.order.items }
    {
        let last = self.stack.len() - 1;
        self.stack[last].next = next;
    }

    // Takes the topmost table off the stack, to the end of the order.
    fn close(&mut self, top: Frame) -> Result<(), NoRoom>
        requires { top.table < length self.old.marks.items }
        ensures marks { OnOk result (self.new.marks.items ≡ slice_set self.old.marks.items top.table Done) }
        ensures stack { OnOk result (self.new.stack.items ≡ take (length self.old.stack.items - 1) self.old.stack.items) }
        ensures order { OnOk result (self.new.order.items ≡ self.old.order.items ++ top.net ∷ []) }
    {
        push(&mut self.order, top.net)?;
        self.marks[top.table as usize] = Mark::Done;
        self.stack.pop();
        Ok(())
    }

    // One step with the topmost table: it is closed, or the next that it reads is opened.
    fn step(&mut self, alloc: Global, net: &Netlist, top: Frame) -> Result<(), LoopFound>
        requires search { Searches net.now self.old }
        requires some { 0 < length self.old.stack.items }
        requires top { top ≡ frame_at self.old.stack.items (length self.old.stack.items - 1) }
        ensures search { OnOk result (Searches net.now self.new) }
        ensures less { OnOk result (sum_by steps_left self.new.marks.items < sum_by steps_left self.old.marks.items) }
        ensures none_back { OnOk result (NoneGoesBack self.old.marks.items self.new.marks.items) }
        ensures why { IfErr result (IsWhy net.now) }
    {
        let ins = net.table(top.table).ins.as_slice();
        match first_unready(net, self.marks.as_slice(), ins, top.next) {
            Unready::Nothing => self.close(top)?,
            Unready::NewTable(next, read, table) => {
                self.advance(next);
                self.open(read, table)?;
            }
            Unready::OpenTable(_, _, place) => {
                let walk = loop_from(alloc, net, self.stack.as_slice(), place)?;
                return Err(LoopFound::Loop(walk));
            }
        }
        Ok(())
    }

    // Closes all tables that are open.
    fn finish(&mut self, alloc: Global, net: &Netlist) -> Result<(), LoopFound>
        requires { Searches net.now self.old }
        ensures search { OnOk result (Searches net.now self.new) }
        ensures empty { OnOk result (self.new.stack.items ≡ []) }
        ensures none_back { OnOk result (NoneGoesBack self.old.marks.items self.new.marks.items) }
        ensures why { IfErr result (IsWhy net.now) }
    {
        while let Some(top) = self.stack.last().copied() {
            self.step(alloc, net, top)?;
        }
        Ok(())
    }

    // Brings the table of a net, if it has one, into the order.
    fn visit(&mut self, alloc: Global, net: &Netlist, root: NetId) -> Result<(), LoopFound>
        requires search { Searches net.now self.old }
        requires empty { self.old.stack.items ≡ [] }
        requires root { IsNet net.now root }
        ensures search { OnOk result (Searches net.now self.new) }
        ensures empty { OnOk result (self.new.stack.items ≡ []) }
        ensures none_back { OnOk result (NoneGoesBack self.old.marks.items self.new.marks.items) }
        ensures done { OnOk result (IsOrdered net.now self.new.marks.items root) }
        ensures why { IfErr result (IsWhy net.now) }
    {
        if let Driver::Table(table) = net.driver(root) {
            if let Mark::New = self.marks[table as usize] {
                self.open(root, table)?;
                self.finish(alloc, net)?;
            }
        }
        Ok(())
    }

    // Brings the tables of nets into the order, one behind the other.
    fn visit_ranked(
        &mut self,
        alloc: Global,
        net: &Netlist,
        ranks: &[Rank],
    ) -> Result<(), LoopFound>
        requires search { Searches net.now self.old }
        requires empty { self.old.stack.items ≡ [] }
        ensures search { OnOk result (Searches net.now self.new) }
        ensures empty { OnOk result (self.new.stack.items ≡ []) }
        ensures why { IfErr result (IsWhy net.now) }
    {
        for rank in ranks {
            if (rank.net as usize) < net.nets() {
                self.visit(alloc, net, NetId(rank.net))?;
            }
        }
        Ok(())
    }
}

// An order, or a loop. Of the tables that don't read one another those of the first nets come first.
fn order_from(alloc: Global, net: &Netlist, first: &[Rank]) -> Result<Order, LoopFound>
    ensures { AnswersLevels net.now result }
{
    let mut search = Search::new(alloc, net)?;
    search.visit_ranked(alloc, net, first)?;
    for root in 0..net.nets() as u32 {
        search.visit(alloc, net, NetId(root))?;
    }
    Ok(Order::from_nets(NetIds::from_vec(search.order)))
}

/// An order in which the tables of a netlist can be evaluated, or a loop through tables alone, where there is one.
/// A loop through a latch is none. A table comes behind all that have fewer tables on the longest way to them, and there beside those of
/// its operation. The time is linear in the number of tables and of nets that they read, but for sorting.
pub fn levels(alloc: Global, net: &Netlist) -> Result<Order, LoopFound>
    ensures { AnswersLevels net.now result }
{
    let found = order_from(alloc, net, &[])?;
    let ranks = ranks_of(alloc, net, found.nets())?;
    order_from(alloc, net, &ranks)
}
