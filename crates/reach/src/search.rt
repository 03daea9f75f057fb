// A search backwards from nets, over tables and latches, on a stack of its own.
ghost use Rattle.std.specs.Prelude.{◌≡◌, ◌<◌, ◌≤◌, [], ◌∷◌, ℕ, All, Contains, IfOk, List, OnOk, false, true, length, replicate};
ghost use Rattle.circuit.specs.Sound.{IsNet};
ghost use Rattle.circuit.specs.Value.{bit_at, driver_at};
ghost use Rattle.circuit.specs.declared.parts.NetId.{NetId as Net};
ghost use Rattle.reach.specs.Paths.{reads_of};
ghost use Rattle.reach.specs.Search.{Grows, HasFound, IsSearch, work_left};

use circuit::netlist::Netlist;
use circuit::parts::{Driver, NetId};
use room::{NoRoom, filled, push};
use std::alloc::Global;

/// A mark for each net that was found so far, and those nets of them whose driver has yet to be looked at.
#[derive(Drop)]
pub(crate) struct Search {
    pub marks: Vec<bool>,
    pub left: Vec<NetId>,
}

impl Search {
    /// A search of so many nets that has found none.
    pub fn new(alloc: Global, nets: usize) -> Result<Search, NoRoom>
        ensures marks { IfOk result (λ search. search.marks.items ≡ replicate nets false) }
        ensures left { IfOk result (λ search. search.left.items ≡ []) }
    {
        Ok(Search {
            marks: filled(alloc, false, nets)?,
            left: Vec::new(alloc),
        })
    }

    // Finds a net.
    fn find(&mut self, net: NetId) -> Result<(), NoRoom>
        requires { net.0 < length self.old.marks.items }
        ensures found { OnOk result (HasFound self.old (net ∷ []) self.new) }
        ensures marked { OnOk result (bit_at self.new.marks.items net.0 ≡ true) }
        ensures less { OnOk result (work_left self.new ≤ work_left self.old) }
    {
        let at = net.0 as usize;
        if self.marks[at] {
            return Ok(());
        }
        push(&mut self.left, net)?;
        self.marks[at] = true;
        Ok(())
    }

    /// Finds each of these nets.
    pub fn find_all(&mut self, nets: &[NetId]) -> Result<(), NoRoom>
        requires { All (λ net. net.0 < length self.old.marks.items) nets.now }
        ensures found { OnOk result (HasFound self.old nets.now self.new) }
        ensures marked { OnOk result (All (λ net. bit_at self.new.marks.items net.0 ≡ true) nets.now) }
        ensures less { OnOk result (work_left self.new ≤ work_left self.old) }
    {
        for net in nets {
            self.find(*net)?;
        }
        Ok(())
    }

    // Finds the nets that the driver of a net reads.
    fn look_back(&mut self, netlist: &Netlist, net: NetId) -> Result<(), NoRoom>
        requires size { length self.old.marks.items ≡ length netlist.now.drivers }
        requires net { IsNet netlist.now net }
        ensures found { OnOk result (HasFound self.old (reads_of netlist.now (driver_at netlist.now net.0)) self.new) }
        ensures marked { OnOk result (All (λ read. bit_at self.new.marks.items read.0 ≡ true) (reads_of netlist.now (driver_at netlist.now net.0))) }
        ensures less { OnOk result (work_left self.new ≤ work_left self.old) }
    {
        match netlist.driver(net) {
            Driver::Input(_) => Ok(()),
            Driver::Table(k) => self.find_all(netlist.table(k).ins.as_slice()),
            Driver::Latch(l) => self.find_all(&[netlist.latches()[l as usize].from]),
        }
    }

    /// Looks at the driver of each net that is found, until none is left.
    pub fn finish(&mut self, netlist: &Netlist) -> Result<(), NoRoom>
        requires size { length self.old.marks.items ≡ length netlist.now.drivers }
        requires left { All (λ net. bit_at self.old.marks.items net.0 ≡ true) self.old.left.items }
        ensures search { OnOk result ((goals : List Net) → IsSearch netlist.now goals self.old.marks.items self.old.left.items []
            → IsSearch netlist.now goals self.new.marks.items [] []) }
        ensures grows { OnOk result (Grows self.old.marks.items self.new.marks.items) }
    {
        while let Some(net) = self.left.pop() {
            self.look_back(netlist, net)?;
        }
        Ok(())
    }
}
