// The nets of a file, each with what is known of it.
ghost use Rattle.std.specs.Prelude.{◌≡◌, ◌<◌, ◌-◌, ◌^◌, true, not, length, position, IfOk, IfSome, OnOk, slice_set};
ghost use Rattle.net_names.specs.Nets.{net_id};
ghost use Rattle.bench_reader.specs.Marks.{first_loose, is_given, is_driven, net_mark, mention, no_nets, with_driven, with_given};

use crate::copies::{name_at, own_names};
use crate::{BenchFault, BenchKind};
use circuit::parts::{Names, NetId};
use indexmap::IndexSet;
use room::{NoRoom, insert_full, push};
use std::alloc::Global;
use std::marker::Model;

/// What is known of a net: the line of its first appearance, whether it is driven, and whether it is an output.
#[derive(Clone, Copy)]
pub struct Mark {
    pub line: u32,
    pub driven: bool,
    pub output: bool,
}

/// The nets of a file, in order of first appearance. No name is copied.
#[derive(Drop)]
pub struct Nets<'a> {
    names: IndexSet<&'a [u8]>,
    marks: Vec<Mark>,
}

impl<'a> Model for Nets<'a> {
    ghost use Rattle.std.specs.Prelude.{map};
    ghost use Rattle.bench_reader.specs.Marks.{NetMarks};

    ghost Value = { NetMarks };

    ghost view = { λ n. record { names = map (λ name. name.now) n.names.keys; marks = n.marks.items } };
}

/// The net is driven. The answer is whether it was driven before.
fn mark_driven(marks: &mut [Mark], net: NetId) -> bool
    ensures marks { marks.new ≡ slice_set marks.old net.0 (record (net_mark marks.old net) { driven = true }) }
    ensures before { result ≡ (net_mark marks.old net).driven }
{
    let at = net.0 as usize;
    if at < marks.len() {
        let before = marks[at];
        marks[at] = Mark {
            driven: true,
            ..before
        };
        before.driven
    } else {
        false
    }
}

/// The net is an output. The answer is whether it was one before.
fn mark_output(marks: &mut [Mark], net: NetId) -> bool
    ensures marks { marks.new ≡ slice_set marks.old net.0 (record (net_mark marks.old net) { output = true }) }
    ensures before { result ≡ (net_mark marks.old net).output }
{
    let at = net.0 as usize;
    if at < marks.len() {
        let before = marks[at];
        marks[at] = Mark {
            output: true,
            ..before
        };
        before.output
    } else {
        false
    }
}

/// The place of the first net that isn't driven.
fn undriven_place(marks: &[Mark]) -> Option<usize>
    ensures place { result ≡ position (λ mark. not mark.driven) marks.now }
    ensures within { IfSome result (λ place. place < length marks.now) }
{
    marks.iter().position(|mark| !mark.driven)
}

impl<'a> Nets<'a> {
    /// No nets yet.
    pub fn new(alloc: Global) -> Self
        ensures { result ≡ no_nets }
    {
        Nets {
            names: IndexSet::new(alloc),
            marks: Vec::new(alloc),
        }
    }

    /// The number of nets.
    pub fn len(&self) -> usize
        ensures { result ≡ length self.now.names }
    {
        self.names.len()
    }

    /// A line names a net: a new name is a new net.
    pub fn mention(&mut self, line: u32, name: &'a [u8]) -> Result<NetId, NoRoom>
        requires { length self.old.names < 2 ^ 32 - 1 }
        ensures nets { OnOk result (self.new ≡ mention line self.old name.now) }
        ensures id { IfOk result (λ id. id ≡ net_id self.new.names name.now) }
    {
        let (place, is_new) = insert_full(&mut self.names, name)?;
        if is_new {
            push(
                &mut self.marks,
                Mark {
                    line,
                    driven: false,
                    output: false,
                },
            )?;
        }
        Ok(NetId(place as u32))
    }

    /// The net is driven. The answer is whether it was driven before.
    pub fn drive(&mut self, net: NetId) -> bool
        ensures nets { self.new ≡ with_driven self.old net }
        ensures before { result ≡ is_driven self.old net }
    {
        mark_driven(&mut self.marks, net)
    }

    /// The net is an output. The answer is whether it was one before.
    pub fn give(&mut self, net: NetId) -> bool
        ensures nets { self.new ≡ with_given self.old net }
        ensures before { result ≡ is_given self.old net }
    {
        mark_output(&mut self.marks, net)
    }

    /// The names of the nets, in their order.
    pub fn names(&self, alloc: Global) -> Result<Names, NoRoom>
        ensures { IfOk result (λ ns. ns ≡ self.now.names) }
    {
        own_names(alloc, self.names.as_slice())
    }

    /// The first net that isn't driven, at the line of its first appearance.
    pub fn undriven(&self, alloc: Global) -> Result<Option<BenchFault>, NoRoom>
        ensures { IfOk result (λ o. o ≡ first_loose self.now) }
    {
        match undriven_place(self.marks.as_slice()) {
            Some(place) => Ok(Some(BenchFault {
                line: self.marks[place].line,
                kind: BenchKind::Undriven(name_at(alloc, self.names.as_slice(), place)?),
            })),
            None => Ok(None),
        }
    }
}
