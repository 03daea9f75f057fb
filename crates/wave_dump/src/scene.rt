// What is dumped: a run, a fault, and the nets that are shown.
ghost use Rattle.std.specs.Prelude.{◌≡◌, ◌≤◌, ◌<◌, ◌^◌, [], All, length, slice_index, slice_index_or};
ghost use Rattle.circuit.specs.Names.{net_name};
ghost use Rattle.workload.specs.Runs.{cycles_of};
ghost use Rattle.wave_dump.specs.Dump.{scope_count};

use circuit::netlist::Netlist;
use circuit::parts::{Fault, NetId};
use std::marker::Model;
use workload::run::Workload;

/// A run of a netlist, a fault, and the nets that are shown.
#[derive(Drop)]
pub(crate) struct Scene<'a> {
    pub(crate) net: &'a Netlist,
    pub(crate) work: &'a Workload,
    /// The number of the run, from 0.
    pub(crate) run: u32,
    pub(crate) fault: Option<Fault>,
    pub(crate) nets: Vec<u32>,
}

impl<'a> Model for Scene<'a> {
    ghost use Rattle.workload.specs.Runs.{run_at};
    ghost use Rattle.wave_dump.specs.Dump.{Waves};
    ghost use Rattle.wave_dump.specs.Steps.{IsScene};

    ghost Value = { Waves };

    ghost view = { λ s. record {
      circuit = s.net.now;
      run = run_at s.work.now s.run;
      fault = s.fault;
      nets = s.nets.items;
    } };

    ghost invariant = { λ s. IsScene s.net.now s.work.now s.run s.nets.items };
}

impl<'a> Scene<'a> {
    /// The netlist.
    pub(crate) fn netlist(&self) -> &Netlist
        ensures { result.now ≡ self.now.circuit }
    {
        self.net
    }

    /// The number of cycles of the run.
    pub(crate) fn cycles(&self) -> u32
        ensures count { result ≡ cycles_of self.now.run }
        ensures few { cycles_of self.now.run ≤ 65536 }
    {
        self.work.cycles(self.run)
    }

    /// The bits of the inputs in a cycle.
    pub(crate) fn vector(&self, t: u32) -> &[bool]
        requires { t < cycles_of self.now.run }
        ensures value { result.now ≡ slice_index_or self.now.run.vectors t [] }
        ensures few { cycles_of self.now.run ≤ 65536 }
    {
        self.work.vector(self.run, t)
    }

    /// The nets that are shown.
    pub(crate) fn nets(&self) -> &[u32]
        ensures value { result.now ≡ self.now.nets }
        ensures nets { All (λ n. n < length self.now.circuit.drivers) self.now.nets }
        ensures few { length self.now.nets ≤ 2 ^ 18 }
    {
        self.nets.as_slice()
    }

    /// The name of the net at a place of those that are shown.
    pub(crate) fn name(&self, place: u32) -> &[u8]
        requires { place < length self.now.nets }
        ensures { result.now ≡ net_name self.now.circuit (slice_index self.now.nets place) }
    {
        self.net.name(NetId(self.nets[place as usize]))
    }

    /// The number of scopes.
    pub(crate) fn scopes(&self) -> u32
        ensures { result ≡ scope_count self.now }
    {
        if self.fault.is_some() { 2 } else { 1 }
    }

    /// The fault, if there is one.
    pub(crate) fn fault(&self) -> Option<Fault>
        ensures { result ≡ self.now.fault }
    {
        self.fault
    }
}
