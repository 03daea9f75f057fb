// The parts of a netlist, in the order of the lines.
ghost use Rattle.std.specs.Prelude.{◌≡◌};
ghost use Rattle.bench_reader.specs.Gather.{no_parts};

use circuit::parts::{Latches, NetIds, Tables};
use fm_base::Seq;
use std::alloc::Global;

/// Inputs, outputs, tables beside their nets, and latches beside theirs.
#[derive(Drop)]
pub struct Parts {
    pub inputs: NetIds,
    pub outputs: NetIds,
    pub tables: Tables,
    pub table_nets: NetIds,
    pub latches: Latches,
    pub latch_nets: NetIds,
}

impl Parts {
    /// No parts yet.
    pub fn new(alloc: Global) -> Self
        ensures { result ≡ no_parts }
    {
        Parts {
            inputs: Seq::new(alloc),
            outputs: Seq::new(alloc),
            tables: Seq::new(alloc),
            table_nets: Seq::new(alloc),
            latches: Seq::new(alloc),
            latch_nets: Seq::new(alloc),
        }
    }
}
