// What is held of the golden run: a row of all nets' values for each cycle.
ghost use Rattle.std.specs.Prelude.{◌≡◌, ◌<◌, IfOk, length};
ghost use Rattle.circuit.specs.Order.{IsOrder};
ghost use Rattle.golden_difference.specs.Beside.{IsGoldenRow};
ghost use Rattle.workload.specs.Runs.{cycles_of, run_at};

use crate::make::{Words, all_rows};
use circuit::netlist::Netlist;
use fanout::Fanout;
use netlist_levels::Order;
use room::NoRoom;
use std::alloc::Global;
use std::marker::Model;
use std::snapshot::Snapshot;
use workload::run::Workload;

/// The golden values of all nets in each cycle of each run: a bit for each, in rows of words. It takes no memory once it is made.
/// For 262,144 nets and 65,536 cycles it takes 2.1 GB.
#[derive(Drop)]
pub(crate) struct GoldenRows {
    circuit: Snapshot<Netlist>,
    runs: Snapshot<Workload>,
    // The number of words of a row.
    width: usize,
    // The rows of each run, one cycle behind the other.
    rows: Vec<Words>,
}

impl Model for GoldenRows {
    ghost use Rattle.golden_run.specs.Recorded.{HoldsRows, Recorded};

    ghost Value = { Recorded };

    ghost view = { λ g. record { circuit = g.circuit.value; runs = g.runs.value } };

    ghost invariant = { λ g. HoldsRows (record { circuit = g.circuit.value; runs = g.runs.value }) g.width g.rows.items };
}

impl GoldenRows {
    /// The golden values of all nets of a netlist over the runs of a workload, by the readers of its nets.
    pub fn new(
        alloc: Global,
        netlist: &Netlist,
        order: &Order,
        fanout: &Fanout,
        work: &Workload,
    ) -> Result<Self, NoRoom>
        requires order { IsOrder netlist.now order.now }
        requires fanout { fanout.now ≡ record { circuit = netlist.now; order = order.now } }
        ensures { IfOk result (λ rows. rows ≡ record { circuit = netlist.now; runs = work.now }) }
    {
        let rows = all_rows(alloc, netlist, order, fanout, work)?;
        Ok(GoldenRows {
            circuit: Snapshot::of(netlist),
            runs: Snapshot::of(work),
            width: netlist.nets() / 64 + 1,
            rows,
        })
    }

    /// The golden values of all nets in a cycle of a run, a bit for each net, 64 to a word.
    pub fn row(&self, run: u32, t: u32) -> &[u64]
        requires run { run < length self.now.runs }
        requires cycle { t < cycles_of (run_at self.now.runs run) }
        ensures { IsGoldenRow self.now.circuit (run_at self.now.runs run).vectors t result.now }
    {
        let words = self.rows[run as usize].as_slice();
        let first = t as usize * self.width;
        &words[first..first + self.width]
    }
}
