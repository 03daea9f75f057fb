// What all simulations of a campaign share.
ghost use Rattle.std.specs.Prelude.{◌≡◌, ◌<◌, IfOk, length};
ghost use Rattle.circuit.specs.Order.{IsOrder};
ghost use Rattle.golden_difference.specs.Beside.{IsGoldenRow};
ghost use Rattle.workload.specs.Runs.{cycles_of, run_at};

use crate::rows::GoldenRows;
use circuit::netlist::Netlist;
use fanout::Fanout;
use netlist_levels::Order;
use room::NoRoom;
use std::alloc::Global;
use std::marker::Model;
use workload::run::Workload;

/// The golden values of all nets in each cycle of each run, and who reads each net. It takes no memory once it is made.
#[derive(Drop)]
pub struct Golden {
    rows: GoldenRows,
    fanout: Fanout,
}

impl Model for Golden {
    ghost use Rattle.std.specs.Prelude.{◌≡◌};
    ghost use Rattle.golden_run.specs.Recording.{Recording, recording_of};

    ghost Value = { Recording };

    ghost view = { λ g. recording_of g.rows g.fanout };

    ghost invariant = { λ g. g.fanout.circuit ≡ g.rows.circuit };
}

impl Golden {
    /// The golden run of a workload, where tables are evaluated in this order.
    pub fn new(alloc: Global, net: &Netlist, order: &Order, work: &Workload) -> Result<Self, NoRoom>
        requires { IsOrder net.now order.now }
        ensures { IfOk result (λ made. made ≡ record { circuit = net.now; order = order.now; runs = work.now }) }
    {
        let fanout = Fanout::new(alloc, net, order)?;
        let rows = GoldenRows::new(alloc, net, order, &fanout, work)?;
        Ok(Golden { rows, fanout })
    }

    /// Who reads each net.
    pub fn fanout(&self) -> &Fanout
        ensures { result.now ≡ record { circuit = self.now.circuit; order = self.now.order } }
    {
        &self.fanout
    }

    /// The values of all nets in a cycle of a run, a bit for each net, 64 to a word.
    pub fn row(&self, run: u32, t: u32) -> &[u64]
        requires run { run < length self.now.runs }
        requires cycle { t < cycles_of (run_at self.now.runs run) }
        ensures { IsGoldenRow self.now.circuit (run_at self.now.runs run).vectors t result.now }
    {
        self.rows.row(run, t)
    }
}
