// What an audit has found, by the kernel that has simulated. ONLY THIS FILE makes a `Simulated`, behind the simulation by circuits of that kernel: no
// clause can say so, since a contract is about what a call answers, and either kernel answers the same.
ghost use Rattle.std.specs.Prelude.{◌≡◌, ◌<◌, IfOk};
ghost use Rattle.alarm_points.specs.PointsKept.{ArePointsFor};
ghost use Rattle.campaign_plan.specs.Analysis.{Analysis};
ghost use Rattle.row_audit.specs.Audited.{IsOfPlan, first_false};
ghost use Rattle.row_audit.specs.Loaded.{IsLoadedFor};
ghost use Rattle.row_audit.specs.Simulated.{WasSimulatedBy, WasSimulatedBy-prop};

use crate::audit::first_in;
use crate::bench::Bench;
use crate::circuits::Circuits;
use crate::judge::watchers_for;
use crate::kernel::Kernel;
use result_file::{FalseRow, Row};
use room::NoRoom;
use std::alloc::Global;

/// The first row that keeps other planes than its batch truly has, if one does, with evidence of the kernel that has simulated the rows.
#[derive(Drop)]
pub struct Simulated {
    pub row: Option<FalseRow>,
    pub kernel: Kernel,
    sealed: (),
    pub ghost why: { WasSimulatedBy kernel } by { WasSimulatedBy-prop kernel },
}

impl Simulated {
    fn by(kernel: Kernel, row: Option<FalseRow>) -> Simulated
        ensures kernel { result.kernel ≡ kernel }
        ensures row { result.row ≡ row }
    {
        Simulated {
            row,
            kernel,
            sealed: (),
        }
    }
}

/// What is told of the first such row, by these circuits, with watchers of their own.
pub(crate) fn simulated_by<B: Circuits>(
    alloc: Global,
    bench: &Bench<'_>,
    rows: &[Row],
    every: u32,
    circuits: &mut B,
) -> Result<Simulated, NoRoom>
    requires every { 0 < every }
    requires points { ArePointsFor bench.now.net.now bench.now.points.now }
    requires made { IsLoadedFor bench.now.net.now bench.now.order.now (B.loaded circuits.old) }
    requires sound { B.IsSound circuits.old }
    ensures found { (p : Analysis) → IsOfPlan p bench.now.net.now bench.now.work.now bench.now.points.now bench.now.ftti bench.now.faults.now
        → IfOk result (λ simulated. simulated.row ≡ first_false p every rows.now) }
    ensures kernel { IfOk result (λ simulated. simulated.kernel ≡ B.kernel) }
{
    let mut watchers = watchers_for(alloc, bench, B::words())?;
    let row = first_in(bench, rows, every, circuits, &mut watchers);
    Ok(Simulated::by(B::kernel(), row))
}
