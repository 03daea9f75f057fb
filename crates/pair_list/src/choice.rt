// The faults of a class.
ghost use Rattle.std.specs.Prelude.{◌≡◌, ◌<◌, ◌≤◌, ◌^◌, IfOk, length};
ghost use Rattle.metric_sums.specs.Classes.{is_class};
ghost use Rattle.campaign_plan.specs.Analysis.{batch_count, fault_count};
ghost use Rattle.campaign_plan.specs.Batches.{class_of_fault as class_by_planes};
ghost use Rattle.result_merge.specs.Tables.{planes_at};
ghost use Rattle.pair_list.specs.Pairs.{faults_in_class};

use campaign_plan::{Plan, class_with, has_bit};
use fm_base::Seq;
use metric_sums::Class;
use result_merge::PlanesTable;
use room::NoRoom;
use std::alloc::Global;

// The number of lanes of a batch.
const LANES: u32 = 64;

// The class of fault `i`, read off the planes of its batch.
fn class_of_fault(plan: &Plan, table: &PlanesTable, i: u32) -> Class
    requires fault { i < fault_count plan.now }
    requires table { length table.now ≡ batch_count plan.now }
    ensures { result ≡ class_by_planes plan.now (planes_at table.now) i }
{
    let planes = table.planes(i / LANES);
    let dangerous = has_bit(planes.danger, i % LANES);
    class_with(plan, i, dangerous, has_bit(planes.noticed, i % LANES))
}

// Fault `i` is of this class.
fn is_in_class(plan: &Plan, table: &PlanesTable, i: u32, class: Class) -> bool
    requires fault { i < fault_count plan.now }
    requires table { length table.now ≡ batch_count plan.now }
    ensures { result ≡ is_class (class_by_planes plan.now (planes_at table.now) i) class }
{
    class_of_fault(plan, table, i) == class
}

/// The faults of a class, in list order, by the planes of a table.
pub(crate) fn faults_in_class(
    alloc: Global,
    plan: &Plan,
    table: &PlanesTable,
    class: Class,
) -> Result<Seq<u32>, NoRoom>
    requires { length table.now ≡ batch_count plan.now }
    ensures faults { IfOk result (λ faults. faults ≡ faults_in_class plan.now (planes_at table.now) class) }
    ensures few { IfOk result (λ faults. length faults ≤ 2 ^ 20) }
{
    let mut faults = Seq::new(alloc);
    for i in 0..plan.faults().len() {
        if is_in_class(plan, table, i, class) {
            faults.push(i)?;
        }
    }
    Ok(faults)
}
