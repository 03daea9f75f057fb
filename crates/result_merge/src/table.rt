// Planes by batch.
ghost use Rattle.std.specs.Prelude.{◌≡◌, ◌<◌, IfOk, length, map, is_some};
ghost use Rattle.std.specs.List.{list_all};
ghost use Rattle.campaign_plan.specs.Analysis.{batch_count};
ghost use Rattle.campaign_plan.specs.Batches.{AreDistinct};
ghost use Rattle.result_file.specs.KeptRows.{entry_of};
ghost use Rattle.result_merge.specs.Tables.{at_batch, planes_at, planes_table};

use campaign_plan::{Outcome, Plan};
use result_file::Row;
use room::{NoRoom, filled};
use std::alloc::Global;
use std::marker::Model;

/// The planes that rows give the batches of a plan, by the batch's number. A batch without a row has none.
#[derive(Drop)]
pub struct PlanesTable {
    planes: Vec<Option<Outcome>>,
}

impl Model for PlanesTable {
    ghost use Rattle.result_merge.specs.Tables.{Table};

    ghost Value = { Table };

    ghost view = { λ t. t.planes.items };
}

impl PlanesTable {
    /// The table of these rows, each of another batch, in the time of the rows and of the plan's batches.
    pub fn new(alloc: Global, plan: &Plan, rows: &[Row]) -> Result<PlanesTable, NoRoom>
        requires { AreDistinct plan.now (map entry_of rows.now) }
        ensures { IfOk result (λ table. table ≡ planes_table (batch_count plan.now) (map entry_of rows.now)) }
    {
        let mut planes = filled(alloc, None, plan.batches() as usize)?;
        for row in rows {
            planes[row.batch as usize] = Some(Outcome {
                danger: row.danger,
                noticed: row.noticed,
            });
        }
        Ok(PlanesTable { planes })
    }

    /// The planes of a batch, if it has a row.
    pub fn get(&self, batch: u32) -> Option<Outcome>
        requires { batch < length self.now }
        ensures { result ≡ at_batch self.now batch }
    {
        self.planes[batch as usize]
    }

    /// The planes of a batch, which are 0 where it has no row.
    pub fn planes(&self, batch: u32) -> Outcome
        requires { batch < length self.now }
        ensures { result ≡ planes_at self.now batch }
    {
        self.get(batch).unwrap_or(Outcome {
            danger: 0,
            noticed: 0,
        })
    }

    /// Whether each batch has a row.
    pub fn is_whole(&self) -> bool
        ensures { result ≡ list_all is_some self.now }
    {
        self.planes.iter().all(|planes| planes.is_some())
    }
}
