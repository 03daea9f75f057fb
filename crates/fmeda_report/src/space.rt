// The memory that a report takes.
ghost use Rattle.std.specs.Prelude.{◌≡◌, IfOk};
ghost use Rattle.campaign_plan.specs.Analysis.{part_count};
ghost use Rattle.fmeda_report.specs.Rooms.{room_for};

use crate::tally::Tally;
use campaign_plan::{Outcome, Plan};
use room::{NoRoom, filled};
use std::alloc::Global;
use std::marker::Model;

/// Room for a tally of each part of one plan: what its report takes. Contracts see how many parts it is for; what stands in it
/// doesn't matter between two reports.
#[derive(Drop)]
pub struct Tallies {
    pub(crate) parts: Vec<Tally>,
}

impl Model for Tallies {
    ghost use Rattle.std.specs.Prelude.{ℕ, vec_len};

    ghost Value = { ℕ };

    ghost view = { λ t. vec_len t.parts };
}

impl Tallies {
    /// Room for the report of this plan: all memory that it takes.
    pub fn new(alloc: Global, plan: &Plan) -> Result<Tallies, NoRoom>
        ensures { IfOk result (λ tallies. tallies ≡ part_count plan.now) }
    {
        Ok(Tallies {
            parts: filled(alloc, Tally::none(), plan.parts() as usize)?,
        })
    }
}

/// Room for the reports of one plan's rows: the planes of each batch by its number, and a tally for each part. Contracts see
/// how many places it has; what stands in them doesn't matter between two reports.
#[derive(Drop)]
pub struct ReportSpace {
    pub(crate) planes: Vec<Outcome>,
    pub(crate) tallies: Tallies,
}

impl Model for ReportSpace {
    ghost use Rattle.std.specs.Prelude.{vec_len};
    ghost use Rattle.fmeda_report.specs.Rooms.{Room};

    ghost Value = { Room };

    ghost view = { λ s. record { batches = vec_len s.planes; parts = s.tallies } };
}

impl ReportSpace {
    /// Room for the reports of this plan's rows: all memory that they take.
    pub fn new(alloc: Global, plan: &Plan) -> Result<ReportSpace, NoRoom>
        ensures { IfOk result (λ space. space ≡ room_for plan.now) }
    {
        let none = Outcome {
            danger: 0,
            noticed: 0,
        };
        Ok(ReportSpace {
            planes: filled(alloc, none, plan.batches() as usize)?,
            tallies: Tallies::new(alloc, plan)?,
        })
    }
}
