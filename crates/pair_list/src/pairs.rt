// Pairs of a latent and a detected fault.
ghost use Rattle.std.specs.Prelude.{◌≡◌, ◌<◌, map};
ghost use Rattle.fm_base.specs.Answers.{Gives};
ghost use Rattle.campaign_plan.specs.Batches.{AreDistinct};
ghost use Rattle.result_file.specs.KeptRows.{entry_of};
ghost use Rattle.pair_list.specs.Chosen.{pair_count, pair_numbered, pairs_by_rows};

use crate::choice::faults_in_class;
use campaign_plan::Plan;
use fm_base::{Refusal, Seq};
use metric_sums::Class;
use result_file::Row;
use result_merge::PlanesTable;
use std::alloc::Global;
use std::marker::Model;

// The most pairs.
const MOST: usize = 1_048_576;

/// Why there are no pairs.
#[derive(Clone, Copy, Debug, PartialEq, Eq)]
pub enum PairRefusal {
    /// Some batch has no row: there are so many rows, of so many batches.
    Incomplete { have: u32, batches: u32 },
    /// There are more than 1,048,576 pairs.
    TooMany,
}

/// The pairs of each latent fault with each detected one, ordered by the latent fault and then by the detected one. There are at
/// most 1,048,576.
#[derive(Drop)]
pub struct Pairs {
    latent: Seq<u32>,
    detected: Seq<u32>,
}

impl Model for Pairs {
    ghost use Rattle.std.specs.Prelude.{◌≤◌, ◌^◌};
    ghost use Rattle.pair_list.specs.Chosen.{Chosen, pair_count};

    ghost Value = { Chosen };

    ghost view = { λ p. record { latent = p.latent; detected = p.detected } };

    ghost invariant = { λ p. pair_count (record { latent = p.latent; detected = p.detected }) ≤ 2 ^ 20 };
}

impl Pairs {
    /// The pairs of a plan by the planes of these rows, each of another batch. The list of pairs is never made: what is kept are
    /// the latent faults and the detected ones.
    pub fn new(alloc: Global, plan: &Plan, rows: &[Row]) -> Result<Pairs, Refusal<PairRefusal>>
        requires rows { AreDistinct plan.now (map entry_of rows.now) }
        ensures { Gives (pairs_by_rows plan.now rows.now) result }
    {
        let table = PlanesTable::new(alloc, plan, rows)?;
        let batches = plan.batches();
        if !table.is_whole() {
            return Err(Refusal::Fault(PairRefusal::Incomplete {
                have: rows.len() as u32,
                batches,
            }));
        }
        let latent = faults_in_class(alloc, plan, &table, Class::Latent)?;
        let detected = faults_in_class(alloc, plan, &table, Class::Detected)?;
        if latent.len() * detected.len() > MOST {
            return Err(Refusal::Fault(PairRefusal::TooMany));
        }
        Ok(Pairs { latent, detected })
    }

    /// The number of pairs.
    pub fn count(&self) -> u32
        ensures { result ≡ pair_count self.now }
    {
        (self.latent.len() * self.detected.len()) as u32
    }

    /// The latent fault of pair p.
    pub fn first(&self, p: u32) -> u32
        requires { p < pair_count self.now }
        ensures { result ≡ (pair_numbered self.now p).0 }
    {
        self.latent.as_slice()[p as usize / self.detected.len()]
    }

    /// The detected fault of pair p.
    pub fn second(&self, p: u32) -> u32
        requires { p < pair_count self.now }
        ensures { result ≡ (pair_numbered self.now p).1 }
    {
        self.detected.as_slice()[p as usize % self.detected.len()]
    }
}
