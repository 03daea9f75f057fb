ghost use Rattle.std.specs.Prelude.{ℕ, ◌≡◌, ◌≢◌, ◌<◌, ◌≤◌};
ghost use Rattle.campaign_run.specs.Starting.{StartsFrom};
ghost use Rattle.campaign_run.specs.Ran.{HasRun};

use crate::campaign::Campaign;
use crate::over::run_over;
use claim_counter::Turn;
use fm_shelf::shelf::{Shelf, Sink};
use room::NoRoom;
use std::alloc::Global;
use std::marker::Brand;
use std::thread::Threads;
use worker_gate::Gate;

/// What a campaign writes to `out` at its end.
#[derive(Clone, Copy, Debug, PartialEq, Eq)]
pub enum Text {
    /// The report.
    Report,
    /// The summary of the generated campaign with this number of stages.
    Summary(u32),
}

/// How a campaign ended.
#[derive(Clone, Copy, Debug, PartialEq, Eq)]
pub enum End {
    /// Each batch has its row in the result file, and the text was written.
    Done,
    /// There was no memory. All of it is taken before the result file is first changed.
    NoMemory(NoRoom),
    /// The result file couldn't be cut, or a line couldn't be appended to it.
    ResultFault,
    /// Each batch has its row in the result file, and the text couldn't be written whole.
    OutFault,
}

/// What a campaign leaves: the shelf that it was given, and how it ended.
#[derive(Drop)]
pub struct Ran<F: Shelf + Drop> {
    pub shelf: F,
    pub end: End,
}

/// Runs a campaign by a crew of so many workers: keeps what is kept of its result file, appends a row for each batch that is missing,
/// and writes the text. Several workers have a thread each, and come to the turn as `turn` says; one alone works in this thread, and waits
/// for nobody.
pub fn run_campaign<
    R: Threads + Sync,
    F: Shelf + Send + Drop,
    O: Sink,
    G: Gate + Sync,
    T: Turn + Sync,
>(
    rt: &R,
    turn: &T,
    alloc: Global,
    campaign: Campaign<'_>,
    workers: u32,
    shelf: F,
    out: &mut O,
    gate: &G,
) -> Ran<F>
    requires turn { workers ≢ 1 → (share : ℕ) → T.admits share }
    requires workers { (0 < workers) × (workers ≤ 32) }
    requires kept { StartsFrom campaign.own campaign.p ((F.seen shelf).content campaign.name) campaign.k }
    ensures run { HasRun result.end campaign.entry (record { shelf = F.seen shelf; out = O.seen out.old }) (record { shelf = F.seen result.shelf; out = O.seen out.new }) }
    ensures untouched { (no_room : NoRoom) → result.end ≡ End.NoMemory no_room → (result.shelf ≡ shelf) × (out.new ≡ out.old) }
{
    run_over::<R, F, Brand, O, G, T>(rt, turn, alloc, campaign, workers, shelf, out, gate)
}
