ghost use Rattle.std.specs.Prelude.{ℕ, ◌≡◌, ◌≢◌, ◌<◌, ◌≤◌, IfOk, IfErr, length};
ghost use Rattle.circuit.specs.Order.{IsOrder};
ghost use Rattle.campaign_plan.specs.Analysis.{batch_count};
ghost use Rattle.campaign_board.specs.Kept.{IsStart, AreKeptBytes};
ghost use Rattle.campaign_workers.specs.Truth.{HasTrueEntries, TakesAll};
ghost use Rattle.fmeda_report.specs.Rooms.{room_for};
ghost use Rattle.campaign_run.specs.Origins.{origin_of};
ghost use Rattle.campaign_run.specs.Starting.{StartsFrom};
ghost use Rattle.campaign_run.specs.Steps.{IsNewBoard, HasWorked};
ghost use Rattle.campaign_run.specs.Ran.{HasRun};
ghost use Rattle.room.specs.declared.edge.NoRoom.{NoRoom};

use crate::campaign::Campaign;
use crate::run::{End, Ran};
use crate::tell::tell;
use campaign_board::{Board, NoBoard, Origin};
use campaign_plan::Plan;
use campaign_workers::{Crew, NoCrew, campaign};
use claim_counter::Turn;
use fm_base::Line;
use fm_shelf::shelf::{Shelf, Sink};
use fmeda_report::ReportSpace;
use netlist_levels::Order;
use result_file::{KeptRows, RowList};
use std::alloc::Global;
use std::thread::Threads;
use worker_gate::Gate;

// All the memory of a campaign.
#[derive(Drop)]
struct Prepared<'a, F: Shelf + Drop, N: Origin> {
    space: ReportSpace,
    crew: Crew<'a, F, N>,
}

// Takes all the memory of a campaign, and changes no file.
fn prepare<'a, F: Shelf + Drop, N: Origin>(
    alloc: Global,
    plan: &'a Plan,
    order: &'a Order,
    batches: u32,
    rows: RowList,
    workers: u32,
    shelf: F,
    name: &str,
) -> Result<Prepared<'a, F, N>, NoBoard<F>>
    requires workers { (0 < workers) × (workers ≤ 32) }
    requires order { IsOrder plan.now.circuit order.now }
    requires batches { batches ≡ batch_count plan.now }
    requires start { IsStart N.start name.now rows batches (F.seen shelf) }
    ensures space { IfOk result (λ r. r.space ≡ room_for plan.now) }
    ensures crew { IfOk result (λ r. r.crew.workshop ≡ plan.now) }
    ensures board { IfOk result (λ r. IsNewBoard N.start shelf r.crew.board) }
    ensures err { IfErr result (λ e. e.shelf ≡ shelf) }
{
    let space = match ReportSpace::new(alloc, plan) {
        Ok(space) => space,
        Err(no_room) => return Err(NoBoard { shelf, no_room }),
    };
    let board = Board::new(alloc, shelf, name, batches, rows)?;
    match Crew::new(alloc, plan, order, board, workers) {
        Ok(crew) => Ok(Prepared { space, crew }),
        Err(NoCrew { board, no_room }) => Err(NoBoard {
            shelf: board.into_shelf(),
            no_room,
        }),
    }
}

// Writes the header, and lets the workers work to their end.
fn worked<
    R: Threads + Sync,
    F: Shelf + Send + Drop,
    N: Origin + Send + Sync,
    G: Gate + Sync,
    T: Turn + Sync,
>(
    rt: &R,
    turn: &T,
    plan: &Plan,
    own: &Line,
    whole: u64,
    mut crew: Crew<'_, F, N>,
    workers: u32,
    gate: &G,
) -> Board<F, N>
    requires turn { workers ≢ 1 → (share : ℕ) → T.admits share }
    requires made { crew.workshop ≡ plan.now }
    requires fresh { IsNewBoard N.start crew.board.shelf crew.board }
    requires own { own.now ≡ N.start.header }
    requires whole { (whole ≡ N.start.whole) × AreKeptBytes N.start crew.board.rows whole ((F.seen crew.board.shelf).content N.start.name) }
    requires entries { HasTrueEntries plan.now N.start }
    requires takes { TakesAll N.start }
    ensures { HasWorked N.start whole (F.seen crew.entry.board.shelf) (F.seen result.shelf) result }
{
    if crew.board().append_header(whole, own).is_err() {
        return crew.into_board();
    }
    campaign(rt, turn, plan, crew, workers, gate).board
}

/// The campaign, over the origin of its board.
pub(crate) fn run_over<
    R: Threads + Sync,
    F: Shelf + Send + Drop,
    N: Origin + Send + Sync,
    O: Sink,
    G: Gate + Sync,
    T: Turn + Sync,
>(
    rt: &R,
    turn: &T,
    alloc: Global,
    campaign: Campaign<'_>,
    workers: u32,
    shelf: F,
    out: &mut O,
    gate: &G,
) -> Ran<F>
    requires turn { workers ≢ 1 → (share : ℕ) → T.admits share }
    requires workers { (0 < workers) × (workers ≤ 32) }
    requires kept { StartsFrom campaign.own campaign.p ((F.seen shelf).content campaign.name) campaign.k }
    requires origin { N.start ≡ origin_of campaign (F.seen shelf) }
    ensures run { HasRun result.end campaign.entry (record { shelf = F.seen shelf; out = O.seen out.old }) (record { shelf = F.seen result.shelf; out = O.seen out.new }) }
    ensures untouched { (no_room : NoRoom) → result.end ≡ End.NoMemory no_room → (result.shelf ≡ shelf) × (out.new ≡ out.old) }
{
    let Campaign {
        plan,
        order,
        name,
        own,
        kept: KeptRows { rows, whole },
        text,
    } = campaign;
    let batches = plan.batches();
    let prepared = prepare::<F, N>(alloc, plan, order, batches, rows, workers, shelf, name);
    let Prepared { mut space, crew } = match prepared {
        Ok(prepared) => prepared,
        Err(NoBoard { shelf, no_room }) => {
            return Ran {
                shelf,
                end: End::NoMemory(no_room),
            };
        }
    };
    let board = worked(rt, turn, plan, own, whole, crew, workers, gate);
    tell(plan, text, board, &mut space, out)
}
