// A part of a campaign, over the origin of its board.
ghost use Rattle.std.specs.Prelude.{◌≡◌, ◌<◌, ◌≤◌, [], IfOk, IfErr, length};
ghost use Rattle.circuit.specs.Order.{IsOrder};
ghost use Rattle.campaign_plan.specs.Analysis.{batch_count};
ghost use Rattle.campaign_board.specs.Boards.{batches_of, sums_over};
ghost use Rattle.campaign_board.specs.Kept.{IsBoard, IsStart};
ghost use Rattle.campaign_board.specs.Missing.{batches_missing};
ghost use Rattle.campaign_workers.specs.Truth.{HasTrueEntries};
ghost use Rattle.campaign_run.specs.Steps.{IsNewBoard, TellsEnd};
ghost use Rattle.classifier.specs.Simulated.{simulated_of};
ghost use Rattle.refusals.specs.Texts.{shard_line};
ghost use Rattle.result_merge.specs.Parts.{is_of_part};
ghost use Rattle.campaign_shard.specs.RanPart.{HasRunPart};
ghost use Rattle.campaign_shard.specs.PartSteps.{part_origin, HasPartWorked, IsOpening};

use crate::part::{PartCampaign, Shard};
use crate::seat::work_part;
use campaign_board::{BatchList, Board, NoBoard, Origin, Seat, Shared, missing_batches};
use campaign_plan::Plan;
use campaign_run::{End, Ran};
use classifier::BatchSimulator;
use fm_base::{Line, Seq};
use fm_shelf::shelf::{Failed, Shelf, Sink};
use netlist_levels::Order;
use refusals::share_text::write_shard;
use room::NoRoom;
use std::alloc::Global;

// All that a part needs but its board: what simulates its batches, the shared table, and the one seat at it.
#[derive(Drop)]
struct Workplace<'a, F: Shelf + Drop, N: Origin> {
    simulator: BatchSimulator<'a>,
    shared: Shared<F, N>,
    seat: Seat<F, N>,
}

// All the memory of a part.
#[derive(Drop)]
struct Prepared<'a, F: Shelf + Drop, N: Origin> {
    board: Board<F, N>,
    place: Workplace<'a, F, N>,
}

// The batches that the rows of a board lack.
fn batches_to_do<F: Shelf + Drop, N: Origin>(
    alloc: Global,
    plan: &Plan,
    board: &Board<F, N>,
) -> Result<BatchList, NoRoom>
    requires entries { length N.start.entries ≡ batch_count plan.now }
    requires rows { board.now.rows ≡ N.start.rows }
    ensures { IfOk result (λ todo. todo ≡ batches_missing N.start) }
{
    missing_batches(alloc, plan.batches(), board.rows())
}

// Takes the memory of all but the board.
fn make_workplace<'a, F: Shelf + Drop, N: Origin>(
    alloc: Global,
    plan: &'a Plan,
    order: &'a Order,
    parts: u32,
    board: &Board<F, N>,
) -> Result<Workplace<'a, F, N>, NoRoom>
    requires order { IsOrder plan.now.circuit order.now }
    requires entries { length N.start.entries ≡ batch_count plan.now }
    requires rows { board.now.rows ≡ N.start.rows }
    ensures simulator { IfOk result (λ w. w.simulator ≡ simulated_of plan.now) }
    ensures seat { IfOk result (λ w. IsOpening w.shared w.seat) }
{
    let todo = batches_to_do(alloc, plan, board)?;
    let simulator = BatchSimulator::of_plan(alloc, plan, order, parts)?;
    match Shared::table(alloc, board, todo) {
        Ok((shared, seat)) => Ok(Workplace {
            simulator,
            shared,
            seat,
        }),
        Err(error) => {
            drop(simulator);
            Err(error)
        }
    }
}

// Takes all the memory of a part, and changes no file.
fn prepare<'a, F: Shelf + Drop, N: Origin>(
    alloc: Global,
    plan: &'a Plan,
    order: &'a Order,
    parts: u32,
    batches: u32,
    shelf: F,
    name: &str,
) -> Result<Prepared<'a, F, N>, NoBoard<F>>
    requires order { IsOrder plan.now.circuit order.now }
    requires batches { batches ≡ batch_count plan.now }
    requires start { IsStart N.start name.now [] batches (F.seen shelf) }
    ensures board { IfOk result (λ r. IsNewBoard N.start shelf r.board) }
    ensures simulator { IfOk result (λ r. r.place.simulator ≡ simulated_of plan.now) }
    ensures seat { IfOk result (λ r. IsOpening r.place.shared r.place.seat) }
    ensures err { IfErr result (λ e. e.shelf ≡ shelf) }
{
    let board = Board::new(alloc, shelf, name, batches, Seq::new(alloc))?;
    match make_workplace(alloc, plan, order, parts, &board) {
        Ok(place) => Ok(Prepared { board, place }),
        Err(no_room) => Err(NoBoard {
            shelf: board.into_shelf(),
            no_room,
        }),
    }
}

// Writes the header, and works to the end of the part.
fn worked<F: Shelf + Drop, N: Origin>(
    plan: &Plan,
    own: &Line,
    shard: Shard,
    prepared: Prepared<'_, F, N>,
) -> Board<F, N>
    requires parts { 0 < shard.parts }
    requires own { (own.now ≡ N.start.header) × (N.start.whole ≡ 0) }
    requires fresh { IsNewBoard N.start prepared.board.shelf prepared.board × (N.start.rows ≡ []) }
    requires simulator { prepared.place.simulator ≡ simulated_of plan.now }
    requires seat { IsOpening prepared.place.shared prepared.place.seat }
    requires entries { HasTrueEntries plan.now N.start × (length N.start.entries ≡ batch_count plan.now) }
    requires takes { N.start.takes ≡ is_of_part shard.part shard.parts }
    ensures { HasPartWorked N.start shard.part shard.parts (F.seen prepared.entry.board.shelf) (F.seen result.shelf) result }
{
    let Prepared { mut board, place } = prepared;
    if board.append_header(0, own).is_err() {
        drop(place);
        return board;
    }
    let Workplace {
        mut simulator,
        shared,
        mut seat,
    } = place;
    shared.put(&mut seat, board);
    let Shard { part, parts } = shard;
    work_part(plan, &mut simulator, &shared, &mut seat, part, parts);
    drop(simulator);
    shared.close(seat)
}

// Ends a part: writes its line, unless the board has failed.
fn tell<F: Shelf + Drop, N: Origin, O: Sink>(
    shard: Shard,
    board: Board<F, N>,
    out: &mut O,
) -> Ran<F>
    ensures told { TellsEnd result.end board.failed (shard_line shard.part shard.parts (length board.rows)) (O.seen out.old) (O.seen out.new) }
    ensures grows { (O.seen out.old).faults ≤ (O.seen out.new).faults }
    ensures shelf { result.shelf ≡ board.shelf }
    ensures kept { IsBoard N.start board.rows (sums_over N.start.entries (batches_of board.rows)) board.failed board.written (F.seen result.shelf) }
{
    if board.failed() {
        return Ran {
            shelf: board.into_shelf(),
            end: End::ResultFault,
        };
    }
    let rows = board.rows().len() as u32;
    let end = match write_shard(shard.part, shard.parts, rows, out) {
        Ok(()) => End::Done,
        Err(Failed) => End::OutFault,
    };
    Ran {
        shelf: board.into_shelf(),
        end,
    }
}

/// The part, over the origin of its board.
pub(crate) fn run_over<F: Shelf + Drop, N: Origin, O: Sink>(
    alloc: Global,
    campaign: PartCampaign<'_>,
    shelf: F,
    out: &mut O,
) -> Ran<F>
    requires origin { N.start ≡ part_origin campaign.name campaign.own campaign.p campaign.part campaign.parts (F.seen shelf) }
    ensures run { HasRunPart result.end campaign.entry (record { shelf = F.seen shelf; out = O.seen out.old }) (record { shelf = F.seen result.shelf; out = O.seen out.new }) }
    ensures untouched { (no_room : NoRoom) → result.end ≡ End.NoMemory no_room → (result.shelf ≡ shelf) × (out.new ≡ out.old) }
{
    let PartCampaign {
        plan,
        order,
        name,
        own,
        shard,
    } = campaign;
    let batches = plan.batches();
    match prepare::<F, N>(alloc, plan, order, shard.parts, batches, shelf, name) {
        Ok(prepared) => {
            let board = worked(plan, own, shard, prepared);
            tell(shard, board, out)
        }
        Err(NoBoard { shelf, no_room }) => Ran {
            shelf,
            end: End::NoMemory(no_room),
        },
    }
}
