ghost use Rattle.std.specs.Prelude.{◌≡◌, ◌≤◌, false, length};
ghost use Rattle.fm_shelf.specs.Sink.{Sends};
ghost use Rattle.campaign_plan.specs.Analysis.{batch_count};
ghost use Rattle.campaign_board.specs.Boards.{batches_of, sums_over};
ghost use Rattle.campaign_board.specs.Kept.{IsBoard};
ghost use Rattle.fmeda_report.specs.Rooms.{room_for};
ghost use Rattle.result_file.specs.RowPlanes.{HoldEachOnce, planes_in};
ghost use Rattle.campaign_run.specs.Ran.{text_for};
ghost use Rattle.campaign_run.specs.Steps.{HaveAll, TellsEnd};

use crate::run::{End, Ran, Text};
use campaign_board::{Board, Origin};
use campaign_plan::Plan;
use fm_shelf::shelf::{Failed, Shelf, Sink};
use fmeda_report::{ReportSpace, write_report_of_rows, write_summary};
use result_file::Row;

// Writes the text for the planes that these rows give.
fn write_text<O: Sink>(
    plan: &Plan,
    text: Text,
    rows: &[Row],
    space: &mut ReportSpace,
    out: &mut O,
) -> Result<(), Failed>
    requires space { space.old ≡ room_for plan.now }
    requires rows { HoldEachOnce plan.now rows.now }
    ensures { Sends (O.seen out.old) (O.seen out.new) (text_for text plan.now (planes_in rows.now)) result }
{
    match text {
        Text::Report => write_report_of_rows(plan, rows, space, out),
        Text::Summary(stages) => write_summary(stages, plan, rows, space, out),
    }
}

/// Ends a campaign: writes the text, unless the board has failed.
pub(crate) fn tell<F: Shelf + Drop, N: Origin, O: Sink>(
    plan: &Plan,
    text: Text,
    board: Board<F, N>,
    space: &mut ReportSpace,
    out: &mut O,
) -> Ran<F>
    requires space { space.old ≡ room_for plan.now }
    requires entries { length N.start.entries ≡ batch_count plan.now }
    requires rows { board.failed ≡ false → HaveAll N.start board.rows }
    ensures told { TellsEnd result.end board.failed (text_for text plan.now (planes_in board.rows)) (O.seen out.old) (O.seen out.new) }
    ensures grows { (O.seen out.old).faults ≤ (O.seen out.new).faults }
    ensures shelf { result.shelf ≡ board.shelf }
    ensures kept { IsBoard N.start board.rows (sums_over N.start.entries (batches_of board.rows)) board.failed board.written (F.seen result.shelf) }
{
    if board.failed() {
        return Ran {
            shelf: board.into_shelf(),
            end: End::ResultFault,
        };
    }
    let end = match write_text(plan, text, board.rows(), space, out) {
        Ok(()) => End::Done,
        Err(Failed) => End::OutFault,
    };
    Ran {
        shelf: board.into_shelf(),
        end,
    }
}
