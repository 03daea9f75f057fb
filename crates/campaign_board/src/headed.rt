ghost use Rattle.std.specs.Prelude.{◌≡◌, length, true};
ghost use mathlib.Core.List.{IsPrefix};
ghost use Rattle.campaign_core.specs.Machines.{times};
ghost use Rattle.campaign_board.specs.Boards.{board_entry, sums_over};
ghost use Rattle.campaign_board.specs.Kept.{AreRows};
ghost use Rattle.campaign_board.specs.Missing.{IsMissing, claim_number, numbers_of, batches_with};
ghost use Rattle.campaign_board.specs.Headed.{Adds};

use crate::board::{Board, Origin};
use crate::entry::{Entry, Look, Posted};
use claim_counter::Kept;
use fm_shelf::shelf::Shelf;
use std::marker::Model;

/// A board whose header was written: the value behind the turn of a `Shared`. Its list has a number for each row after those
/// at the start.
#[derive(Drop)]
pub struct Headed<F: Shelf + Drop, N: Origin> {
    board: Board<F, N>,
    started: usize,
}

impl<F: Shelf + Drop, N: Origin> Model for Headed<F, N> {
    ghost use Rattle.campaign_board.specs.Kept.{BoardState};
    ghost use Rattle.campaign_board.specs.Headed.{IsHeaded};

    ghost Value = { BoardState F };

    ghost view = { λ h. h.board };

    ghost invariant = { λ h. IsHeaded N.start h.board h.started };
}

impl<F: Shelf + Drop, N: Origin> Kept for Headed<F, N> {
    ghost list = { λ h. numbers_of N.start h.rows };

    ghost is_failed = { λ h. h.failed };

    fn count(&self) -> u64 {
        (self.board.rows().len() - self.started) as u64
    }

    fn failed(&self) -> bool {
        self.board.failed()
    }
}

impl<F: Shelf + Drop, N: Origin> Headed<F, N> {
    // A board to which no row was added since it was made, with this many rows
    pub(crate) fn new(board: Board<F, N>, started: usize) -> Self
        requires written { board.written ≡ true }
        requires rows { board.rows ≡ N.start.rows }
        requires started { started ≡ length N.start.rows }
        ensures { result ≡ board }
    {
        let _ = board.rows();
        Headed { board, started }
    }

    // Adds the row of a batch that has none yet
    pub(crate) fn add(&mut self, entry: &Entry) -> Posted
        requires due { IsMissing N.start entry.now.batch }
        requires new { times (claim_number N.start entry.now.batch) (numbers_of N.start self.old.rows) ≡ 0 }
        requires own { N.start.takes entry.now.batch ≡ true }
        requires entry { entry.now ≡ board_entry N.start.entries entry.now.batch }
        ensures { Adds N.start self.old self.new entry.now.batch result }
    {
        self.board.add(entry)
    }

    pub(crate) fn look(&self) -> Look
        ensures sums { result.sums ≡ sums_over N.start.entries (batches_with N.start (numbers_of N.start self.now.rows)) }
        ensures count { result.count ≡ length (numbers_of N.start self.now.rows) }
        ensures stopped { result.stopped ≡ self.now.failed }
    {
        Look {
            sums: self.board.sums(),
            count: (self.board.rows().len() - self.started) as u32,
            stopped: self.board.failed(),
        }
    }

    pub(crate) fn into_board(self) -> Board<F, N>
        ensures board { result ≡ self }
        ensures written { result.written ≡ true }
        ensures starts { IsPrefix N.start.rows result.rows }
        ensures rows { AreRows N.start result.rows }
    {
        let Headed { board, started: _ } = self;
        board
    }
}
