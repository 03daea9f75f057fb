ghost use Rattle.std.specs.Prelude.{◌≡◌, ◌≤◌, ◌^◌, [], true, false, length, IfSome, IfNone, IfOk, IfErr};
ghost use Rattle.claim_counter.specs.Views.{starting_view, with_none, less_one, with_one, joined_views, giving};
ghost use Rattle.claim_counter.specs.Seats.{IsOf};
ghost use Rattle.campaign_board.specs.Boards.{board_entry};
ghost use Rattle.campaign_board.specs.Missing.{batches_missing, IsMissing, claim_number};
ghost use Rattle.campaign_board.specs.Sharing.{IsDrawn, MayPost, TellsSeat, IsLook, IsClosed};

use crate::board::{Board, Origin};
use crate::entry::{Entry, Look, Posted};
use crate::headed::Headed;
use crate::missing::BatchList;
use claim_counter::{Claims, Turn};
use fm_shelf::shelf::Shelf;
use room::NoRoom;
use std::alloc::Global;
use std::marker::Model;

/// A thread's part in a `Shared`.
pub type Seat<F, N> = claim_counter::Seat<Headed<F, N>>;

/// A board behind a turn, and the batches to do, from which each is drawn once. Threads share it by reference. Contracts see its
/// table, and how many batches there are to do.
#[derive(Drop)]
pub struct Shared<F: Shelf + Drop, N: Origin> {
    claims: Claims<Headed<F, N>>,
    todo: BatchList,
    started: usize,
}

impl<F: Shelf + Drop, N: Origin> Model for Shared<F, N> {
    ghost use Rattle.std.specs.Prelude.{◌≡◌, length};
    ghost use Rattle.claim_counter.specs.Seats.{Counter};
    ghost use Rattle.campaign_board.specs.Missing.{batches_missing};

    ghost Value = { Counter };

    ghost view = { λ s. s.claims };

    ghost invariant = { λ s. (s.todo ≡ batches_missing N.start) × (s.claims.todo ≡ length (batches_missing N.start)) × (s.started ≡ length N.start.rows) };
}

/// There was no memory for a table.
#[derive(Drop)]
pub struct NoShared<F: Shelf + Drop, N: Origin> {
    pub board: Board<F, N>,
}

impl<F: Shelf + Drop, N: Origin> Shared<F, N> {
    /// A table for the origin of this board, with nothing behind the turn yet: the seat holds it, and `put` brings the board.
    /// So all memory can be taken before the file is first written.
    pub fn table(
        alloc: Global,
        board: &Board<F, N>,
        todo: BatchList,
    ) -> Result<(Self, Seat<F, N>), NoRoom>
        requires rows { board.now.rows ≡ N.start.rows }
        requires todo { todo ≡ batches_missing N.start }
        ensures { IfOk result (λ r. (r.0.todo ≡ length (batches_missing N.start)) × (r.1.table ≡ r.0.table) × (r.1.view ≡ starting_view r.0.todo)) }
    {
        let started = board.rows().len();
        let (claims, seat) = Claims::new(alloc, todo.len() as u64)?;
        let shared = Shared {
            claims,
            todo,
            started,
        };
        Ok((shared, seat))
    }

    /// The board goes behind the turn, which the seat gives back. Nothing was posted yet, and no row was added to the board since it
    /// was made.
    pub fn put(&self, seat: &mut Seat<F, N>, board: Board<F, N>)
        requires table { IsOf self.now seat.old }
        requires held { (seat.old.view.holds ≡ true) × (seat.old.view.fails ≡ false) }
        requires first { seat.old.view.seen ≡ [] }
        requires written { board.written ≡ true }
        requires rows { board.rows ≡ N.start.rows }
        ensures { (seat.new.table ≡ seat.old.table) × (seat.new.view ≡ giving seat.old.view board.failed) }
    {
        self.claims.give(seat, Headed::new(board, self.started));
    }

    /// A table with the board behind its turn, which is free. For want of memory the board comes back.
    pub fn new(
        alloc: Global,
        board: Board<F, N>,
        todo: BatchList,
    ) -> Result<(Self, Seat<F, N>), NoShared<F, N>>
        requires written { board.written ≡ true }
        requires rows { board.rows ≡ N.start.rows }
        requires todo { todo ≡ batches_missing N.start }
        ensures ok { IfOk result (λ r. (r.0.todo ≡ length (batches_missing N.start)) × (r.1.table ≡ r.0.table) × (r.1.view ≡ giving (starting_view r.0.todo) board.failed)) }
        ensures err { IfErr result (λ e. e.board ≡ board) }
    {
        let Ok((shared, mut seat)) = Shared::table(alloc, &board, todo) else {
            return Err(NoShared { board });
        };
        shared.put(&mut seat, board);
        Ok((shared, seat))
    }

    /// A new seat of the same table, which has seen as much and done nothing. It takes one share of the seat, so a seat with one share doesn't split.
    pub fn split(&self, seat: &mut Seat<F, N>) -> Seat<F, N>
        requires table { IsOf self.now seat.old }
        requires shares { (2 ≤ seat.old.view.share) × (seat.old.view.nones ≡ 0) }
        ensures seat { (seat.new.table ≡ seat.old.table) × (seat.new.view ≡ less_one seat.old.view) }
        ensures new { (result.table ≡ seat.old.table) × (result.view ≡ with_one seat.old.view) }
    {
        self.claims.split(seat)
    }

    /// Lets the other seat go. What it did and knows counts as the seat's from now on.
    pub fn join(&self, seat: &mut Seat<F, N>, other: Seat<F, N>)
        requires table { IsOf self.now seat.old × IsOf self.now other }
        requires free { other.view.holds ≡ false }
        ensures { (seat.new.table ≡ seat.old.table) × (seat.new.view ≡ joined_views seat.old.view other.view) }
    {
        self.claims.join(seat, other);
    }

    /// Draws the next batch to do, without waiting. Nobody else draws it. None comes exactly where all had been drawn at this step.
    pub fn draw(&self, seat: &mut Seat<F, N>) -> Option<u32>
        requires table { IsOf self.now seat.old }
        requires first { seat.old.view.nones ≡ 0 }
        ensures table { seat.new.table ≡ seat.old.table }
        ensures some { IfSome result (IsDrawn N.start seat.old.view seat.new.view) }
        ensures none { IfNone result (seat.new.view ≡ with_none seat.old.view) }
    {
        let number = self.claims.draw(seat)?;
        Some(self.todo.as_slice()[number as usize])
    }

    // The number of a batch to do
    fn number(&self, batch: u32) -> u64
        requires { IsMissing N.start batch }
        ensures { result ≡ claim_number N.start batch }
    {
        let Ok(number) = self.todo.as_slice().binary_search(&batch) else {
            unreachable!()
        };
        number as u64
    }

    /// Takes the turn, and appends the row of a batch that the seat drew to the file and to the rows. Its planes and sums are
    /// those of the batch's entry in the origin. Stopped comes exactly where a cut or an append on this board has failed, now or
    /// before: then nothing is posted. The batch is one of which the board takes rows.
    pub fn post<T: Turn>(&self, turn: &T, seat: &mut Seat<F, N>, entry: &Entry) -> Posted
        requires table { IsOf self.now seat.old }
        requires free { seat.old.view.holds ≡ false }
        requires admitted { T.admits seat.old.view.share }
        requires drawn { MayPost N.start seat.old.view entry.now.batch }
        requires own { N.start.takes entry.now.batch ≡ true }
        requires entry { entry.now ≡ board_entry N.start.entries entry.now.batch }
        ensures table { seat.new.table ≡ seat.old.table }
        ensures posted { TellsSeat N.start seat.old.view seat.new.view entry.now.batch result }
    {
        let number = self.number(entry.batch);
        let mut board = turn.take(&self.claims, seat);
        match board.add(entry) {
            Posted::Kept(sums) => {
                self.claims.note(seat, number);
                self.claims.give(seat, board);
                Posted::Kept(sums)
            }
            Posted::Stopped => {
                self.claims.give(seat, board);
                Posted::Stopped
            }
        }
    }

    /// Takes the turn, and tells how far the campaign is.
    pub fn look<T: Turn>(&self, turn: &T, seat: &mut Seat<F, N>) -> Look
        requires table { IsOf self.now seat.old }
        requires free { seat.old.view.holds ≡ false }
        requires admitted { T.admits seat.old.view.share }
        ensures table { seat.new.table ≡ seat.old.table }
        ensures look { IsLook N.start seat.old.view seat.new.view result }
    {
        let board = turn.take(&self.claims, seat);
        let look = board.look();
        self.claims.give(seat, board);
        look
    }

    /// The board, once all other seats were joined into this one.
    pub fn close(self, seat: Seat<F, N>) -> Board<F, N>
        requires table { IsOf self seat }
        requires whole { seat.view.share ≡ 2 ^ 32 }
        requires free { seat.view.holds ≡ false }
        ensures written { result.written ≡ true }
        ensures closed { IsClosed N.start self.todo seat.view result.rows result.failed }
    {
        let Shared { claims, .. } = self;
        claims.close(seat).into_board()
    }
}
