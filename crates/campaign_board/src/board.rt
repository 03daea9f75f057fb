ghost use Rattle.std.specs.Prelude.{◌≡◌, ◌<◌, ◌≤◌, vec_capacity, ◌++◌, ◌∷◌, [], true, false, length, IfOk, IfErr, OnOk, OnErr};
ghost use Rattle.fm_shelf.specs.Past.{StopsOn};
ghost use Rattle.fm_shelf.specs.Shelf.{CountRose};
ghost use Rattle.fm_base.specs.Once.{Lacks};
ghost use Rattle.campaign_board.specs.Boards.{AreEntries, board_entry, batches_of, file_text, sums_over, next_row};
ghost use Rattle.campaign_board.specs.Kept.{AreRows, IsBoard, IsStart, AreKeptBytes, IsHeaderTorn};
ghost use Rattle.campaign_board.specs.Posts.{TellsPost, sums_at_end};

use crate::entry::{Entry, Posted};
use fm_base::Line;
use fm_shelf::shelf::{Failed, Shelf};
use fm_shelf::whole::append_all;
use metric_sums::Sums;
use result_file::{Row, RowList, row_line};
use room::{NoRoom, from_str, reserve};
use std::alloc::Global;
use std::marker::{Brand, Model, PhantomData};

/// What a board began with. It exists in contracts alone.
pub trait Origin {
    ghost use Rattle.campaign_board.specs.Boards.{Start};

    ghost start: { Start };
}

impl Origin for Brand {
    ghost use Rattle.std.specs.Prelude.{[], true};
    ghost use Rattle.fm_shelf.specs.Entries.{known_files};

    ghost start = { record { entries = []; takes = λ _. true; header = []; name = []; rows = []; whole = 0; shelf = known_files [] } };
}

/// Rows with their sums, over the entries of the origin, and the file that they are appended to. There is room for all rows.
#[derive(Drop)]
pub struct Board<F: Shelf + Drop, N: Origin> {
    shelf: F,
    name: String,
    rows: Vec<Row>,
    sums: Sums,
    failed: bool,
    written: bool,
    of: PhantomData<N>,
}

impl<F: Shelf + Drop, N: Origin> Model for Board<F, N> {
    ghost use Rattle.std.specs.Prelude.{◌≡◌, ◌≤◌, length, vec_capacity};
    ghost use Rattle.std.specs.String.{string_bytes};
    ghost use Rattle.campaign_board.specs.Kept.{AreRows, IsBoard, BoardState};

    ghost Value = { BoardState F };

    ghost view = { λ b. record { rows = b.rows.items; failed = b.failed; written = b.written; shelf = b.shelf } };

    ghost invariant = { λ b. IsBoard N.start b.rows.items b.sums b.failed b.written (F.seen b.shelf)
        × (string_bytes b.name ≡ N.start.name) × (length N.start.entries ≤ vec_capacity b.rows) };
}

/// There was no memory for a board.
#[derive(Drop)]
pub struct NoBoard<F: Shelf + Drop> {
    pub shelf: F,
    pub no_room: NoRoom,
}

impl<F: Shelf + Drop, N: Origin> Board<F, N> {
    /// A board with the rows of the origin. Its header isn't written yet.
    pub fn new(
        alloc: Global,
        shelf: F,
        name: &str,
        batches: u32,
        rows: RowList,
    ) -> Result<Self, NoBoard<F>>
        requires { IsStart N.start name.now rows batches (F.seen shelf) }
        ensures ok { IfOk result (λ b. (b.rows ≡ rows) × (b.failed ≡ false) × (b.written ≡ false) × (b.shelf ≡ shelf)) }
        ensures err { IfErr result (λ e. e.shelf ≡ shelf) }
    {
        let name = match from_str(alloc, name) {
            Ok(name) => name,
            Err(no_room) => return Err(NoBoard { shelf, no_room }),
        };
        let sums = last_sums(rows.as_slice());
        let rows = match with_room(rows, batches as usize) {
            Ok(rows) => rows,
            Err(no_room) => return Err(NoBoard { shelf, no_room }),
        };
        Ok(Board {
            shelf,
            name,
            rows,
            sums,
            failed: false,
            written: false,
            of: PhantomData,
        })
    }

    /// Cuts the file to its first bytes, and writes the header where none are kept.
    pub fn append_header(&mut self, whole: u64, own: &Line) -> Result<(), Failed>
        requires fresh { (self.old.written ≡ false) × (self.old.failed ≡ false) }
        requires own { own.now ≡ N.start.header }
        requires whole { (whole ≡ N.start.whole) × AreKeptBytes N.start self.old.rows whole ((F.seen self.old.shelf).content N.start.name) }
        ensures rows { self.new.rows ≡ self.old.rows }
        ensures ok { OnOk result ((self.new.written ≡ true) × (self.new.failed ≡ false)) }
        ensures failed { OnErr result ((self.new.failed ≡ true) × CountRose ((F.seen self.old.shelf).write_faults N.start.name) ((F.seen self.new.shelf).write_faults N.start.name)) }
        ensures torn { OnErr result (IsHeaderTorn N.start.header whole ((F.seen self.old.shelf).content N.start.name)
            ((F.seen self.new.shelf).content N.start.name)) }
        ensures stops { OnErr result (StopsOn N.start.whole (file_text N.start.header self.old.rows) (N.start.shelf.given N.start.name)
            (N.start.shelf.changed N.start.name) ((F.seen self.new.shelf).changed N.start.name)) }
    {
        if self.shelf.cut(self.name.as_str(), whole).is_err() {
            self.failed = true;
            return Err(Failed);
        }
        if whole == 0 {
            if append_all(&mut self.shelf, self.name.as_str(), own.bytes()).is_err() {
                self.failed = true;
                return Err(Failed);
            }
        }
        self.written = true;
        Ok(())
    }

    // Adds the row of a batch to the file and to the rows, or the board has failed and keeps its rows.
    pub(crate) fn add(&mut self, entry: &Entry) -> Posted
        requires written { self.old.written ≡ true }
        requires batch { (entry.now.batch < length N.start.entries) × Lacks (batches_of self.old.rows) entry.now.batch }
        requires own { N.start.takes entry.now.batch ≡ true }
        requires entry { entry.now ≡ board_entry N.start.entries entry.now.batch }
        ensures posted { TellsPost N.start.entries self.old self.new entry.now.batch result }
        ensures written { self.new.written ≡ true }
    {
        if self.failed {
            return Posted::Stopped;
        }
        let sums = self.sums.plus(&entry.own);
        let row = Row {
            batch: entry.batch,
            danger: entry.danger,
            noticed: entry.noticed,
            sums,
        };
        if append_all(&mut self.shelf, self.name.as_str(), row_line(&row).bytes()).is_err() {
            self.failed = true;
            return Posted::Stopped;
        }
        self.rows.push_reserved(row);
        self.sums = sums;
        Posted::Kept(sums)
    }

    pub fn rows(&self) -> &[Row]
        ensures rows { result.now ≡ self.now.rows }
        ensures kept { AreEntries N.start.entries × AreRows N.start self.now.rows }
    {
        self.rows.as_slice()
    }

    pub fn sums(&self) -> Sums
        ensures sums { result ≡ sums_over N.start.entries (batches_of self.now.rows) }
        ensures kept { IsBoard N.start self.now.rows result self.now.failed self.now.written (F.seen self.now.shelf) }
    {
        self.sums
    }

    pub fn failed(&self) -> bool
        ensures { result ≡ self.now.failed }
    {
        self.failed
    }

    /// The shelf, which has what the board keeps of it.
    pub fn into_shelf(self) -> F
        ensures shelf { result ≡ self.shelf }
        ensures kept { IsBoard N.start self.rows (sums_over N.start.entries (batches_of self.rows)) self.failed self.written (F.seen result) }
    {
        let Board { shelf, .. } = self;
        shelf
    }
}

// The rows, with room for one for each batch.
fn with_room(rows: RowList, batches: usize) -> Result<Vec<Row>, NoRoom>
    requires { length rows ≤ batches }
    ensures rows { IfOk result (λ v. v.items ≡ rows) }
    ensures room { IfOk result (λ v. batches ≤ vec_capacity v) }
{
    let mut rows = rows.into_vec();
    let more = batches - rows.len();
    reserve(&mut rows, more)?;
    Ok(rows)
}

// The sums of the last row.
fn last_sums(rows: &[Row]) -> Sums
    ensures { result ≡ sums_at_end rows.now }
{
    if rows.is_empty() {
        return Sums::none();
    }
    rows[rows.len() - 1].sums
}
