// The result file: its header, its rows, and reading it back.
#![tactic(auto)]

mod back;
mod check;
mod digest;
mod law;
mod read;
mod text;

pub use back::read_result;
use campaign_plan::Outcome;
pub use digest::own_digest;
use fm_base::{Line, Seq};
pub use law::written_reads_back;
use metric_sums::Sums;
pub use read::read_row;
pub use text::{header, row_line};

/// A row: a batch, its planes, and the running sums of this row and all before it, in units of 10^-6 FIT.
#[derive(Clone, Copy, Debug, PartialEq, Eq)]
pub struct Row {
    pub batch: u32,
    pub danger: u64,
    pub noticed: u64,
    pub sums: Sums,
}

/// A row that keeps other planes than those that were computed of its batch.
#[derive(Clone, Copy)]
pub struct FalseRow {
    pub batch: u32,
    pub kept: Outcome,
    pub computed: Outcome,
}

/// Rows, in the order in which they were appended.
pub type RowList = Seq<Row>;

/// The rows that are kept of a file, and how many bytes the header and they have: what follows is torn. It is 0 without a whole header.
#[derive(Drop)]
pub struct KeptRows {
    pub rows: RowList,
    pub whole: u64,
}

/// The first rule that a whole row breaks, in the order in which they are looked at.
#[derive(Clone, Copy, Debug, PartialEq, Eq)]
pub enum RowFault {
    /// It isn't of a row's form: `r`, a batch, two planes and five sums in lower-case hexadecimal, with single spaces.
    Form,
    /// Its batch isn't below the number of batches.
    Range,
    /// Its batch stood in an earlier row.
    Repeated,
    /// A plane has a bit that is 1 in a lane that holds no fault.
    UnusedLane,
    /// Its sums aren't those of the planes of this and the earlier rows.
    Sums { kept: Sums, computed: Sums },
}

/// Why a file isn't read back.
#[derive(Drop)]
pub enum ResultRefusal {
    /// Its first bytes, at most 89 of them, aren't the own header: it is the result of other inputs or settings.
    Foreign { found: Line, own: Line },
    /// The first bad row, counted from 1.
    BadRow { number: u32, why: RowFault },
}
