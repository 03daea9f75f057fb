//! The inputs that are held, and from which cycle on: the file that tells it.
#![tactic(auto)]

mod file;
mod first;
mod row;

use coverage_claim::Held;
use csv_rows::FaultyRow;
pub use file::read_held;
pub use first::first_cycle;
use fm_base::Seq;

/// Held inputs in order of rows.
pub type HeldList = Seq<Held>;

/// Why a row of a held file is refused, in the order in which the kinds are looked for.
#[derive(Clone, Copy, Debug, PartialEq, Eq)]
pub enum HeldKind {
    /// There is no header, or a row hasn't four fields.
    BadCsv,
    /// No input of the netlist has the name.
    UnknownInput,
    /// The input stood in an earlier row.
    Twice,
    /// More than 1,024 rows.
    TooLarge,
    /// The cycle is no number from 0 to 65,535.
    BadFrom,
    /// The value before is neither a bit nor a dash.
    BadBefore,
    /// A value is given for the cycles before cycle 0.
    NoCycleBefore,
    /// The value is no bit.
    BadValue,
}

/// The first faulty row, and the kind of its fault.
pub type HeldFault = FaultyRow<HeldKind>;
