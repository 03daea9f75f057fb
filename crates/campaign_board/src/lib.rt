//! The board of a campaign: its rows, their sums, and the result file that they are written to; and the board that threads share.
#![tactic(auto)]

mod board;
mod entry;
mod headed;
mod law;
mod missing;
mod shared;

pub use board::{Board, NoBoard, Origin};
pub use entry::{Entry, Look, Posted};
pub use headed::Headed;
pub use law::boards_are_results;
pub use missing::{BatchList, missing_batches};
pub use shared::{NoShared, Seat, Shared};
